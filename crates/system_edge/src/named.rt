//! The program that was called, also where its words are no text.
use crate::called::{Program, program_of};
use std::env::Env;
use std::str;

/// The most bytes of the name that are looked at.
const MOST_NAME: usize = 4096;

/// The program of the name by which it was called. That the system hands the name over is trusted; one that is no text, or is longer than
/// 4096 bytes, is taken for `plfs`.
#[inline(never)]
pub fn program_called(rt: &HostRuntime) -> Program {
    let mut name = [0; MOST_NAME];
    match rt.arg(0, &mut name) {
        Ok(count) => program_of(str::from_utf8(&name[..count]).unwrap_or("")),
        Err(_) => Program::Plfs,
    }
}
