//! By which name the program was called, and the words behind that.
ghost use Rattle.std.specs.Prelude.{◌≡◌, ◌++◌, ◌↔◌, ◌⊎◌, List, ℕ, IfOk, IsTrue, codes, map, string_bytes};
ghost use Rattle.std.specs.Vec.Iter.{into_iter_items};
ghost use Rattle.system_edge.specs.Called.{AreCalled, IsCalled, IsProgramOf};

use plfs_types::{NoMemory, Word};
use std::alloc::Global;
use std::env::{self, Args};
use std::io::ErrorKind;

/// The program that a name is of: one file serves several, each under a name of its own.
#[derive(Clone, Copy)]
pub enum Program {
    Plfs,
    Copy,
    Check,
    Serve,
}

/// The program that was called, and the words behind its name.
#[derive(Drop)]
pub struct Called {
    pub program: Program,
    pub words: Vec<Word>,
}

// Whether the path is this name, or ends in a slash and the name, as `below` is.
fn is_called(path: &str, name: &str, below: &str) -> bool
    ensures { IsTrue result ↔ ((path.now ≡ name.now) ⊎ ((folder : List ℕ) × (path.now ≡ folder ++ below.now))) }
{
    path == name || path.ends_with(below)
}

// Whether the last part of the path is the name of the program that copies.
fn is_copy(name: &str) -> bool
    ensures { IsTrue result ↔ IsCalled (codes "plfs_copy") name.now }
{
    is_called(name, "plfs_copy", "/plfs_copy")
}

// Whether it is the name of the program that checks.
fn is_check(name: &str) -> bool
    ensures { IsTrue result ↔ IsCalled (codes "plfs_check") name.now }
{
    is_called(name, "plfs_check", "/plfs_check")
}

// Whether it is the name of the program that serves others.
fn is_serve(name: &str) -> bool
    ensures { IsTrue result ↔ IsCalled (codes "plfs_serve") name.now }
{
    is_called(name, "plfs_serve", "/plfs_serve")
}

pub(crate) fn program_of(name: &str) -> Program
    ensures { IsProgramOf name.now result }
{
    if is_copy(name) {
        Program::Copy
    } else if is_check(name) {
        Program::Check
    } else if is_serve(name) {
        Program::Serve
    } else {
        Program::Plfs
    }
}

// Takes the first argument, which names the program. Where there is none it is `plfs`.
fn take_program(args: &mut Args) -> Program
    ensures { AreCalled (map (λ arg. string_bytes arg) (into_iter_items args.old)) result (map (λ arg. string_bytes arg) (into_iter_items args.new)) }
{
    match args.next() {
        Some(name) => program_of(name.as_str()),
        None => Program::Plfs,
    }
}

// The program and the words of these arguments.
fn called_of(alloc: Global, args: Args) -> Result<Called, NoMemory>
    ensures { IfOk result (λ called. AreCalled (map (λ arg. string_bytes arg) (into_iter_items args)) called.program called.words.items) }
{
    let mut rest = args;
    let program = take_program(&mut rest);
    let mut words = Vec::new(alloc);
    while let Some(word) = rest.next() {
        words.push(Word::copy(alloc, word.as_str())?)?;
    }
    Ok(Called { program, words })
}

/// The program and its words, or None where one of them is no text.
///
/// That the system hands over the arguments is trusted. The first of them names the program, and the words are all others, in their order.
#[inline(never)]
pub fn read_called(rt: &HostRuntime, alloc: Global) -> Result<Option<Called>, NoMemory> {
    match env::args(rt) {
        Ok(args) => Ok(Some(called_of(alloc, args)?)),
        Err(error) if error.kind() == ErrorKind::OutOfMemory => Err(NoMemory),
        Err(_) => Ok(None),
    }
}
