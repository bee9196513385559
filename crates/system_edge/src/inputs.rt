//! What `plfs_copy` reads: standard input, or files one behind the other.
ghost use Rattle.std.specs.Prelude.{◌≡◌, ◌≢◌, ◌-◌, ◌++◌, ◌↔◌, ℕ, List, IfErr, IfOk, IsTrue, codes, length, take, vec_len};
ghost use Rattle.std.specs.List.{All, Contains};
ghost use Rattle.system_edge.specs.Inputs.{BeginsWithFrom, all_left, input_left};

use crate::sources::open_source;
use plfs_types::Word;
use std::alloc::Global;
use std::cell::RefCell;
use std::fs::File;
use std::io::{self, Read};

/// A file that can't be had, and why.
#[derive(Drop)]
pub struct Unopened<'a> {
    pub file: &'a Word,
    pub error: io::Error,
}

// Whether files follow behind the word.
fn is_from(word: &Word) -> bool
    ensures { IsTrue result ↔ (word.now ≡ codes "--from") }
{
    word.as_bytes() == b"--from".as_slice()
}

/// The words before the first `--from`, and those from it on.
pub fn split_from(words: &[Word]) -> (&[Word], &[Word])
    ensures whole { result.0.now ++ result.1.now ≡ words.now }
    ensures before { All (λ (word : List ℕ). word ≢ codes "--from") result.0.now }
    ensures behind { BeginsWithFrom result.1.now }
{
    for place in 0..words.len() {
        if is_from(&words[place]) {
            return words.split_at(place);
        }
    }
    (words, &[])
}

/// Files that are read one behind the other, and how many of them are behind.
///
/// Where they tell the bytes that they have left, these are read: all of the first one, then all of the next. A read of 0 bytes into
/// some room comes only behind all of them. Files of the system tell none, and what they hand over is trusted.
#[derive(Drop)]
pub struct Files<'a, F> {
    // The next one is the last.
    opened: Vec<F>,
    read: &'a RefCell<usize>,
}

/// Opens all of the files for reading, the last one first. That each is the file of its word is trusted.
pub fn open_files<'a>(
    rt: &HostRuntime,
    alloc: Global,
    files: &'a [Word],
) -> Result<Vec<File>, Unopened<'a>>
    ensures count { IfOk result (λ opened. vec_len opened ≡ length files.now) }
    ensures which { IfErr result (λ unopened. Contains files.now unopened.file.now) }
{
    let mut opened = Vec::new(alloc);
    for file in files.iter().rev() {
        match open_source(rt, file.as_str()) {
            Ok(open) => {
                if opened.push(open).is_err() {
                    let error = io::Error::from(io::ErrorKind::OutOfMemory);
                    return Err(Unopened { file, error });
                }
            }
            Err(error) => return Err(Unopened { file, error }),
        }
    }
    Ok(opened)
}

impl<'a, F: Read + Drop> Files<'a, F> {
    /// These files, of which the last one comes first. How many were read to their ends is counted there.
    pub fn new(opened: Vec<F>, read: &'a RefCell<usize>) -> Files<'a, F>
        ensures { result.opened ≡ opened }
    {
        Files { opened, read }
    }

    // The next file follows.
    fn pass(&mut self)
        ensures { self.new.opened.items ≡ take (length self.old.opened.items - 1) self.old.opened.items }
    {
        let _ = self.opened.pop();
        if let Ok(mut read) = self.read.try_borrow_mut() {
            *read = read.saturating_add(1);
        }
    }
}

impl<'a, F: Read + Drop> Read for Files<'a, F> {
    ghost remaining = { λ files. all_left F.remaining files.opened.items };

    fn read(&mut self, buf: &mut [u8]) -> io::Result<usize> {
        while !self.opened.is_empty() {
            let Some(file) = self.opened.last_mut() else {
                return Ok(0);
            };
            let count = file.read(buf)?;
            if count > 0 || buf.is_empty() {
                return Ok(count);
            }
            self.pass();
        }
        Ok(0)
    }
}

/// Standard input, or files in its place.
#[derive(Drop)]
pub enum Input<'a, R, F> {
    Standard(R),
    Files(Files<'a, F>),
}

impl<'a, R: Read, F: Read + Drop> Read for Input<'a, R, F> {
    ghost remaining = { input_left R.remaining F.remaining };

    fn read(&mut self, buf: &mut [u8]) -> io::Result<usize> {
        match self {
            Input::Standard(reader) => reader.read(buf),
            Input::Files(files) => files.read(buf),
        }
    }
}
