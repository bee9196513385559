//! Reads the files of an input.
ghost use Rattle.std.specs.Prelude.{◌≤◌, ◌^◌, ◌<◌, List, length, Ok, Err, IfOk, IfErr};
ghost use Rattle.pack_input.specs.Input.{Fault, HasFault, IsInput};
ghost use Rattle.pack_input.specs.Answers.{AddsAsRead, AnswersAsRead, IsAnswered, IsTrouble};
ghost use Rattle.pack_input.specs.Reading.{file_of as file_of_words, files_of, input_of};
ghost use Rattle.pack_input.specs.Words.{lines_of};
ghost use Rattle.plfs_types.specs.Parts.{words_of};
ghost use Rattle.pack_input.specs.declared.files.NamedFile.{NamedFile};

use crate::files::{FileList, file_of};
use crate::trouble::{InputTrouble, Kind};
use crate::words::first_line;
use plfs_types::MAX_SCRIPT;
use std::alloc::Global;

/// Adds the file that the line of this number says.
fn add<'a>(files: &mut FileList<'a>, number: u64, line: &'a [u8]) -> Result<(), InputTrouble>
    ensures { AddsAsRead result number files.old files.new (file_of_words (words_of line.now)) }
{
    match file_of(line) {
        Ok(file) => {
            files.push(file)?;
            Ok(())
        }
        Err(kind) => Err(InputTrouble::Fault { line: number, kind }),
    }
}

/// The files of all lines.
fn read_lines(alloc: Global, bytes: &[u8]) -> Result<FileList<'_>, InputTrouble>
    requires { length bytes.now ≤ 2 ^ 20 }
    ensures { AnswersAsRead result (files_of 1 (lines_of bytes.now)) }
{
    let mut files = FileList::new(alloc);
    let mut number = 1;
    let mut rest = bytes;
    while !rest.is_empty() {
        let (line, later) = first_line(rest);
        add(&mut files, number, line)?;
        number += 1;
        rest = later;
    }
    Ok(files)
}

/// The files of the input, read step by step.
fn read_input(alloc: Global, bytes: &[u8]) -> Result<FileList<'_>, InputTrouble>
    ensures { AnswersAsRead result (input_of bytes.now) }
{
    if bytes.len() > MAX_SCRIPT {
        return Err(InputTrouble::Fault {
            line: 0,
            kind: Kind::Long,
        });
    }
    read_lines(alloc, bytes)
}

/// The files that an input says, one a line, or its first fault. An empty input says none.
pub fn read(alloc: Global, bytes: &[u8]) -> Result<FileList<'_>, InputTrouble>
    // What is read is there.
    ensures found { IfOk result (IsInput bytes.now) }
    // A fault that is told is the first one.
    ensures fault { IfErr result (IsTrouble bytes.now) }
    // What is there is read, unless memory is refused.
    ensures only { (files : List NamedFile) → IsInput bytes.now files → IsAnswered result (Ok files) }
    // The first fault is told, unless memory is refused.
    ensures exact { (fault : Fault) → HasFault bytes.now fault → IsAnswered result (Err (InputTrouble.Fault fault.line fault.kind)) }
{
    read_input(alloc, bytes)
}
