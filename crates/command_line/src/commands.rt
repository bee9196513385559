//! Commands, and the words that are one.
ghost use Rattle.std.specs.Prelude.{◌≡◌, Some, IfSome, IfOk, map};
ghost use Rattle.std.specs.List.{list_any};
ghost use Rattle.command_line.specs.Options.{is_option};

use crate::operands::command_of;
use crate::parser::parse;
use plfs_types::{LogicalName, NoMemory, Word};
use std::alloc::{AllocError, Global};

/// What the program is asked to do with its folder.
#[derive(Clone, Copy)]
pub enum Command {
    /// Runs the script on standard input, its actors on threads.
    Run,
    /// Plays the script on standard input by written turns.
    Play,
    /// Plays the generated script of 1 to 256 writers.
    Gen {
        writers: u32,
    },
    /// Writes the whole file.
    Cat {
        name: LogicalName,
    },
    /// Asks for the attributes of a file.
    Stat {
        name: LogicalName,
    },
    /// Lists the pieces of a file.
    Map {
        name: LogicalName,
    },
    /// Flattens the indices of a file.
    Flatten {
        name: LogicalName,
    },
    /// Repairs what stopped writers have left of a file.
    Recover {
        name: LogicalName,
    },
    /// Packs the indices of a file.
    Migrate {
        name: LogicalName,
    },
    /// Packs the small files on standard input into a region of a container.
    Pack {
        name: LogicalName,
        region: u64,
    },
    /// Names the small files of a container.
    Names {
        name: LogicalName,
    },
    /// Writes one small file of a container.
    Unpack {
        name: LogicalName,
        file: LogicalName,
    },
    /// Truncates a file to so many bytes.
    Trunc {
        name: LogicalName,
        size: u64,
    },
    /// Gives a file another name.
    Rename {
        name: LogicalName,
        to: LogicalName,
    },
    /// Names all files.
    Ls,
}

// Whether the parser could take the word for an option.
fn is_option(word: &Word) -> bool
    ensures { result ≡ is_option word.now }
{
    word.as_bytes().first() == Some(&b'-')
}

fn has_option(words: &[Word]) -> bool
    ensures { result ≡ list_any is_option words.now }
{
    words.iter().any(is_option)
}

fn texts<'a>(alloc: Global, words: &'a [Word]) -> Result<Vec<&'a str>, AllocError>
    ensures { IfOk result (λ texts. map (λ t. t.now) texts.items ≡ words.entry.now) }
{
    let mut texts = Vec::new(alloc);
    for word in words {
        texts.push(word.as_str())?;
    }
    Ok(texts)
}

impl Command {
    ghost use Rattle.command_line.specs.Commands.{IsCommand};

    /// The command that these words are, which stand behind the folder on the command line, or None exactly where they
    /// are none.
    pub fn read(alloc: Global, words: &[Word]) -> Result<Option<Command>, NoMemory>
        ensures found { IfOk result (λ found. IfSome found (IsCommand words.now)) }
        ensures exact { IfOk result (λ found. (command : Command) → IsCommand words.now command → found ≡ Some command) }
    {
        if has_option(words) {
            return Ok(None);
        }
        let texts = texts(alloc, words)?;
        match parse(alloc, texts.as_slice())? {
            Some(matches) => Ok(command_of(&matches)),
            None => Ok(None),
        }
    }
}
