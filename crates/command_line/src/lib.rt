//! The words of the command line: which lists of words are a command, and which command. It stands on `clap`, which
//! parses the words as one command with one level of subcommands; names and numbers are read after the parse.
#![tactic(auto)]

mod commands;
mod operands;
mod parser;

pub use commands::Command;
