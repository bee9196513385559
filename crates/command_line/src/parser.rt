//! The parser of the words: `clap`, told of each command and its operands.
ghost use Rattle.std.specs.Prelude.{◌≡◌, false, map, IfOk};
ghost use Rattle.clap.specs.Words.{app_of, rule_of};
ghost use Rattle.clap.specs.declared.builder.command.Command.TheViews.{out-Command};
ghost use Rattle.command_line.specs.Parser.{◌or◌, operand, with_one, with_two, with_scripts, with_files, with_changes, with_units, program, parser, AreParsed};

use clap::error::ErrorKind;
use clap::{Arg, ArgMatches, Command};
use plfs_types::NoMemory;
use std::alloc::{AllocError, Global};

fn operand<'a>(alloc: Global, id: &'a str) -> Arg<'a>
    ensures rule { rule_of result ≡ operand id.entry.now }
    ensures local { result.global ≡ false }
{
    Arg::new(alloc, id).required(true)
}

fn with_one<'a>(alloc: Global, name: &'a str) -> Result<Command<'a>, AllocError>
    ensures shape { IfOk result (λ command. app_of command ≡ with_one name.entry.now) }
    ensures local { IfOk result (λ command. (out-Command command).has_globals ≡ false) }
{
    Command::new(alloc, name).arg(operand(alloc, "first"))
}

fn with_two<'a>(alloc: Global, name: &'a str) -> Result<Command<'a>, AllocError>
    ensures shape { IfOk result (λ command. app_of command ≡ with_two name.entry.now) }
    ensures local { IfOk result (λ command. (out-Command command).has_globals ≡ false) }
{
    with_one(alloc, name)?.arg(operand(alloc, "second"))
}

// The command with one more subcommand, of one operand.
fn and_one<'a>(
    alloc: Global,
    command: Command<'a>,
    name: &'a str,
) -> Result<Command<'a>, AllocError>
    ensures { IfOk result (λ all. app_of all ≡ app_of command.entry or with_one name.entry.now) }
{
    command.subcommand(with_one(alloc, name)?)
}

// The same with two.
fn and_two<'a>(
    alloc: Global,
    command: Command<'a>,
    first: &'a str,
    second: &'a str,
) -> Result<Command<'a>, AllocError>
    ensures { IfOk result (λ all. app_of all ≡ app_of command.entry or with_one first.entry.now or with_one second.entry.now) }
{
    let command = and_one(alloc, command, first)?;
    and_one(alloc, command, second)
}

fn with_scripts<'a>(alloc: Global, command: Command<'a>) -> Result<Command<'a>, AllocError>
    ensures { IfOk result (λ all. app_of all ≡ with_scripts (app_of command.entry)) }
{
    let command = command
        .subcommand(Command::new(alloc, "run"))?
        .subcommand(Command::new(alloc, "play"))?
        .subcommand(Command::new(alloc, "ls"))?;
    and_one(alloc, command, "gen")
}

fn with_files<'a>(alloc: Global, command: Command<'a>) -> Result<Command<'a>, AllocError>
    ensures { IfOk result (λ all. app_of all ≡ with_files (app_of command.entry)) }
{
    let command = and_two(alloc, command, "cat", "stat")?;
    let command = and_two(alloc, command, "map", "flatten")?;
    let command = and_two(alloc, command, "recover", "migrate")?;
    and_one(alloc, command, "names")
}

fn with_units<'a>(alloc: Global, command: Command<'a>) -> Result<Command<'a>, AllocError>
    ensures { IfOk result (λ all. app_of all ≡ with_units (app_of command.entry)) }
{
    command
        .subcommand(with_two(alloc, "pack")?)?
        .subcommand(with_two(alloc, "unpack")?)
}

fn with_changes<'a>(alloc: Global, command: Command<'a>) -> Result<Command<'a>, AllocError>
    ensures { IfOk result (λ all. app_of all ≡ with_changes (app_of command.entry)) }
{
    command
        .subcommand(with_two(alloc, "trunc")?)?
        .subcommand(with_two(alloc, "rename")?)
}

fn program<'a>(alloc: Global) -> Command<'a>
    ensures { app_of result ≡ program }
{
    Command::new(alloc, "plfs")
        .no_binary_name(true)
        .disable_help_flag(true)
        .disable_help_subcommand(true)
}

fn parser<'a>(alloc: Global) -> Result<Command<'a>, AllocError>
    ensures { IfOk result (λ command. app_of command ≡ parser) }
{
    let command = with_scripts(alloc, program(alloc))?;
    let command = with_files(alloc, command)?;
    let command = with_changes(alloc, command)?;
    with_units(alloc, command)
}

// The parser's matches, or None where it refuses the words.
pub(crate) fn parse<'a>(
    alloc: Global,
    words: &'a [&'a str],
) -> Result<Option<ArgMatches<'a>>, NoMemory>
    ensures { IfOk result (AreParsed (map (λ w. w.now) words.entry.now)) }
{
    match parser(alloc)?.try_get_matches_from(words) {
        Ok(matches) => Ok(Some(matches)),
        Err(error) if error.kind() == ErrorKind::OutOfMemory => Err(NoMemory),
        Err(_) => Ok(None),
    }
}
