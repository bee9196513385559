//! Commands from their verbs and operands.
ghost use Rattle.std.specs.Prelude.{◌≡◌, ◌≢◌, ◌∷◌, [], Some, IfSome, codes};
ghost use Rattle.plfs_types.specs.Names.{IsLogicalName};
ghost use Rattle.clap.specs.Words.{subcommand_rows_of};
ghost use Rattle.command_line.specs.Commands.{IsCommand};
ghost use Rattle.command_line.specs.Parser.{spelled};
ghost use Rattle.command_line.specs.declared.commands.Command.{Command};

use crate::commands::Command;
use clap::ArgMatches;
use plfs_types::{LogicalName, read_decimal};

fn bare(verb: &str) -> Option<Command>
    ensures found { IfSome result (IsCommand (verb.now ∷ [])) }
    ensures exact { (command : Command) → IsCommand (verb.now ∷ []) command → result ≡ Some command }
{
    match verb {
        "run" => Some(Command::Run),
        "play" => Some(Command::Play),
        "ls" => Some(Command::Ls),
        _ => None,
    }
}

fn generated(number: &str) -> Option<Command>
    ensures found { IfSome result (IsCommand (codes "gen" ∷ number.now ∷ [])) }
    ensures exact { (command : Command) → IsCommand (codes "gen" ∷ number.now ∷ []) command → result ≡ Some command }
{
    let writers = read_decimal(number.as_bytes())?;
    if writers < 1 || writers > 256 {
        return None;
    }
    Some(Command::Gen {
        writers: writers as u32,
    })
}

fn packing(name: LogicalName, number: &str) -> Option<Command>
    requires { IsLogicalName name }
    ensures found { IfSome result (IsCommand (codes "pack" ∷ name ∷ number.now ∷ [])) }
    ensures exact { (command : Command) → IsCommand (codes "pack" ∷ name ∷ number.now ∷ []) command → result ≡ Some command }
{
    let region = read_decimal(number.as_bytes())?;
    if region > 255 {
        return None;
    }
    Some(Command::Pack { name, region })
}

fn of_file(verb: &str, name: LogicalName) -> Option<Command>
    requires { IsLogicalName name }
    ensures found { IfSome result (IsCommand (verb.now ∷ name ∷ [])) }
    ensures exact { verb.now ≢ codes "gen" → (command : Command) → IsCommand (verb.now ∷ name ∷ []) command → result ≡ Some command }
{
    match verb {
        "cat" => Some(Command::Cat { name }),
        "stat" => Some(Command::Stat { name }),
        "map" => Some(Command::Map { name }),
        "flatten" => Some(Command::Flatten { name }),
        "recover" => Some(Command::Recover { name }),
        "migrate" => Some(Command::Migrate { name }),
        "names" => Some(Command::Names { name }),
        _ => None,
    }
}

fn with_one(verb: &str, operand: &str) -> Option<Command>
    ensures found { IfSome result (IsCommand (verb.now ∷ operand.now ∷ [])) }
    ensures exact { (command : Command) → IsCommand (verb.now ∷ operand.now ∷ []) command → result ≡ Some command }
{
    if verb == "gen" {
        return generated(operand);
    }
    of_file(verb, LogicalName::read(operand.as_bytes())?)
}

fn with_two(verb: &str, first: &str, second: &str) -> Option<Command>
    ensures found { IfSome result (IsCommand (verb.now ∷ first.now ∷ second.now ∷ [])) }
    ensures exact { (command : Command) → IsCommand (verb.now ∷ first.now ∷ second.now ∷ []) command → result ≡ Some command }
{
    let name = LogicalName::read(first.as_bytes())?;
    match verb {
        "trunc" => {
            let size = read_decimal(second.as_bytes())?;
            Some(Command::Trunc { name, size })
        }
        "rename" => {
            let to = LogicalName::read(second.as_bytes())?;
            Some(Command::Rename { name, to })
        }
        "pack" => packing(name, second),
        "unpack" => {
            let file = LogicalName::read(second.as_bytes())?;
            Some(Command::Unpack { name, file })
        }
        _ => None,
    }
}

// The command that the matches are of.
pub(crate) fn command_of(matches: &ArgMatches<'_>) -> Option<Command>
    ensures found { IfSome result (IsCommand (spelled (subcommand_rows_of matches.now))) }
    ensures exact { (command : Command) → IsCommand (spelled (subcommand_rows_of matches.now)) command → result ≡ Some command }
{
    let (verb, operands) = matches.subcommand()?;
    match (operands.get_str("first"), operands.get_str("second")) {
        (None, _) => bare(verb),
        (Some(first), None) => with_one(verb, first),
        (Some(first), Some(second)) => with_two(verb, first, second),
    }
}
