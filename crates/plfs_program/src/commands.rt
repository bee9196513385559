//! The scripts that commands play.
ghost use Rattle.std.specs.Prelude.{◌≡◌, IfOk, IfSome, IfNone};
ghost use Rattle.plfs_program.specs.Commands.{IsBuiltCommand, IsBuiltAs, FitsCommand, actor as actor_of, of_command as numbered_of, script_of as script_with, one_script as one_of, map_script as map_of, plan as plan_with};

use crate::showing::Shown;
use command_line::Command;
use plfs_types::{LogicalName, Name, NoMemory};
use script_lang::{
    ActorDecl, ActorList, Numbered, Phase, PhaseList, Script, Statement, StatementList, TurnList,
    generate,
};
use std::alloc::Global;

/// A script that a command plays, and what is shown of its lines.
#[derive(Drop)]
pub(crate) struct Plan {
    pub(crate) script: Script,
    pub(crate) shown: Shown,
}

/// A command that is built.
#[derive(Drop)]
pub(crate) enum Built {
    /// Its script comes from the input.
    Play,
    /// It writes this file out.
    Cat {
        name: LogicalName,
    },
    /// It packs the closed writers of this file.
    Migrate {
        name: LogicalName,
    },
    /// It packs small files of the input into a region of a container.
    Pack {
        name: LogicalName,
        region: u64,
    },
    /// It writes one small file of a container.
    Unpack {
        name: LogicalName,
        file: LogicalName,
    },
    /// It names the small files of a container.
    Names {
        name: LogicalName,
    },
    /// Its words tell its script.
    Planned(Plan),
}

/// The one actor of a command.
pub(crate) fn actor() -> ActorDecl
    ensures { result ≡ actor_of }
{
    ActorDecl {
        host: 0,
        cap: 64,
        name: Name::from_bytes(b"a").unwrap(),
    }
}

/// Its statements have no line of a script.
pub(crate) fn of_command(statement: Statement) -> Numbered
    ensures { result ≡ numbered_of statement }
{
    Numbered {
        line: 0,
        actor: 0,
        statement,
    }
}

// One actor makes these statements in one phase.
fn script_of(alloc: Global, statements: StatementList) -> Result<Script, NoMemory>
    ensures { IfOk result (λ script. script ≡ script_with statements) }
{
    let mut actors = ActorList::new(alloc);
    actors.push(actor())?;
    let mut phases = PhaseList::new(alloc);
    phases.push(Phase {
        turns: TurnList::new(alloc),
        statements,
    })?;
    Ok(Script { actors, phases })
}

fn one_script(alloc: Global, statement: Statement) -> Result<Script, NoMemory>
    ensures { IfOk result (λ script. script ≡ one_of statement) }
{
    let mut statements = StatementList::new(alloc);
    statements.push(of_command(statement))?;
    script_of(alloc, statements)
}

fn map_script(alloc: Global, name: LogicalName) -> Result<Script, NoMemory>
    ensures { IfOk result (λ script. script ≡ map_of name) }
{
    let mut statements = StatementList::new(alloc);
    statements.push(of_command(Statement::Ropen { name, workers: 1 }))?;
    statements.push(of_command(Statement::Map))?;
    script_of(alloc, statements)
}

// What is shown of this script's lines.
fn planned(script: Script, shown: Shown) -> Option<Built>
    ensures { result ≡ Some (Built.Planned (plan_with script shown)) }
{
    Some(Built::Planned(Plan { script, shown }))
}

// One statement of one actor.
fn of_one(alloc: Global, statement: Statement) -> Result<Option<Built>, NoMemory>
    ensures { IfOk result (λ found. found ≡ Some (Built.Planned (plan_with (one_of statement) Shown.All))) }
{
    Ok(planned(one_script(alloc, statement)?, Shown::All))
}

/// The command, where it is built.
pub(crate) fn built_command(alloc: Global, command: Command) -> Result<Option<Built>, NoMemory>
    requires { FitsCommand command }
    ensures same { IfOk result (λ found. IfSome found (IsBuiltAs command)) }
    ensures other { IfOk result (λ found. IfNone found (IsBuiltCommand command → ⊥)) }
{
    match command {
        Command::Play => Ok(Some(Built::Play)),
        Command::Cat { name } => Ok(Some(Built::Cat { name })),
        Command::Migrate { name } => Ok(Some(Built::Migrate { name })),
        Command::Pack { name, region } => Ok(Some(Built::Pack { name, region })),
        Command::Unpack { name, file } => Ok(Some(Built::Unpack { name, file })),
        Command::Names { name } => Ok(Some(Built::Names { name })),
        Command::Gen { writers } => Ok(planned(generate(alloc, writers)?, Shown::Summed)),
        Command::Map { name } => Ok(planned(map_script(alloc, name)?, Shown::PastOpening)),
        Command::Stat { name } => of_one(alloc, Statement::Stat { name }),
        Command::Flatten { name } => of_one(alloc, Statement::Flatten { name }),
        Command::Recover { name } => of_one(alloc, Statement::Recover { name }),
        Command::Trunc { name, size } => of_one(alloc, Statement::Trunc { name, size }),
        Command::Rename { name, to } => of_one(alloc, Statement::Rename { name, to }),
        Command::Ls => of_one(alloc, Statement::Ls),
        Command::Run => Ok(None),
    }
}
