//! Statements in words.
ghost use Rattle.std.specs.Prelude.{◌≡◌, ◌≤◌, ◌^◌, length, IfOk};
ghost use Rattle.script_lang.specs.Ranges.{FitsStatement};
ghost use Rattle.script_lang.specs.Reading.{GivesAsRead};
ghost use Rattle.script_lang.specs.Statements.{number, statement_of};

use crate::data::data_in;
use crate::flaw::Flaw;
use crate::names::file_name;
use crate::numbers::{number_in, number_or};
use crate::script::Statement;
use crate::trouble::Kind;
use crate::verb::Verb;
use std::alloc::Global;

// The number below 2^64 that a word writes.
fn number(word: &[u8]) -> Result<u64, Kind>
    ensures { result ≡ number word.now }
{
    number_in(word, 0, u64::MAX)
}

fn ropen(name: &[u8], workers: &[u8]) -> Result<Statement, Kind>
    ensures made { result ≡ statement_of Verb.Ropen name.now workers.now }
    ensures fits { IfOk result FitsStatement }
{
    let name = file_name(name)?;
    let workers = number_or(workers, 1, 1, 16)?;
    Ok(Statement::Ropen {
        name,
        workers: workers as u32,
    })
}

fn read(at: &[u8], len: &[u8]) -> Result<Statement, Kind>
    ensures made { result ≡ statement_of Verb.Read at.now len.now }
    ensures fits { IfOk result FitsStatement }
{
    let at = number(at)?;
    let len = number_in(len, 0, 1 << 24)?;
    Ok(Statement::Read { at, len })
}

fn trunc(name: &[u8], size: &[u8]) -> Result<Statement, Kind>
    ensures made { result ≡ statement_of Verb.Trunc name.now size.now }
    ensures fits { IfOk result FitsStatement }
{
    let name = file_name(name)?;
    let size = number(size)?;
    Ok(Statement::Trunc { name, size })
}

fn rename(name: &[u8], to: &[u8]) -> Result<Statement, Kind>
    ensures made { result ≡ statement_of Verb.Rename name.now to.now }
    ensures fits { IfOk result FitsStatement }
{
    let name = file_name(name)?;
    let to = file_name(to)?;
    Ok(Statement::Rename { name, to })
}

fn stop(call: &[u8], bytes: &[u8]) -> Result<Statement, Kind>
    ensures made { result ≡ statement_of Verb.Stop call.now bytes.now }
    ensures fits { IfOk result FitsStatement }
{
    let call = number_in(call, 1, u64::MAX)?;
    let bytes = number(bytes)?;
    Ok(Statement::Stop { call, bytes })
}

fn write(alloc: Global, at: &[u8], content: &[u8]) -> Result<Statement, Flaw>
    requires { length content.now ≤ 2 ^ 20 }
    ensures made { GivesAsRead result (statement_of Verb.Write at.now content.now) }
    ensures fits { IfOk result FitsStatement }
{
    let at = number(at)?;
    let content = data_in(alloc, content)?;
    Ok(Statement::Write { at, content })
}

fn verify(alloc: Global, at: &[u8], content: &[u8]) -> Result<Statement, Flaw>
    requires { length content.now ≤ 2 ^ 20 }
    ensures made { GivesAsRead result (statement_of Verb.Verify at.now content.now) }
    ensures fits { IfOk result FitsStatement }
{
    let at = number(at)?;
    let content = data_in(alloc, content)?;
    Ok(Statement::Verify { at, content })
}

// The statement of these two arguments, of which one that isn't there is empty.
pub(crate) fn statement(
    alloc: Global,
    verb: Verb,
    first: &[u8],
    second: &[u8],
) -> Result<Statement, Flaw>
    requires { length second.now ≤ 2 ^ 20 }
    ensures made { GivesAsRead result (statement_of verb first.now second.now) }
    ensures fits { IfOk result FitsStatement }
{
    Ok(match verb {
        Verb::Open => Statement::Open {
            name: file_name(first)?,
        },
        Verb::Write => write(alloc, first, second)?,
        Verb::Sync => Statement::Sync,
        Verb::Close => Statement::Close,
        Verb::Ropen => ropen(first, second)?,
        Verb::Read => read(first, second)?,
        Verb::Verify => verify(alloc, first, second)?,
        Verb::Map => Statement::Map,
        Verb::Refresh => Statement::Refresh,
        Verb::Rclose => Statement::Rclose,
        Verb::Stat => Statement::Stat {
            name: file_name(first)?,
        },
        Verb::Flatten => Statement::Flatten {
            name: file_name(first)?,
        },
        Verb::Recover => Statement::Recover {
            name: file_name(first)?,
        },
        Verb::Trunc => trunc(first, second)?,
        Verb::Rename => rename(first, second)?,
        Verb::Ls => Statement::Ls,
        Verb::Stop => stop(first, second)?,
    })
}
