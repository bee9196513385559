//! What a line says.
ghost use Rattle.std.specs.Prelude.{◌≡◌, ◌≤◌, ◌^◌, ◌+◌, ◌<◌, Bool, Some, List, length, IfOk};
ghost use Rattle.script_lang.specs.Grammar.{read_length};
ghost use Rattle.script_lang.specs.Lines.{is_refused, declared, declaration, beginning, turning, turns_at, within_reads, says_by, saying, meaning_of, Names, IsFit};
ghost use Rattle.script_lang.specs.Ranges.{FitsStatement};
ghost use Rattle.script_lang.specs.Reading.{GivesAsRead};
ghost use Rattle.script_lang.specs.declared.script.ActorDecl.{ActorDecl};
ghost use Rattle.script_lang.specs.Shown.{shown};

use crate::cast::Cast;
use crate::flaw::Flaw;
use crate::names::is_actor_name;
use crate::numbers::{number_in, number_or};
use crate::script::{ActorDecl, Statement, Turned};
use crate::statement::statement;
use crate::trouble::Kind;
use crate::verb::{Verb, has_words, verb_of};
use crate::words::{Words, is_word};
use plfs_types::Name;
use std::alloc::Global;

// What a line says.
#[derive(Drop)]
pub(crate) enum Meaning {
    Passed,
    Declares(ActorDecl),
    Begins,
    Turns(Turned),
    // A statement of the actor at this place, and how many bytes the `read` lines so far ask for.
    Says {
        actor: u64,
        statement: Statement,
        reads: u64,
    },
}

// Whether an actor may not be declared here by this name.
fn is_refused(cast: &Cast, begun: bool, name: &[u8]) -> bool
    ensures { result ≡ is_refused cast.now begun name.now }
{
    begun || cast.len() >= 256 || !is_actor_name(name) || cast.place(name).is_some()
}

// The actor of a declaration. Its name is one of an actor.
fn declared(words: &Words<'_>) -> Result<Meaning, Kind>
    requires { length words.now.second.now ≤ 16 }
    ensures said { result ≡ declared (shown words.now) }
    ensures name { IfOk result (Names words.now.second.now) }
{
    let host = number_or(words.third, 0, 0, u64::from(u32::MAX))?;
    let cap = number_or(words.fourth, 64, 1, 4096)?;
    match Name::from_bytes(words.second) {
        Some(name) => Ok(Meaning::Declares(ActorDecl {
            host: host as u32,
            cap: cap as u32,
            name,
        })),
        None => Err(Kind::Actor),
    }
}

fn declaration(cast: &Cast, begun: bool, words: &Words<'_>) -> Result<Meaning, Kind>
    ensures said { result ≡ declaration cast.now begun (shown words.now) }
    ensures fit { IfOk result (IsFit cast.now begun) }
{
    if words.count == 1 {
        return Err(Kind::Count);
    }
    if is_refused(cast, begun, words.second) {
        return Err(Kind::Actor);
    }
    if words.count > 4 {
        return Err(Kind::Count);
    }
    declared(words)
}

fn turns_of(actor: u64, words: &Words<'_>) -> Result<Meaning, Kind>
    ensures said { result ≡ turns_at (Some actor) (shown words.now) }
    ensures fit { (actors : List ActorDecl) (begun : Bool) → actor < length actors → IfOk result (IsFit actors begun) }
{
    if words.count != 3 {
        return Err(Kind::Count);
    }
    let count = number_in(words.third, 1, u64::from(u32::MAX))?;
    Ok(Meaning::Turns(Turned { actor, count }))
}

fn turning(cast: &Cast, words: &Words<'_>) -> Result<Meaning, Kind>
    ensures said { result ≡ turning cast.now (shown words.now) }
    ensures fit { (begun : Bool) → IfOk result (IsFit cast.now begun) }
{
    if words.count == 1 {
        return Err(Kind::Count);
    }
    match cast.place(words.second) {
        Some(actor) => turns_of(actor, words),
        None => Err(Kind::Actor),
    }
}

fn read_length(statement: &Statement) -> u64
    ensures { result ≡ read_length statement.now }
{
    match statement {
        Statement::Read { len, .. } => *len,
        _ => 0,
    }
}

fn within_reads(actor: u64, statement: Statement, reads: u64) -> Result<Meaning, Kind>
    requires few { reads ≤ 2 ^ 28 }
    requires fits { FitsStatement statement }
    ensures said { result ≡ within_reads actor statement (reads + read_length statement) }
    ensures fit { (actors : List ActorDecl) (begun : Bool) → actor < length actors → IfOk result (IsFit actors begun) }
{
    let reads = reads.saturating_add(read_length(&statement));
    if reads > 1 << 28 {
        return Err(Kind::Reads);
    }
    Ok(Meaning::Says {
        actor,
        statement,
        reads,
    })
}

fn says(
    alloc: Global,
    actor: u64,
    verb: Verb,
    reads: u64,
    words: &Words<'_>,
) -> Result<Meaning, Flaw>
    requires few { reads ≤ 2 ^ 28 }
    requires short { length words.now.fourth.now ≤ 2 ^ 20 }
    ensures said { GivesAsRead result (says_by actor (Some verb) reads (shown words.now)) }
    ensures fit { (actors : List ActorDecl) (begun : Bool) → actor < length actors → IfOk result (IsFit actors begun) }
{
    if !has_words(verb, words.count) {
        return Err(Flaw::Kind(Kind::Count));
    }
    let statement = statement(alloc, verb, words.third, words.fourth)?;
    Ok(within_reads(actor, statement, reads)?)
}

fn saying(alloc: Global, cast: &Cast, reads: u64, words: &Words<'_>) -> Result<Meaning, Flaw>
    requires few { reads ≤ 2 ^ 28 }
    requires short { length words.now.fourth.now ≤ 2 ^ 20 }
    ensures said { GivesAsRead result (saying cast.now reads (shown words.now)) }
    ensures fit { (begun : Bool) → IfOk result (IsFit cast.now begun) }
{
    let Some(actor) = cast.place(words.first) else {
        return Err(Flaw::Kind(Kind::Actor));
    };
    if words.count == 1 {
        return Err(Flaw::Kind(Kind::Count));
    }
    match verb_of(words.second) {
        Some(verb) => says(alloc, actor, verb, reads, words),
        None => Err(Flaw::Kind(Kind::Word)),
    }
}

fn beginning(words: &Words<'_>) -> Result<Meaning, Kind>
    ensures said { result ≡ beginning (shown words.now) }
    ensures fit { (actors : List ActorDecl) (begun : Bool) → IfOk result (IsFit actors begun) }
{
    if words.count == 1 {
        Ok(Meaning::Begins)
    } else {
        Err(Kind::Count)
    }
}

// What the words of a line say.
pub(crate) fn meaning_of(
    alloc: Global,
    cast: &Cast,
    begun: bool,
    reads: u64,
    words: &Words<'_>,
) -> Result<Meaning, Flaw>
    requires few { reads ≤ 2 ^ 28 }
    requires short { length words.now.fourth.now ≤ 2 ^ 20 }
    ensures said { GivesAsRead result (meaning_of cast.now begun reads (shown words.now)) }
    ensures fit { IfOk result (IsFit cast.now begun) }
{
    if is_word(words.first, b"actor") {
        return Ok(declaration(cast, begun, words)?);
    }
    if is_word(words.first, b"phase") {
        return Ok(beginning(words)?);
    }
    if is_word(words.first, b"turn") {
        return Ok(turning(cast, words)?);
    }
    saying(alloc, cast, reads, words)
}
