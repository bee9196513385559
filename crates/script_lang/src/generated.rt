//! The generated script: many writers of one file side by side, and one that reads it back.
ghost use Rattle.std.specs.Prelude.{◌≡◌, ◌≤◌, ◌<◌, ◌+◌, ◌*◌, ◌^◌, ◌++◌, [], ◌∷◌, IfOk, OnOk, length};
ghost use Rattle.std.specs.Fmt.{decimal};
ghost use Rattle.script_lang.specs.Ranges.{FitsScript};
ghost use Rattle.script_lang.specs.Generated.{file_of as name_of, writer as the_writer, block as the_block, Said, said, opens as the_opens, writes as the_writes, closes as the_closes, checks as the_checks, on_lines, generated, in_phases};

use crate::script::{
    ActorDecl, ActorList, Data, Numbered, Phase, PhaseList, Script, Statement, TurnList,
};
use crate::statement_list::StatementList;
use itoa::Buffer;
use plfs_types::{LogicalName, Name, NoMemory};
use std::alloc::Global;

// How often each writer writes a block.
const ROUNDS: u32 = 32;

// The bytes of a block.
const BLOCK: u64 = 47008;

// These bytes and the number behind them.
fn with_number(alloc: Global, front: &[u8], number: u32) -> Result<Vec<u8>, NoMemory>
    ensures { IfOk result (λ text. text.items ≡ front.now ++ decimal number) }
{
    let mut buffer = Buffer::new();
    let mut text = Vec::from_slice(alloc, front)?;
    text.extend_from_slice(buffer.format(number).as_bytes())?;
    Ok(text)
}

fn file_of(alloc: Global, n: u32) -> Result<LogicalName, NoMemory>
    requires { n ≤ 256 }
    ensures { IfOk result (λ name. name ≡ name_of n) }
{
    let text = with_number(alloc, b"gen", n)?;
    Ok(LogicalName::read(&text).unwrap())
}

fn writer(alloc: Global, i: u32) -> Result<ActorDecl, NoMemory>
    ensures { IfOk result (λ actor. actor ≡ the_writer i) }
{
    let text = with_number(alloc, b"w", i)?;
    Ok(ActorDecl {
        host: i,
        cap: 64,
        name: Name::from_bytes(&text).unwrap(),
    })
}

fn writers(alloc: Global, n: u32) -> Result<ActorList, NoMemory>
    ensures { IfOk result (λ actors. actors ≡ (generated n).actors) }
{
    let mut actors = ActorList::new(alloc);
    for i in 0..n {
        actors.push(writer(alloc, i)?)?;
    }
    Ok(actors)
}

// The bytes of block k.
fn block(n: u32, k: u32) -> Data
    requires { 1 ≤ n }
    ensures { result ≡ the_block n k }
{
    Data::Ramp {
        len: BLOCK,
        first: ((u64::from(k / n) + u64::from(k % n)) % 256) as u8,
    }
}

// Statements, the first of which stands on the line `first`.
#[derive(Drop)]
struct Written {
    first: u64,
    list: StatementList,
}

impl Written {
    fn new(alloc: Global, first: u64) -> Written
        ensures first { result.first ≡ first }
        ensures list { result.list ≡ [] }
    {
        Written {
            first,
            list: StatementList::new(alloc),
        }
    }

    // The statement of the actor at this place, on a line of its own.
    fn say(&mut self, actor: u32, statement: Statement) -> Result<(), NoMemory>
        requires { self.old.first + length self.old.list < 2 ^ 32 }
        ensures first { self.new.first ≡ self.old.first }
        ensures list { OnOk result (self.new.list ≡ self.old.list ++ on_lines (self.old.first + length self.old.list) (said actor statement ∷ [])) }
    {
        let line = self.first + self.list.as_slice().len() as u64;
        self.list.push(Numbered {
            line,
            actor: u64::from(actor),
            statement,
        })?;
        Ok(())
    }
}

fn opens(alloc: Global, first: u64, n: u32) -> Result<StatementList, NoMemory>
    requires few { n ≤ 256 }
    requires first { first < 2 ^ 16 }
    ensures { IfOk result (λ list. list ≡ on_lines first (the_opens n)) }
{
    let name = file_of(alloc, n)?;
    let mut written = Written::new(alloc, first);
    for i in 0..n {
        written.say(i, Statement::Open { name })?;
    }
    Ok(written.list)
}

fn writes(alloc: Global, first: u64, n: u32) -> Result<StatementList, NoMemory>
    requires some { 1 ≤ n }
    requires few { n ≤ 256 }
    requires first { first < 2 ^ 16 }
    ensures { IfOk result (λ list. list ≡ on_lines first (the_writes n)) }
{
    let mut written = Written::new(alloc, first);
    for k in 0..ROUNDS * n {
        let content = block(n, k);
        let at = u64::from(k) * BLOCK;
        written.say(k % n, Statement::Write { at, content })?;
    }
    Ok(written.list)
}

fn closes(alloc: Global, first: u64, n: u32) -> Result<StatementList, NoMemory>
    requires few { n ≤ 256 }
    requires first { first < 2 ^ 16 }
    ensures { IfOk result (λ list. list ≡ on_lines first (the_closes n)) }
{
    let mut written = Written::new(alloc, first);
    for i in 0..n {
        written.say(i, Statement::Close)?;
    }
    Ok(written.list)
}

fn checks(alloc: Global, first: u64, n: u32) -> Result<StatementList, NoMemory>
    requires some { 1 ≤ n }
    requires few { n ≤ 256 }
    requires first { first < 2 ^ 16 }
    ensures { IfOk result (λ list. list ≡ on_lines first (the_checks n)) }
{
    let name = file_of(alloc, n)?;
    let mut written = Written::new(alloc, first);
    written.say(0, Statement::Ropen { name, workers: 4 })?;
    for k in 0..ROUNDS * n {
        let content = block(n, k);
        let at = u64::from(k) * BLOCK;
        written.say(0, Statement::Verify { at, content })?;
    }
    written.say(0, Statement::Stat { name })?;
    Ok(written.list)
}

// A phase without written turns.
fn phase(alloc: Global, statements: StatementList) -> Phase
    ensures { result ≡ record { turns = []; statements = statements } }
{
    Phase {
        turns: TurnList::new(alloc),
        statements,
    }
}

// Puts the phases into an empty list.
fn add_phases(alloc: Global, n: u32, phases: &mut PhaseList) -> Result<(), NoMemory>
    requires some { 1 ≤ n }
    requires few { n ≤ 256 }
    requires none { phases.old ≡ [] }
    ensures { OnOk result (phases.new ≡ (generated n).phases) }
{
    let writers = u64::from(n);
    let blocks = u64::from(ROUNDS * n);
    phases.push(phase(alloc, opens(alloc, writers + 1, n)?))?;
    phases.push(phase(alloc, writes(alloc, 2 * writers + 2, n)?))?;
    phases.push(phase(alloc, closes(alloc, 2 * writers + blocks + 3, n)?))?;
    phases.push(phase(alloc, checks(alloc, 3 * writers + blocks + 4, n)?))?;
    Ok(())
}

fn phases(alloc: Global, n: u32) -> Result<PhaseList, NoMemory>
    requires some { 1 ≤ n }
    requires few { n ≤ 256 }
    ensures { IfOk result (λ phases. phases ≡ (generated n).phases) }
{
    let mut phases = PhaseList::new(alloc);
    if let Err(why) = add_phases(alloc, n, &mut phases) {
        drop(phases);
        return Err(why);
    }
    Ok(phases)
}

/// The script of 1 to 256 writers, each of a host of its own, that write one file side by side: 32 rounds of blocks of
/// 47008 bytes. The first of them then reads the file back, compares each block, and asks for its attributes.
///
/// Statements stand on lines of their own behind the declarations, and a line `phase` between each two of the four phases
/// counts. `NoMemory` leaves nothing behind.
pub fn generate(alloc: Global, n: u32) -> Result<Script, NoMemory>
    requires some { 1 ≤ n }
    requires few { n ≤ 256 }
    ensures script { IfOk result (λ script. script ≡ generated n) }
    ensures fits { IfOk result FitsScript }
{
    Ok(Script {
        actors: writers(alloc, n)?,
        phases: phases(alloc, n)?,
    })
}
