//! The parts of a phase: which of its statements are whose.
ghost use Rattle.std.specs.Prelude.{◌≡◌, ◌<◌, ◌≤◌, ◌++◌, ◌∷◌, [], All, IfOk, OnOk, length};
ghost use Rattle.thread_runs.specs.Parts.{statements_of, dealt, AreParts};

use plfs_types::NoMemory;
use script_lang::CompactStatement;
use std::alloc::Global;

/// The part of an actor in a phase: its statements, in their order.
#[derive(Drop)]
pub(crate) struct Part<'a> {
    pub(crate) statements: Vec<&'a CompactStatement>,
}

impl<'a> Part<'a> {
    /// One statement more.
    fn push(&mut self, statement: &'a CompactStatement) -> Result<(), NoMemory>
        ensures { OnOk result (statements_of self.new ≡ statements_of self.old ++ statement.now ∷ []) }
    {
        self.statements.push(statement)?;
        Ok(())
    }
}

/// The parts of all actors in a phase.
#[derive(Drop)]
pub(crate) struct Parts<'a> {
    /// The part of each actor. Where memory was refused there are none.
    pub(crate) each: Vec<Part<'a>>,
    /// The places of the actors that have statements, in their order.
    pub(crate) busy: Vec<usize>,
}

/// So many parts without statements, or more.
fn empty_parts<'a>(alloc: Global, count: usize) -> Result<Vec<Part<'a>>, NoMemory>
    ensures long { IfOk result (λ parts. count ≤ length parts.items) }
    ensures empty { IfOk result (λ parts. AreParts [] (dealt parts.items)) }
{
    let mut parts = Vec::new(alloc);
    while parts.len() < count {
        let part = Part {
            statements: Vec::new(alloc),
        };
        parts.push(part)?;
    }
    Ok(parts)
}

/// Gives each actor its own of these statements.
fn deal_out<'a>(parts: &mut [Part<'a>], statements: &'a [CompactStatement]) -> Result<(), NoMemory>
    requires there { All (λ statement. statement.actor < length parts.old) statements.now }
    requires empty { AreParts [] (dealt parts.old) }
    ensures { OnOk result (AreParts statements.entry.now (dealt parts.new)) }
{
    for statement in statements {
        let place = statement.actor() as usize;
        let part = &mut parts[place];
        part.push(statement)?;
    }
    Ok(())
}

/// The places of the parts that have statements.
fn busy_places(alloc: Global, parts: &[Part<'_>]) -> Result<Vec<usize>, NoMemory> {
    let mut busy = Vec::new(alloc);
    for place in 0..parts.len() {
        if !parts[place].statements.is_empty() {
            busy.push(place)?;
        }
    }
    Ok(busy)
}

fn try_deal<'a>(
    alloc: Global,
    count: usize,
    statements: &'a [CompactStatement],
) -> Result<Parts<'a>, NoMemory>
    requires { All (λ statement. statement.actor < count) statements.now }
    ensures { IfOk result (λ parts. AreParts statements.entry.now (dealt parts.each.items)) }
{
    let mut each = empty_parts(alloc, count)?;
    deal_out(each.as_mut_slice(), statements)?;
    let busy = busy_places(alloc, each.as_slice())?;
    Ok(Parts { each, busy })
}

/// The parts of so many actors, by one look at each statement.
pub(crate) fn deal<'a>(alloc: Global, count: usize, statements: &'a [CompactStatement]) -> Parts<'a>
    requires { All (λ statement. statement.actor < count) statements.now }
    ensures { AreParts statements.entry.now (dealt result.each.items) }
{
    match try_deal(alloc, count, statements) {
        Ok(parts) => parts,
        Err(NoMemory) => Parts {
            each: Vec::new(alloc),
            busy: Vec::new(alloc),
        },
    }
}
