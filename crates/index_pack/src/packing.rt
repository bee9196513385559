//! Entries as a packed index.
ghost use Rattle.std.specs.Prelude.{◌≡◌, ◌++◌, [], ◌∷◌, IfOk, OnOk};
ghost use Rattle.std.specs.List.{AllByRecursion, flat_map};
ghost use Rattle.index_pack.specs.Runs.{AreMaximal, entries_of};
ghost use Rattle.index_pack.specs.Spelling.{run_spelling, FitsRun, Packs};
ghost use Rattle.index_pack.specs.Valid.{CanBePacked};

use crate::runs::{Run, could_go_on, longer, single};
use crate::trouble::LETTERS;
use index_entry::push_number;
use plfs_types::{Bytes, Entry, NoMemory};
use std::alloc::Global;

/// The packed index of a writer's entries, 1 to `MAX_PACKED` of them: the one whose runs are as long as they can be.
///
/// It takes time and memory linear in the entries.
pub fn pack(alloc: Global, entries: &[Entry]) -> Result<Bytes, NoMemory>
    requires { CanBePacked entries.now }
    ensures { IfOk result (λ bytes. Packs bytes entries.now) }
{
    let runs = runs_of(alloc, entries)?;
    let mut bytes = Vec::new(alloc);
    bytes.extend_from_slice(&LETTERS)?;
    push_number(&mut bytes, entries.len() as u64)?;
    push_number(&mut bytes, runs.len() as u64)?;
    push_runs(&mut bytes, runs.as_slice())?;
    Ok(Bytes::from_vec(bytes))
}

/// The longest runs of the entries.
fn runs_of(alloc: Global, entries: &[Entry]) -> Result<Vec<Run>, NoMemory>
    requires { CanBePacked entries.now }
    ensures maximal { IfOk result (λ runs. AreMaximal runs.items) }
    ensures entries { IfOk result (λ runs. entries_of runs.items ≡ entries.now) }
{
    let mut runs = Vec::new(alloc);
    let mut last = single(&entries[0]);
    for index in 1..entries.len() {
        last = with_entry(&mut runs, last, &entries[index])?;
    }
    runs.push(last)?;
    Ok(runs)
}

/// The last run, once the entry is taken in: the one that was last goes on with it where it can, else it is pushed, and
/// the entry begins one.
fn with_entry(runs: &mut Vec<Run>, last: Run, entry: &Entry) -> Result<Run, NoMemory>
    requires maximal { AreMaximal (runs.old.items ++ last ∷ []) }
    requires follows { CanBePacked (entries_of (runs.old.items ++ last ∷ []) ++ entry.now ∷ []) }
    ensures maximal { IfOk result (λ next. AreMaximal (runs.new.items ++ next ∷ [])) }
    ensures entries { IfOk result (λ next. entries_of (runs.new.items ++ next ∷ []) ≡ entries_of (runs.old.items ++ last ∷ []) ++ entry.now ∷ []) }
{
    if could_go_on(&last, *entry) {
        return Ok(longer(&last, entry));
    }
    runs.push(last)?;
    Ok(single(entry))
}

fn push_runs(bytes: &mut Vec<u8>, runs: &[Run]) -> Result<(), NoMemory>
    ensures spelled { OnOk result (bytes.new.items ≡ bytes.old.items ++ flat_map run_spelling runs.now) }
    ensures fit { OnOk result (AllByRecursion FitsRun runs.now) }
{
    for run in runs {
        push_run(bytes, run)?;
    }
    Ok(())
}

fn push_run(bytes: &mut Vec<u8>, run: &Run) -> Result<(), NoMemory>
    ensures spelled { OnOk result (bytes.new.items ≡ bytes.old.items ++ run_spelling run.now) }
    ensures fits { OnOk result (FitsRun run.now) }
{
    push_number(bytes, run.start)?;
    push_number(bytes, run.stride)?;
    push_number(bytes, run.len)?;
    push_number(bytes, run.count)?;
    push_number(bytes, run.physical)?;
    push_number(bytes, run.stamp)?;
    push_number(bytes, run.step)?;
    push_number(bytes, run.writer)?;
    Ok(())
}
