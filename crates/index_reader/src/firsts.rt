//! One cover of each writer.
ghost use Rattle.std.specs.Prelude.{◌≡◌, ◌++◌, List, [], ◌∷◌, map, IfOk, OnOk};
ghost use Rattle.plfs_types.specs.declared.entries.Cover.{Cover as Covered};
ghost use Rattle.index_reader.specs.Firsts.{HasFirsts};
ghost use Rattle.index_reader.specs.Gathered.{AreFirstOf};

use plfs_types::{Cover, CoverList, NoMemory};
use std::alloc::Global;
use std::collections::BTreeMap;

/// Takes in the cover of a writer that has none.
fn keep_first(firsts: &mut BTreeMap<u64, Cover>, cover: &Cover) -> Result<(), NoMemory>
    ensures { OnOk result ((told : List Covered) → HasFirsts told firsts.old → HasFirsts (told ++ cover.now ∷ []) firsts.new) }
{
    if firsts.contains_key(&cover.writer) {
        return Ok(());
    }
    firsts.insert(cover.writer, *cover)?;
    Ok(())
}

/// The first cover of each writer, by its id.
fn by_writer(alloc: Global, told: &[Cover]) -> Result<BTreeMap<u64, Cover>, NoMemory>
    ensures { IfOk result (HasFirsts told.now) }
{
    let mut firsts = BTreeMap::new(alloc);
    for cover in told {
        keep_first(&mut firsts, cover)?;
    }
    Ok(firsts)
}

/// The covers in order.
fn in_order(alloc: Global, firsts: &BTreeMap<u64, Cover>) -> Result<CoverList, NoMemory>
    ensures { IfOk result (λ covers. covers ≡ map (λ e. e.1) firsts.now.entries) }
{
    let mut covers = CoverList::new(alloc);
    for (_, cover) in firsts.iter() {
        covers.push(*cover)?;
    }
    Ok(covers)
}

/// One cover of each writer, by ascending writer: the first that is told of it.
pub(crate) fn first_covers(alloc: Global, told: &[Cover]) -> Result<CoverList, NoMemory>
    ensures { IfOk result (AreFirstOf told.now) }
{
    let firsts = by_writer(alloc, told)?;
    let covers = in_order(alloc, &firsts)?;
    Ok(covers)
}
