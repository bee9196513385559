//! Why a check was broken off.
ghost use Rattle.std.specs.Prelude.{◌≡◌, IfOk, IfErr};
ghost use Rattle.store_api.specs.declared.tree.Tree.{Tree};
ghost use Rattle.store_laws.specs.Says.{AreRoomNames};
ghost use Rattle.shape_check.specs.Rightness.{IsNoComplaint};
ghost use Rattle.shape_check.specs.Seeing.{IsSeen, IsLookedAt, IsAny};
ghost use Rattle.shape_check.specs.Told.{TellsRoom};
ghost use Rattle.tree_check.specs.Halting.{Halts, finding_of_halt};

use plfs_types::{Name, NameList};
use shape_check::{Finding, find_room, rooms};
use store_api::Store;

/// Why a check was broken off. What was found before is right all the same.
#[derive(Clone, Copy, PartialEq, Eq)]
pub enum Halt {
    /// The store failed.
    Fault,
    /// Memory was refused.
    NoMemory,
    /// The store answered as none does that tells its tree.
    Untold,
}

/// Why it was, where nothing was found wrong.
fn halt_of(finding: Finding) -> Halt
    requires { IsNoComplaint finding }
    ensures { finding ≡ finding_of_halt result }
{
    match finding {
        Finding::Fault => Halt::Fault,
        Finding::NoMemory => Halt::NoMemory,
        Finding::Untold => Halt::Untold,
        // It can't be.
        Finding::Broken { .. } => Halt::Untold,
    }
}

/// The names of the rooms, in order.
pub fn room_names<S: Store>(store: &mut S) -> Result<NameList, Halt>
    ensures looked { IsLookedAt (S.stored store.old) (S.stored store.new) }
    ensures ok { IfOk result (λ names. (tree : Tree) → IsSeen (S.stored store.old) tree → AreRoomNames tree names) }
    ensures err { IfErr result (Halts IsAny (S.stored store.old) (S.stored store.new)) }
{
    match rooms(store) {
        Ok(names) => Ok(names),
        Err(finding) => Err(halt_of(finding)),
    }
}

/// The number of the room of this name, if one has it.
pub fn room_number<S: Store>(store: &mut S, name: Name) -> Result<Option<u64>, Halt>
    ensures looked { IsLookedAt (S.stored store.old) (S.stored store.new) }
    ensures ok { IfOk result (λ found. (tree : Tree) → IsSeen (S.stored store.old) tree → TellsRoom tree name found) }
    ensures err { IfErr result (Halts IsAny (S.stored store.old) (S.stored store.new)) }
{
    match find_room(store, name) {
        Ok(found) => Ok(found),
        Err(finding) => Err(halt_of(finding)),
    }
}
