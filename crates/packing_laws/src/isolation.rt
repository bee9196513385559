//! The law of other units.
ghost use Rattle.std.specs.Prelude.{◌≡◌, ℕ, List, Option, Ok};
ghost use Rattle.index_entry.specs.Records.{IsBytes};
ghost use Rattle.plain_file.specs.declared.pieces.Piece.{Piece};
ghost use Rattle.mount_model.specs.Paths.{Name};
ghost use Rattle.mount_model.specs.State.{State};
ghost use Rattle.reader_laws.specs.Moments.{IsSoundAt, Moment};
ghost use Rattle.lone_flow.specs.Unpacking.{Unpacks};
ghost use Rattle.packing_laws.specs.Told.{IsContent};
ghost use Rattle.packing_laws.specs.Isolated.{HaveSameUnits, SawContent, bytes_seen};

use crate::laws::who_unpacks_sees_one_file;
use pack_laws::the_units_of_a_region_stand_apart;
use unit_format::others_change_nothing;

/// A law: two files that hold the same units of a name, with the same keys, give the same answer for it, whatever other units they
/// have. Who unpacks sees such a file.
pub fn other_units_change_no_answer()
    ensures { (name : Name) (p q : List Piece) (one other : List ℕ) (from end since last : State) (told found : Option (List ℕ)) → HaveSameUnits name p one q other
        → IsContent p one name from end (Ok told) → IsContent q other name since last (Ok found) → told ≡ found }
{
    the_units_of_a_region_stand_apart();
    others_change_nothing();
}

/// A law: two callers, each by itself, unpack a file of one name, of the same container or not. Each sees the file of a cut. Where
/// these hold the same units of the name, with the same keys, both have the same answer, whatever other units there are.
pub fn other_units_change_no_run()
    ensures { (name another file : Name) (start other : Moment) (told found : Option (List ℕ)) (end last : State) → IsSoundAt start → IsSoundAt other
        → Unpacks name file start.state (Ok told) end → Unpacks another file other.state (Ok found) last
        → (a : SawContent file start told end) × (b : SawContent file other found last)
        × (IsBytes (bytes_seen start a) → IsBytes (bytes_seen other b) → HaveSameUnits file a.reader.pieces (bytes_seen start a) b.reader.pieces (bytes_seen other b) → told ≡ found) }
{
    who_unpacks_sees_one_file();
    the_units_of_a_region_stand_apart();
    others_change_nothing();
}
