//! That the premises of `reader_opens` and `reader_answers` can be met, and packed indices gathered.
ghost use Rattle.std.specs.Prelude.{◌≤◌, ℕ, List, length, drop, true};
ghost use Rattle.plfs_types.specs.declared.entries.Entry.{Entry};
ghost use Rattle.index_pack.specs.Spelling.{Packs};
ghost use Rattle.mount_model.specs.History.{Event};
ghost use Rattle.reader_laws.specs.Moments.{Moment, Dropping, IsNamed};
ghost use Rattle.reader_laws.specs.Seen.{Asked};
ghost use Rattle.reader_laws.specs.Gathering.{Gathered, Gathers};
ghost use Rattle.reader_laws.specs.Example.{IsBesideTornFlush};

/// A law: there is a legal history, from a mount over an empty store on, of two writers and a reader
/// that opens while the second writer's flush is torn, has the first writer's entry alone, and reads
/// it once the second flush was tried again.
pub fn a_reader_opens_beside_a_torn_flush()
    ensures { (start : Moment) × (gathering : List Event) × (listing : Event) × (later : List Event) × (cut : List Gathered) × IsBesideTornFlush start gathering listing later cut }
{}

/// A law: each packed index can be gathered, whatever a flattened index covers of its entries.
pub fn a_packed_index_can_be_gathered()
    ensures { (d : Dropping) (bytes : List ℕ) (entries : List Entry) (covered : ℕ) → IsNamed d → Packs bytes entries → covered ≤ length entries
        → (asked : List Asked) × Gathers (record { dropping = d; packed = true; covered = covered; count = length entries; tail = drop covered entries }) asked }
{}
