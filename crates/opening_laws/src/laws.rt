//! The law of an opening.
ghost use Rattle.std.specs.Prelude.{◌≤◌, ℕ, List, Result};
ghost use Rattle.mount_model.specs.History.{Event};
ghost use Rattle.mount_model.specs.Paths.{Name};
ghost use Rattle.mount_sound.specs.Owed.{IsLawful};
ghost use Rattle.mount_model.specs.declared.stuck.Stuck.{Stuck};
ghost use Rattle.mount_model.specs.Running.{Runs};
ghost use Rattle.index_reader.specs.declared.opened.OpenReader.{OpenReader};
ghost use Rattle.reader_laws.specs.Moments.{Moment, IsSoundAt};
ghost use Rattle.opening_flow.specs.Opening.{opening_program};
ghost use Rattle.opening_laws.specs.Ending.{OpeningEnds};

/// A law: who runs the whole program of an opening has opened a reader in these events, where it ends well, whatever others call:
/// it has the file of a cut that lies between the caller's first call and its listing of truncates. Else the store's count of
/// faults rose meanwhile, or memory was wanted, or no container has that name.
pub fn an_opening_opens_a_reader()
    ensures { (caller workers : ℕ) (name : Name) (start : Moment) (events : List Event) (ended : Result OpenReader Stuck) → 1 ≤ workers
        → IsLawful start.state events → IsSoundAt start → Runs caller (opening_program name workers) events ended
        → OpeningEnds caller start events ended }
{}
