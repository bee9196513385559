//! The law of faults.
ghost use Rattle.std.specs.Prelude.{ℕ, List, Option, Result};
ghost use Rattle.plfs_types.specs.Counts.{HasRisen};
ghost use Rattle.mount_model.specs.Paths.{Name};
ghost use Rattle.mount_model.specs.State.{State};
ghost use Rattle.pack_files.specs.declared.scan.ScanStuck.{ScanStuck};
ghost use Rattle.pack_input.specs.declared.files.NamedFile.{NamedFile};
ghost use Rattle.lone_flow.specs.Naming.{Names};
ghost use Rattle.lone_flow.specs.Unpacking.{Unpacks};
ghost use Rattle.lone_flow.specs.declared.packing.Packed.{Packed};
ghost use Rattle.lone_flow.specs.Packing.{Packs};
ghost use Rattle.packing_laws.specs.Troubles.{TellsFault};

/// A law: unpacking, naming and packing by a caller by itself end in a fault only where the store's count of faults rose meanwhile,
/// whatever the store tells and whatever the container has.
pub fn a_fault_is_the_stores()
    ensures unpack { (name file : Name) (start : State) (told : Result (Option (List ℕ)) ScanStuck) (end : State) → Unpacks name file start told end → TellsFault told → HasRisen start.store.faults end.store.faults }
    ensures names { (name : Name) (start : State) (told : Result (List Name) ScanStuck) (end : State) → Names name start told end → TellsFault told → HasRisen start.store.faults end.store.faults }
    ensures pack { (name : Name) (region : ℕ) (files : List NamedFile) (start : State) (told : Result Packed ScanStuck) (end : State) → Packs name region files start told end → TellsFault told → HasRisen start.store.faults end.store.faults }
{}
