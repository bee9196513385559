//! The law of a look at a file.
ghost use Rattle.std.specs.Prelude.{ℕ, List, Ok};
ghost use Rattle.mount_model.specs.Paths.{Name};
ghost use Rattle.mount_model.specs.History.{Event};
ghost use Rattle.mount_sound.specs.Owed.{IsLawful};
ghost use Rattle.mount_model.specs.Running.{Runs};
ghost use Rattle.attr_flow.specs.declared.attr.Attr.{Attr};
ghost use Rattle.attr_flow.specs.declared.attr_flow.AttrOut.TheVariants.{Cached};
ghost use Rattle.attr_flow.specs.Asking.{attr_program};
ghost use Rattle.reader_laws.specs.Moments.{Moment, IsSoundAt};
ghost use Rattle.look_laws.specs.Looking.{HasToldOf};

/// A law: who looks at a file and tells of it by the names of its metadata, since nobody had it open, tells of one plain file,
/// as a reader would have opened it between the call that found the container and the one that listed its truncates.
pub fn a_look_tells_of_one_file()
    ensures { (caller : ℕ) (start : Moment) (events : List Event) (name : Name) (attr : Attr) → IsLawful start.state events → IsSoundAt start → Runs caller (attr_program name) events (Ok (Cached attr)) → HasToldOf caller start events name attr }
{}
