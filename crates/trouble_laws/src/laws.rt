//! The law of the machines' troubles.
ghost use Rattle.std.specs.Prelude.{ℕ, List};
ghost use Rattle.writer_flow.specs.declared.handle.WriterHandle.{WriterHandle};
ghost use Rattle.writer_flow.specs.declared.handle.WriterOut.{WriterOut};
ghost use Rattle.writer_flow.specs.Opening.{open_program};
ghost use Rattle.writer_flow.specs.Writing.{write_program};
ghost use Rattle.writer_flow.specs.Syncing.{sync_program};
ghost use Rattle.writer_flow.specs.Closing.{close_program};
ghost use Rattle.attr_flow.specs.Asking.{attr_program};
ghost use Rattle.trunc_rename.specs.Renaming.{rename_program};
ghost use Rattle.trunc_rename.specs.Truncating.{truncate_program};
ghost use Rattle.torn_tail.specs.Recovering.{recover_program};
ghost use Rattle.flatten_core.specs.Flattening.{flatten_program};
ghost use Rattle.migrate_core.specs.Migrating.{migrate_program};
ghost use Rattle.trouble_laws.specs.Ends.{AlwaysEnds};
ghost use Rattle.trouble_laws.specs.Undamaged.{IsUndamaged};

/// A law: whoever runs one of these programs, in any lawful history from a sound state and whatever others call meanwhile, doesn't end with damage: that of an
/// open, a write, a sync or a close of a writer, of a truncate, a rename, a recovery, a flattening, a migration, and of the question what is told of a file.
pub fn a_statement_shows_no_damage()
    ensures open { (name : List ℕ) (host cap : ℕ) → AlwaysEnds IsUndamaged (open_program name host cap) }
    ensures write { (handle : WriterHandle) (at : ℕ) (bytes : List ℕ) → AlwaysEnds (λ (out : WriterOut). IsUndamaged out.result) (write_program handle at bytes) }
    ensures sync { (handle : WriterHandle) → AlwaysEnds (λ (out : WriterOut). IsUndamaged out.result) (sync_program handle) }
    ensures close { (handle : WriterHandle) → AlwaysEnds (λ (out : WriterOut). IsUndamaged out.result) (close_program handle) }
    ensures truncate { (name : List ℕ) (size : ℕ) → AlwaysEnds IsUndamaged (truncate_program name size) }
    ensures rename { (name to : List ℕ) → AlwaysEnds IsUndamaged (rename_program name to) }
    ensures recover { (name : List ℕ) → AlwaysEnds IsUndamaged (recover_program name) }
    ensures flatten { (name : List ℕ) → AlwaysEnds IsUndamaged (flatten_program name) }
    ensures migrate { (name : List ℕ) → AlwaysEnds IsUndamaged (migrate_program name) }
    ensures tell { (name : List ℕ) → AlwaysEnds IsUndamaged (attr_program name) }
{}
