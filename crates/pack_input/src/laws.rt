//! Laws of the grammar: files and faults are told apart.
ghost use Rattle.pack_input.specs.Laws.{NeverBoth, OneFault, OneInput};

/// A law: bytes are the input of one list of files at most, have one first fault at most, and never both.
pub fn inputs_are_told_apart()
    ensures one_input { OneInput }
    ensures one_fault { OneFault }
    ensures never_both { NeverBoth }
{}
