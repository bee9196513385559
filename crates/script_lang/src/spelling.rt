//! Laws of the grammar: that statements, scripts and faults are told apart.
ghost use Rattle.script_lang.specs.Laws.{OneStatement, OneScript, OneFault, NeverBoth, AlwaysOne};

/// A law: no words are two statements.
pub fn statements_are_told_apart()
    ensures one { OneStatement }
{}

/// A law: bytes are one script or have one first fault, and never both.
pub fn scripts_are_told_apart()
    ensures one_script { OneScript }
    ensures one_fault { OneFault }
    ensures never_both { NeverBoth }
    ensures always_one { AlwaysOne }
{}
