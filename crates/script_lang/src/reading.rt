//! Reads scripts.
ghost use Rattle.std.specs.Prelude.{◌≡◌, ◌≤◌, ◌^◌, length, Ok, Err, IfOk, IfErr};
ghost use Rattle.script_lang.specs.Drafts.{FitsDraft, empty_draft};
ghost use Rattle.script_lang.specs.Faults.{Fault, HasFault};
ghost use Rattle.script_lang.specs.Grammar.{IsScript};
ghost use Rattle.script_lang.specs.Ranges.{FitsScript};
ghost use Rattle.script_lang.specs.Scripts.{AnswersAsRead, lines_draft, script_of, trouble_at};
ghost use Rattle.script_lang.specs.Told.{IsScriptTrouble, IsAnswered};
ghost use Rattle.script_lang.specs.Words.{lines_of};
ghost use Rattle.script_lang.specs.declared.script.Script.{Script};

use crate::draft::Draft;
use crate::flaw::Flaw;
use crate::script::Script;
use crate::trouble::{Kind, ScriptTrouble};
use crate::words::cut;
use plfs_types::MAX_SCRIPT;
use std::alloc::Global;

// The flaw of the line of this number.
fn trouble(line: u64, flaw: Flaw) -> ScriptTrouble
    ensures { result ≡ trouble_at line flaw }
{
    match flaw {
        Flaw::Kind(kind) => ScriptTrouble::Fault { line, kind },
        Flaw::NoMemory => ScriptTrouble::NoMemory,
    }
}

// What all lines make of a script.
fn read_lines(alloc: Global, bytes: &[u8]) -> Result<Draft, ScriptTrouble>
    requires { length bytes.now ≤ 2 ^ 20 }
    ensures draft { AnswersAsRead result (lines_draft 1 (lines_of bytes.now) empty_draft) }
    ensures fits { IfOk result FitsDraft }
{
    let mut draft = Draft::new(alloc);
    let mut number = 1;
    let mut rest = Some(bytes);
    while let Some(lines) = rest {
        let (line, later) = cut(lines, b'\n');
        match draft.line(alloc, number, line) {
            Ok(()) => {}
            Err(flaw) => {
                drop(draft);
                return Err(trouble(number, flaw));
            }
        }
        number += 1;
        rest = later;
    }
    Ok(draft)
}

// The script of these bytes, read step by step.
fn read_script(alloc: Global, bytes: &[u8]) -> Result<Script, ScriptTrouble>
    ensures script { AnswersAsRead result (script_of bytes.now) }
    ensures fits { IfOk result FitsScript }
{
    if bytes.len() > MAX_SCRIPT {
        return Err(ScriptTrouble::Fault {
            line: 0,
            kind: Kind::Long,
        });
    }
    let draft = read_lines(alloc, bytes)?;
    Ok(draft.finish(alloc)?)
}

impl Script {
    /// The script that these bytes are, or the first fault by its line and then by the order of kinds.
    ///
    /// Takes time linear in the bytes.
    pub fn read(alloc: Global, bytes: &[u8]) -> Result<Script, ScriptTrouble>
        ensures script { IfOk result (IsScript bytes.now) }
        ensures fault { IfErr result (IsScriptTrouble bytes.now) }
        // Each script is read, and each first fault is found, unless memory is refused.
        ensures every_script { (script : Script) → IsScript bytes.now script → IsAnswered result (Ok script) }
        ensures every_fault { (fault : Fault) → HasFault bytes.now fault → IsAnswered result (Err (ScriptTrouble.Fault fault.line fault.kind)) }
        ensures fits { IfOk result FitsScript }
    {
        read_script(alloc, bytes)
    }
}
