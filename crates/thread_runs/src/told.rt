//! The lines of one actor.
ghost use Rattle.std.specs.Prelude.{◌≡◌, ◌++◌, ◌∷◌, [], OnOk, IfNone};
ghost use Rattle.std.specs.Option.{option_to_list};

use plfs_types::NoMemory;
use script_lang::{CompactLine, Line};
use std::alloc::Global;
use std::collections::VecDeque;

/// The lines that an actor has told, and that are not yet put among those of the others.
#[derive(Drop)]
pub(crate) struct Told {
    alloc: Global,
    pub(crate) lines: VecDeque<CompactLine>,
}

impl Told {
    pub(crate) fn new(alloc: Global) -> Told
        ensures { result.lines.items ≡ [] }
    {
        Told {
            alloc,
            lines: VecDeque::new(alloc),
        }
    }

    pub(crate) fn push(&mut self, line: Line) -> Result<(), NoMemory>
        ensures { OnOk result (self.new.lines.items ≡ self.old.lines.items ++ line ∷ []) }
    {
        let line = CompactLine::new(self.alloc, line)?;
        self.lines.push_back(line)?;
        Ok(())
    }

    /// The first of them, which is taken out.
    pub(crate) fn pop(&mut self) -> Option<CompactLine>
        ensures taken { self.old.lines.items ≡ option_to_list result ++ self.new.lines.items }
        ensures none { IfNone result (self.old.lines.items ≡ []) }
    {
        self.lines.pop_front()
    }
}
