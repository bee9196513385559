//! The contract of a store.
ghost use Rattle.store_api.specs.Step.{step_of};
ghost use Rattle.store_api.specs.Acts.{Stored, Acts};

use crate::step::{Answer, Step};
use std::error::Error;
use std::fmt;

/// Why an act gave no answer.
#[derive(Clone, Copy, Debug, PartialEq, Eq)]
pub enum Trouble {
    /// The store failed. The step was made, or not, or a write in part.
    Fault,
    /// Memory was refused. Nothing was done.
    NoMemory,
}

impl fmt::Display for Trouble {
    ghost use Rattle.std.specs.Prelude.{Some};
    ghost use Rattle.store_api.specs.Messages.{trouble_text};

    ghost output = { λ trouble. Some (trouble_text trouble) };

    fn fmt<W: fmt::Write>(&self, f: &mut fmt::Formatter<W>) -> fmt::Result {
        f.write_str(match self {
            Trouble::Fault => "the store failed",
            Trouble::NoMemory => "memory was refused",
        })
    }
}

impl Error for Trouble {}

/// A backing store: rooms with folders and files, changed one step at a time.
pub trait Store {
    /// What it holds, where it tells; its count of acts; and its count of faults, which never falls.
    ghost stored: { Self → Stored };

    /// Makes one step, and answers it.
    ///
    /// `Fault` comes only where the count of faults rose: the step was then made, or not, or a write in part.
    /// After `NoMemory` nothing was done.
    fn act(&mut self, step: &Step<'_>) -> Result<Answer, Trouble>
        ensures { Acts (step_of step.now) (stored self.old) (stored self.new) result };
}
