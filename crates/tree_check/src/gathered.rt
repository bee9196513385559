//! What is complained of, gathered.
ghost use Rattle.std.specs.Prelude.{◌≡◌, ◌⊎◌, Err, [], IfOk, IfErr, OnOk};
ghost use Rattle.shape_check.specs.declared.finding.Finding.TheVariants.{NoMemory as NoMemoryLeft};
ghost use Rattle.shape_check.specs.Rightness.{IsNoComplaint};
ghost use Rattle.tree_check.specs.Complaining.{HasNoted, IsFirstOf, IsOneFound};
ghost use Rattle.tree_check.specs.Halting.{IsHaltOf};

use crate::halting::Halt;
use plfs_types::Sequence;
use shape_check::{Complaint, Finding};
use std::alloc::Global;

/// A list of complaints.
pub type ComplaintList = Sequence<Complaint>;

/// Takes down what was found wrong. Where the check was broken off, it answers why.
#[tactic(auto, using(shape_check::proofs::Facts::memory_unbroken))]
pub(crate) fn note(told: Result<(), Finding>, found: &mut ComplaintList) -> Result<(), Finding>
    ensures ok { OnOk result (HasNoted told found.old found.new) }
    ensures err { IfErr result (λ finding. (finding ≡ NoMemoryLeft) ⊎ (told ≡ Err finding)) }
    ensures unbroken { IfErr result IsNoComplaint }
{
    let Err(finding) = told else {
        return Ok(());
    };
    match finding {
        Finding::Broken { complaint } => {
            found.push(complaint)?;
            Ok(())
        }
        Finding::Fault => Err(Finding::Fault),
        Finding::NoMemory => Err(Finding::NoMemory),
        Finding::Untold => Err(Finding::Untold),
    }
}

/// The first of the complaints is found wrong, if there is one.
pub(crate) fn first_of(found: &[Complaint]) -> Result<(), Finding>
    ensures ok { OnOk result (found.now ≡ []) }
    ensures err { IfErr result (IsFirstOf found.now) }
{
    match found.first() {
        Some(complaint) => Err(Finding::Broken {
            complaint: *complaint,
        }),
        None => Ok(()),
    }
}

/// A list of what was found wrong, where the check wasn't broken off for another reason.
pub(crate) fn one_of(alloc: Global, finding: Finding) -> Result<ComplaintList, Halt>
    ensures ok { IfOk result (IsOneFound finding) }
    ensures err { IfErr result (IsHaltOf finding) }
{
    match finding {
        Finding::Broken { complaint } => {
            let mut found = ComplaintList::new(alloc);
            if found.push(complaint).is_err() {
                return Err(Halt::NoMemory);
            }
            Ok(found)
        }
        Finding::Fault => Err(Halt::Fault),
        Finding::NoMemory => Err(Halt::NoMemory),
        Finding::Untold => Err(Halt::Untold),
    }
}
