//! The next call of an opening's listing.
ghost use Rattle.std.specs.Prelude.{◌≡◌, Some, IfOk, IfSome};
ghost use Rattle.mount_model.specs.Standing.{next_of, rest_of};
ghost use Rattle.mount_model.specs.Step.{OwedBy};
ghost use Rattle.index_reader.specs.OpenStages.{open_calls_left, open_standing};

use crate::opening::OpenRead;
use mount_model::{Call, Flow};
use plfs_types::NoMemory;

/// The next call of a listing, and where that stands once it was given.
pub fn look_on(scan: OpenRead) -> Result<(OpenRead, Option<Call>), NoMemory>
    ensures call { IfOk result (λ given. given.1 ≡ next_of (open_standing scan)) }
    ensures owed { IfOk result (λ given. IfSome given.1 OwedBy) }
    ensures rest { IfOk result (λ given. rest_of (open_standing given.0) ≡ rest_of (open_standing scan)) }
    ensures again { IfOk result (λ given. IfSome (next_of (open_standing given.0)) (λ call. next_of (open_standing scan) ≡ Some call)) }
    ensures left { IfOk result (λ given. open_calls_left given.0 ≡ open_calls_left scan) }
{
    let mut scan = scan;
    let asked = match scan.next() {
        Ok(asked) => asked,
        Err(why) => {
            drop(scan);
            return Err(why);
        }
    };
    Ok((scan, asked))
}
