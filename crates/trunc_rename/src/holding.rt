//! A container that is held.
ghost use Rattle.std.specs.Prelude.{◌≡◌};
ghost use Rattle.trunc_rename.specs.Holding.{holder_in as holder_of, released as released_of};

use mount_model::{Reply, Stuck, failure};

/// The number of the hold.
pub(crate) fn holder_in(reply: &Reply) -> Option<u64>
    ensures { result ≡ holder_of reply.now }
{
    match reply {
        Reply::Holding { holder } => Some(*holder),
        _ => None,
    }
}

/// What comes of it all once the container was to be let go: the first trouble.
pub(crate) fn released<T: Drop>(outcome: Result<T, Stuck>, reply: &Reply) -> Result<T, Stuck>
    ensures { result ≡ released_of outcome reply.now }
{
    match outcome {
        Err(why) => Err(why),
        Ok(result) => match reply {
            Reply::Done => Ok(result),
            _ => Err(failure(reply)),
        },
    }
}
