//! What a call answers where it has no line of its own for what its act told.
ghost use Rattle.std.specs.Prelude.{◌≡◌, []};
ghost use Rattle.mount_model.specs.Making.{otherwise as otherwise_of};

use mount_model::{Refusal, Reply};
use plfs_types::{Name, Path};
use store_api::{Answer, Trouble};

/// The reply to what an act at this path told, where the call has no line of its own for it.
pub fn otherwise(at: &Path, told: Result<Answer, Trouble>) -> Reply
    ensures { result ≡ otherwise_of at.now.folder at.now.file told }
{
    let answer = match told {
        Ok(answer) => answer,
        Err(Trouble::Fault) => return Reply::Fault,
        Err(Trouble::NoMemory) => return Reply::NoMemory,
    };
    match answer {
        Answer::NoRoom => Reply::Refused(Refusal::NoRoom),
        Answer::NoFolder => Reply::Damaged {
            folder: at.folder,
            file: Name::empty(),
        },
        _ => Reply::Damaged {
            folder: at.folder,
            file: at.file,
        },
    }
}

/// No folder and no file.
pub fn nowhere() -> Path
    ensures { result ≡ record { folder = []; file = [] } }
{
    Path {
        folder: Name::empty(),
        file: Name::empty(),
    }
}
