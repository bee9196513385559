//! The folders of a container.
ghost use Rattle.std.specs.Prelude.{◌≡◌, ◌⊎◌, ◌↔◌, ◌<◌, ℕ, [], IsTrue};
ghost use Rattle.container_layout.specs.Paths.{hostdir_of};
ghost use Rattle.mount_sound.specs.Container.{IsContainerFolder};
ghost use Rattle.shape_check.specs.Files.{IsHostdir};

use container_layout::{flats, hostdir, metadata, openhosts, truncs};
use plfs_types::Name;

/// How many folders of droppings a container may have.
const HOSTDIRS: u32 = 32;

/// Whether a container may have the folder, which may be its top.
pub(crate) fn is_container_folder(folder: Name) -> bool
    ensures { IsTrue result ↔ IsContainerFolder folder }
{
    folder == Name::empty()
        || folder == openhosts()
        || folder == metadata()
        || folder == truncs()
        || folder == flats()
        || is_hostdir(folder)
}

/// Whether it is one of droppings.
#[tactic(auto, using(crate::proofs::FolderLemmas::none_below, crate::proofs::FolderLemmas::not_hostdir))]
fn is_hostdir(folder: Name) -> bool
    ensures { IsTrue result ↔ IsHostdir folder }
{
    let mut host = 0;
    while host < HOSTDIRS {
        if folder == hostdir(host) {
            return true;
        }
        host += 1;
    }
    false
}
