//! Which steps are refused, since a sync failed of what they sync.
ghost use Rattle.std.specs.Prelude.{◌≡◌};
ghost use Rattle.store_api.specs.Step.{step_of};
ghost use Rattle.store_folder.specs.Syncing.{under, synced_by, renamed_by, refusal};

use folder_calls::{Doubt, Doubts, FileKey, Item};
use plfs_types::Name;
use store_api::Step;

// The file, or the folder where the file has no name.
fn under(room: u64, folder: Name, file: Name) -> Item
    ensures { result ≡ under room folder file }
{
    Item::Under {
        key: FileKey { room, folder, file },
    }
}

/// What a step syncs.
pub fn synced_by(step: &Step<'_>) -> Item
    ensures { result ≡ synced_by (step_of step.now) }
{
    match *step {
        Step::MakeRoom { .. } | Step::RenameRoom { .. } => Item::Root,
        Step::MakeFolder { room, .. } | Step::RemoveFolder { room, .. } => {
            under(room, Name::empty(), Name::empty())
        }
        Step::Create { room, folder, .. }
        | Step::Remove { room, folder, .. }
        | Step::Replace { room, folder, .. } => under(room, folder, Name::empty()),
        Step::Sync { room, folder, file } => under(room, folder, file),
        _ => Item::Nothing,
    }
}

// The file that a step gives another name.
fn renamed_by(step: &Step<'_>) -> Item
    ensures { result ≡ renamed_by (step_of step.now) }
{
    match *step {
        Step::Replace {
            room,
            folder,
            from,
            ..
        } => under(room, folder, from),
        _ => Item::Nothing,
    }
}

// Why a step that syncs or renames is refused, where it is.
#[inline(never)]
fn refusal_of_sync(doubts: &Doubts, step: &Step<'_>) -> Option<Doubt>
    ensures { result ≡ refusal doubts.now (step_of step.now) }
{
    doubts.of(&synced_by(step)).or(doubts.of(&renamed_by(step)))
}

/// Why the step is refused, where it is. Those that are made most sync nothing, and are told first.
pub fn refusal(doubts: &Doubts, step: &Step<'_>) -> Option<Doubt>
    ensures { result ≡ refusal doubts.now (step_of step.now) }
{
    match *step {
        Step::Length { .. } | Step::ReadAt { .. } | Step::WriteAt { .. } | Step::Cut { .. } => None,
        _ => refusal_of_sync(doubts, step),
    }
}
