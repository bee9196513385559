//! A tree of which all is kept.
ghost use Rattle.std.specs.Prelude.{◌≡◌};
ghost use Rattle.store_api.specs.Kept.{synced};
ghost use Rattle.store_api.specs.AllKept.{room_kept, all_kept};

use store_api::{File, Room, Tree};

fn keep_file(file: &mut File)
    ensures { file.new ≡ synced file.old }
{
    file.kept = file.bytes.as_slice().len() as u64;
}

fn keep_room(room: &mut Room)
    ensures { room.new ≡ room_kept room.old }
{
    for place in 0..room.files.as_slice().len() {
        if let Some(file) = room.files.get_mut(place) {
            keep_file(file);
        }
    }
}

/// Marks all bytes of each file as kept.
pub(crate) fn keep_all(tree: &mut Tree)
    ensures { tree.new ≡ all_kept tree.old }
{
    for number in 0..tree.rooms.as_slice().len() {
        if let Some(room) = tree.rooms.get_mut(number) {
            keep_room(room);
        }
    }
}
