//! A loss of power.
ghost use Rattle.std.specs.Prelude.{◌≡◌, find};
ghost use Rattle.store_memory.specs.Lost.{left_of, is_for, extra_for, lost_file, lost_room, lost};

use plfs_types::{Path, Sequence};
use store_api::{File, Room, Tree};

/// Up to `extra` bytes more than the kept ones are left of a file.
#[derive(Clone, Copy)]
pub struct Keep {
    pub room: u64,
    pub path: Path,
    pub extra: u64,
}

/// A list of such files, in any order. Of two for one file the first counts.
pub type KeepList = Sequence<Keep>;

// The first of them that is for this file.
fn keep_for(keeps: &[Keep], number: u64, path: &Path) -> Option<Keep>
    ensures { result ≡ find (is_for number path.now) keeps.now }
{
    keeps.iter().copied().find(|keep| keep.room == number
        && keep.path.folder == path.folder
        && keep.path.file == path.file)
}

// How many bytes more than the kept ones are left of this file.
fn extra_for(keeps: &[Keep], number: u64, path: &Path) -> u64
    ensures { result ≡ extra_for keeps.now number path.now }
{
    match keep_for(keeps, number, path) {
        None => 0,
        Some(keep) => keep.extra,
    }
}

// Cuts the file to what is left of it.
fn lose_file(file: &mut File, extra: u64)
    ensures { file.new ≡ left_of extra file.old }
{
    let len = file.bytes.as_slice().len() as u64;
    let left = file.kept.saturating_add(extra).min(len);
    file.bytes.truncate(left as usize);
    file.kept = left;
}

fn lose_room(keeps: &[Keep], number: u64, room: &mut Room)
    ensures { room.new ≡ lost_room keeps.now number room.old }
{
    for place in 0..room.files.as_slice().len() {
        if let Some(file) = room.files.get_mut(place) {
            let extra = extra_for(keeps, number, &file.path);
            lose_file(file, extra);
        }
    }
}

/// Leaves of each file its kept bytes, and more of those for which that is wanted.
pub(crate) fn lose(keeps: &[Keep], tree: &mut Tree)
    ensures { tree.new ≡ lost keeps.now tree.old }
{
    for number in 0..tree.rooms.as_slice().len() {
        if let Some(room) = tree.rooms.get_mut(number) {
            lose_room(keeps, number as u64, room);
        }
    }
}
