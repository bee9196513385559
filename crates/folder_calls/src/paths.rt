//! Names as parts of a path, so that no name leads out of its folder.
ghost use Rattle.std.specs.Prelude.{◌≡◌, ◌↔◌, ◌∷◌, ◌++◌, IsTrue, IfOk, IfErr, IsOk, string_bytes};
ghost use Rattle.std.specs.Str.{IsUtf8};
ghost use Rattle.folder_calls.specs.Parts.{is_part_byte, IsNoItem, IsPart, IsRoomName};

use crate::failure::Failure;
use plfs_types::{LogicalName, Name};
use std::alloc::Global;
use std::str;

fn is_part_byte(byte: u8) -> bool
    ensures { result ≡ is_part_byte byte }
{
    byte != b'/' && byte != 0
}

// Whether the name is empty, "." or "..".
fn is_no_item(name: &[u8]) -> bool
    ensures { IsTrue result ↔ IsNoItem name.now }
{
    if name == b"".as_slice() {
        return true;
    }
    if name == b".".as_slice() {
        return true;
    }
    name == b"..".as_slice()
}

/// Whether the bytes can name an item of a folder.
pub fn is_part(name: &[u8]) -> bool
    ensures { IsTrue result ↔ IsPart name.now }
{
    if is_no_item(name) {
        return false;
    }
    name.iter().all(|byte| is_part_byte(*byte))
}

/// The name as a part of a path. It fails where it is no part, or is no text in UTF-8.
pub fn part(name: &Name) -> Result<&str, Failure>
    ensures text { IfOk result (λ text. (text.now ≡ name.now) × IsPart name.now) }
    ensures only { IsPart name.now → IsUtf8 name.now → IsOk result }
    ensures failed { IfErr result (λ failure. failure ≡ Failure.Failed) }
{
    if !is_part(name.bytes()) {
        return Err(Failure::Failed);
    }
    match str::from_utf8(name.bytes()) {
        Ok(text) => Ok(text),
        Err(_) => Err(Failure::Failed),
    }
}

/// Whether a folder of ROOT with this name is a room: it is `.plfs` or a logical name.
pub fn is_room_name(name: &[u8]) -> bool
    ensures { IsTrue result ↔ IsRoomName name.now }
{
    name == b".plfs".as_slice() || LogicalName::read(name).is_some()
}

/// The path of an item of a folder.
pub fn join(alloc: Global, folder: &str, item: &str) -> Result<String, Failure>
    ensures path { IfOk result (λ path. string_bytes path ≡ folder.now ++ 47 ∷ item.now) }
    ensures memory { IfErr result (λ failure. failure ≡ Failure.NoMemory) }
{
    let mut path = String::from_str(alloc, folder)?;
    path.push('/')?;
    path.push_str(item)?;
    Ok(path)
}
