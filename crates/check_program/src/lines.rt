//! The lines that tell what is complained of.
ghost use Rattle.std.specs.Prelude.{◌≡◌, ◌<◌, ◌++◌, IfOk, OnOk};
ghost use Rattle.report_text.specs.Items.{place_text};
ghost use Rattle.shape_check.specs.Rightness.{room_of};
ghost use Rattle.check_program.specs.Lines.{complaint_line, complaint_lines, item_word, kind_word as kind_word_of, line_head, line_tail, name_word, place_word, unreadable_line as unreadable_text};

use plfs_types::{Name, NoMemory, Path};
use program_ends::push_number;
use report_text::escape;
use std::alloc::Global;
use store_api::marks_name;
use tree_check::Complaint;

fn kind_word(complaint: &Complaint) -> &'static [u8]
    ensures { result.now ≡ kind_word_of complaint.now }
{
    match complaint {
        Complaint::RoomName { .. } => b"room-name",
        Complaint::NoFolder { .. } => b"no-folder",
        Complaint::NoAccess { .. } => b"no-access",
        Complaint::ForeignFolder { .. } => b"foreign-folder",
        Complaint::Foreign { .. } => b"foreign",
        Complaint::NoMark { .. } => b"no-mark",
        Complaint::Filled { .. } => b"filled",
        Complaint::Unmarked { .. } => b"unmarked",
        Complaint::TwoHosts { .. } => b"two-hosts",
        Complaint::Entry { .. } => b"entry",
        Complaint::LongLog { .. } => b"long-log",
        Complaint::Unaccounted { .. } => b"unaccounted",
        Complaint::Untrue { .. } => b"untrue",
        Complaint::Unsettled { .. } => b"unsettled",
        Complaint::Between { .. } => b"between",
        Complaint::TwoTruncates { .. } => b"two-truncates",
        Complaint::WrongIndex { .. } => b"wrong-index",
    }
}

// The room that it is of.
fn room_of(complaint: &Complaint) -> Name
    ensures { result ≡ room_of complaint.now }
{
    match *complaint {
        Complaint::RoomName { room } => room,
        Complaint::NoFolder { room, .. } => room,
        Complaint::NoAccess { room } => room,
        Complaint::ForeignFolder { room, .. } => room,
        Complaint::Foreign { room, .. } => room,
        Complaint::NoMark { .. } => marks_name(),
        Complaint::Filled { room, .. } => room,
        Complaint::Unmarked { room, .. } => room,
        Complaint::TwoHosts { room, .. } => room,
        Complaint::Entry { room, .. } => room,
        Complaint::LongLog { room, .. } => room,
        Complaint::Unaccounted { room, .. } => room,
        Complaint::Untrue { room, .. } => room,
        Complaint::Unsettled { room, .. } => room,
        Complaint::Between { room, .. } => room,
        Complaint::TwoTruncates { room, .. } => room,
        Complaint::WrongIndex { room, .. } => room,
    }
}

// A name as one word.
fn push_name(text: &mut Vec<u8>, name: &[u8]) -> Result<(), NoMemory>
    ensures { OnOk result (text.new.items ≡ text.old.items ++ name_word name.now) }
{
    if name.is_empty() {
        text.push(b'-')?;
        return Ok(());
    }
    escape(text, name)
}

fn push_folder(text: &mut Vec<u8>, folder: Name) -> Result<(), NoMemory>
    ensures { OnOk result (text.new.items ≡ text.old.items ++ name_word folder) }
{
    push_name(text, folder.bytes())
}

fn push_place_of(text: &mut Vec<u8>, folder: &[u8], file: &[u8]) -> Result<(), NoMemory>
    ensures { OnOk result (text.new.items ≡ text.old.items ++ place_text folder.now file.now) }
{
    if !folder.is_empty() {
        escape(text, folder)?;
        text.push(b'/')?;
    }
    escape(text, file)
}

fn push_path(text: &mut Vec<u8>, path: Path) -> Result<(), NoMemory>
    ensures { OnOk result (text.new.items ≡ text.old.items ++ place_text path.folder path.file) }
{
    push_place_of(text, path.folder.bytes(), path.file.bytes())
}

fn push_word(text: &mut Vec<u8>, word: &[u8]) -> Result<(), NoMemory>
    ensures { OnOk result (text.new.items ≡ text.old.items ++ word.now) }
{
    text.extend_from_slice(word)?;
    Ok(())
}

// The folder, the file or the writer that it is of.
fn push_item(text: &mut Vec<u8>, complaint: &Complaint) -> Result<(), NoMemory>
    ensures { OnOk result (text.new.items ≡ text.old.items ++ item_word complaint.now) }
{
    match *complaint {
        Complaint::RoomName { .. } => push_word(text, b"-"),
        Complaint::NoFolder { folder, .. } => push_folder(text, folder),
        Complaint::NoAccess { .. } => push_word(text, b"access"),
        Complaint::ForeignFolder { folder, .. } => push_folder(text, folder),
        Complaint::Foreign { path, .. } => push_path(text, path),
        Complaint::NoMark { path } => push_path(text, path),
        Complaint::Filled { path, .. } => push_path(text, path),
        Complaint::Unmarked { path, .. } => push_path(text, path),
        Complaint::TwoHosts { writer, .. } => push_number(text, b"", u128::from(writer)),
        Complaint::Entry { path, .. } => push_path(text, path),
        Complaint::LongLog { path, .. } => push_path(text, path),
        Complaint::Unaccounted { path, .. } => push_path(text, path),
        Complaint::Untrue { path, .. } => push_path(text, path),
        Complaint::Unsettled { path, .. } => push_path(text, path),
        Complaint::Between { path, .. } => push_path(text, path),
        Complaint::TwoTruncates { .. } => push_word(text, b"truncs"),
        Complaint::WrongIndex { path, .. } => push_path(text, path),
    }
}

// The byte of an entry, or the stamp of a truncate.
fn push_place(text: &mut Vec<u8>, complaint: &Complaint) -> Result<(), NoMemory>
    ensures { OnOk result (text.new.items ≡ text.old.items ++ place_word complaint.now) }
{
    match *complaint {
        Complaint::Entry { place, .. } => push_number(text, b"", u128::from(place)),
        Complaint::Between { stamp, .. } => push_number(text, b"", u128::from(stamp)),
        Complaint::TwoTruncates { stamp, .. } => push_number(text, b"", u128::from(stamp)),
        Complaint::RoomName { .. }
        | Complaint::NoFolder { .. }
        | Complaint::NoAccess { .. }
        | Complaint::ForeignFolder { .. }
        | Complaint::Foreign { .. }
        | Complaint::NoMark { .. }
        | Complaint::Filled { .. }
        | Complaint::Unmarked { .. }
        | Complaint::TwoHosts { .. }
        | Complaint::LongLog { .. }
        | Complaint::Unaccounted { .. }
        | Complaint::Untrue { .. }
        | Complaint::Unsettled { .. }
        | Complaint::WrongIndex { .. } => push_word(text, b"-"),
    }
}

// The kind and the room.
fn push_head(text: &mut Vec<u8>, complaint: &Complaint) -> Result<(), NoMemory>
    ensures { OnOk result (text.new.items ≡ text.old.items ++ line_head complaint.now) }
{
    push_word(text, b"broken ")?;
    push_word(text, kind_word(complaint))?;
    push_word(text, b" ")?;
    push_folder(text, room_of(complaint))
}

// The item and the place.
fn push_tail(text: &mut Vec<u8>, complaint: &Complaint) -> Result<(), NoMemory>
    ensures { OnOk result (text.new.items ≡ text.old.items ++ line_tail complaint.now) }
{
    push_word(text, b" ")?;
    push_item(text, complaint)?;
    push_word(text, b" ")?;
    push_place(text, complaint)
}

fn push_line(text: &mut Vec<u8>, complaint: &Complaint) -> Result<(), NoMemory>
    ensures { OnOk result (text.new.items ≡ text.old.items ++ complaint_line complaint.now) }
{
    push_head(text, complaint)?;
    push_tail(text, complaint)?;
    push_word(text, b"\n")
}

/// The lines of these complaints.
pub(crate) fn lines_of(alloc: Global, complaints: &[Complaint]) -> Result<Vec<u8>, NoMemory>
    ensures { IfOk result (λ text. text.items ≡ complaint_lines complaints.now) }
{
    let mut text = Vec::new(alloc);
    for complaint in complaints {
        push_line(&mut text, complaint)?;
    }
    Ok(text)
}

/// The line of a room that the store didn't tell.
pub(crate) fn unreadable_line(alloc: Global, room: Name) -> Result<Vec<u8>, NoMemory>
    ensures { IfOk result (λ text. text.items ≡ unreadable_text room) }
{
    let mut text = Vec::from_slice(alloc, b"broken unreadable ")?;
    push_folder(&mut text, room)?;
    push_word(&mut text, b" - -\n")?;
    Ok(text)
}
