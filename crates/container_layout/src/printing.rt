//! An item as a path.
ghost use Rattle.std.specs.Prelude.{◌≡◌, ◌≤◌, [], ◌∷◌, ◌++◌, length, codes};
ghost use Rattle.container_layout.specs.declared.items.Item.TheVariants.{Meta};
ghost use Rattle.container_layout.specs.Items.{IsInRange, IsMetaRange};
ghost use Rattle.container_layout.specs.Numbers.{dotted};
ghost use Rattle.container_layout.specs.Paths.{path_of};

use crate::folders::hostdir;
use crate::items::Item;
use crate::text::Text;
use plfs_types::{Name, Path};

/// The path of an item whose numbers are in their ranges.
pub fn print(item: &Item) -> Path
    requires { IsInRange item.now }
    ensures { result ≡ path_of item.now }
{
    match *item {
        Item::Access => path(b"", b"access", &[]),
        Item::OpenHost { host, writer } => writer_path(b"openhosts", b"", host, writer),
        Item::Meta {
            last,
            bytes,
            stamp,
            host,
            writer,
        } => meta_path(last, bytes, stamp, host, writer),
        Item::Trunc { stamp, size } => path(b"truncs", b"", &[stamp, size]),
        Item::Flat { id } => flat_path(b"", id),
        Item::TmpFlat { id } => flat_path(b"tmp.", id),
        Item::Index { host, writer } => writer_path(hostdir(host).bytes(), b"index.", host, writer),
        Item::Log { host, writer } => writer_path(hostdir(host).bytes(), b"log.", host, writer),
        Item::Packed { host, writer } => writer_path(
            hostdir(host).bytes(),
            b"index2.",
            host,
            writer,
        ),
        Item::TmpPacked { host, id } => writer_path(hostdir(host).bytes(), b"tmp2.", host, id),
    }
}

// A word, a host and a number behind it.
fn writer_path(folder: &[u8], word: &[u8], host: u32, writer: u64) -> Path
    requires folder_fits { length folder.now ≤ 96 }
    requires word_fits { length word.now ≤ 40 }
    ensures { result ≡ record { folder = folder.now; file = word.now ++ dotted (host ∷ writer ∷ []) } }
{
    path(folder, word, &[u64::from(host), writer])
}

fn meta_path(last: u64, bytes: u64, stamp: u64, host: u32, writer: u64) -> Path
    requires { IsMetaRange last bytes stamp }
    ensures { result ≡ path_of (Meta last bytes stamp host writer) }
{
    path(
        b"metadata",
        b"",
        &[last, bytes, stamp, u64::from(host), writer],
    )
}

fn flat_path(word: &[u8], id: u64) -> Path
    requires { length word.now ≤ 40 }
    ensures { result ≡ record { folder = codes "flats"; file = word.now ++ dotted (id ∷ []) } }
{
    path(b"flats", word, &[id])
}

// A path with a word and dotted numbers as its file's name.
fn path(folder: &[u8], word: &[u8], numbers: &[u64]) -> Path
    requires folder_fits { length folder.now ≤ 96 }
    requires file_fits { length (word.now ++ dotted numbers.now) ≤ 96 }
    ensures { result ≡ record { folder = folder.now; file = word.now ++ dotted numbers.now } }
{
    Path {
        folder: Name::from_bytes(folder).unwrap(),
        file: joined(word, numbers),
    }
}

fn joined(word: &[u8], numbers: &[u64]) -> Name
    requires { length (word.now ++ dotted numbers.now) ≤ 96 }
    ensures { result ≡ word.now ++ dotted numbers.now }
{
    let mut text = Text::new();
    text.push(word);
    text.push_dotted(numbers);
    text.name()
}
