//! An item from its path.
ghost use Rattle.std.specs.Prelude.{◌≡◌, ℕ, ◌<◌, ◌^◌, ◌++◌, ◌↔◌, List, [], ◌∷◌, Some, IfSome, IfNone, MatchOption, IsTrue, codes, ◌≢◌};
ghost use Rattle.std.specs.Option.{SomeIff};
ghost use Rattle.container_layout.specs.declared.items.Item.{Item};
ghost use Rattle.container_layout.specs.declared.items.Item.TheVariants.{Index, Log, Packed, TmpPacked};
ghost use Rattle.container_layout.specs.Items.{IsMetaRange, IsTruncRange};
ghost use Rattle.container_layout.specs.Numbers.{AreNumbers};
ghost use Rattle.container_layout.specs.Paths.{hostdir_of, IsAt, IsIn};

use crate::folders::hostdir;
use crate::items::Item;
use crate::numbers::{five_numbers, number, two_numbers};
use plfs_types::{MAX_LOG, MAX_SIZE, MAX_STAMP, Name, Path};

/// The item whose path this is, or None exactly where it is no item's.
pub fn read(path: &Path) -> Option<Item>
    ensures found { IfSome result (IsAt path.now) }
    ensures only { (item : Item) → IsAt path.now item → result ≡ Some item }
{
    by_folder(path)
}

fn by_folder(path: &Path) -> Option<Item>
    ensures found { IfSome result (IsAt path.now) }
    ensures none { IfNone result ((item : Item) → ¬ (IsAt path.now item)) }
{
    let folder = path.folder.bytes();
    let file = path.file.bytes();
    if folder.is_empty() {
        access(file)
    } else if folder == b"openhosts".as_slice() {
        open_host(file)
    } else if folder == b"metadata".as_slice() {
        meta(file)
    } else if folder == b"truncs".as_slice() {
        trunc(file)
    } else if folder == b"flats".as_slice() {
        flat(file)
    } else {
        dropping(&path.folder, file)
    }
}

// A dropping, or a packed index, in a folder of droppings.
fn dropping(folder: &Name, file: &[u8]) -> Option<Item>
    ensures found { IfSome result (IsIn folder.now file.now) }
    ensures none { IfNone result ((host number : ℕ) →
        ¬ (IsIn folder.now file.now (Index host number)) × ¬ (IsIn folder.now file.now (Log host number))
        × ¬ (IsIn folder.now file.now (Packed host number)) × ¬ (IsIn folder.now file.now (TmpPacked host number))) }
{
    if let Some(rest) = after_word(file, b"index.") {
        let (host, writer) = of_hostdir(folder, rest)?;
        return Some(Item::Index { host, writer });
    }
    if let Some(rest) = after_word(file, b"log.") {
        let (host, writer) = of_hostdir(folder, rest)?;
        return Some(Item::Log { host, writer });
    }
    if let Some(rest) = after_word(file, b"index2.") {
        let (host, writer) = of_hostdir(folder, rest)?;
        return Some(Item::Packed { host, writer });
    }
    let (host, id) = of_hostdir(folder, after_word(file, b"tmp2.")?)?;
    Some(Item::TmpPacked { host, id })
}

// A host and a writer, where the folder is the host's.
fn of_hostdir(folder: &Name, text: &[u8]) -> Option<(u32, u64)>
    ensures found { IfSome result (λ p. (p.0 < 2 ^ 32) × AreNumbers text.now (p.0 ∷ p.1 ∷ []) × (folder.now ≡ hostdir_of p.0)) }
    ensures none { IfNone result ((host writer : ℕ) → host < 2 ^ 32 → AreNumbers text.now (host ∷ writer ∷ []) → ¬ (folder.now ≡ hostdir_of host)) }
{
    let (host, writer) = host_and_writer(text)?;
    if *folder != hostdir(host) {
        return None;
    }
    Some((host, writer))
}

fn access(file: &[u8]) -> Option<Item>
    ensures found { IfSome result (IsIn [] file.now) }
    ensures none { IfNone result ((item : Item) → ¬ (IsIn [] file.now item)) }
{
    if file == b"access".as_slice() {
        Some(Item::Access)
    } else {
        None
    }
}

fn open_host(file: &[u8]) -> Option<Item>
    ensures found { IfSome result (IsIn (codes "openhosts") file.now) }
    ensures none { IfNone result ((item : Item) → ¬ (IsIn (codes "openhosts") file.now item)) }
{
    let (host, writer) = host_and_writer(file)?;
    Some(Item::OpenHost { host, writer })
}

fn meta(file: &[u8]) -> Option<Item>
    ensures found { IfSome result (IsIn (codes "metadata") file.now) }
    ensures none { IfNone result ((item : Item) → ¬ (IsIn (codes "metadata") file.now item)) }
{
    let (last, bytes, stamp, host, writer) = five_numbers(file)?;
    let host = host_of(host)?;
    if !is_meta_range(last, bytes, stamp) {
        return None;
    }
    Some(Item::Meta {
        last,
        bytes,
        stamp,
        host,
        writer,
    })
}

fn trunc(file: &[u8]) -> Option<Item>
    ensures found { IfSome result (IsIn (codes "truncs") file.now) }
    ensures none { IfNone result ((item : Item) → ¬ (IsIn (codes "truncs") file.now item)) }
{
    let (stamp, size) = two_numbers(file)?;
    if !is_trunc_range(stamp, size) {
        return None;
    }
    Some(Item::Trunc { stamp, size })
}

fn flat(file: &[u8]) -> Option<Item>
    ensures found { IfSome result (IsIn (codes "flats") file.now) }
    ensures none { IfNone result ((item : Item) → ¬ (IsIn (codes "flats") file.now item)) }
{
    match after_word(file, b"tmp.") {
        Some(rest) => {
            let id = number(rest)?;
            Some(Item::TmpFlat { id })
        }
        None => {
            let id = number(file)?;
            Some(Item::Flat { id })
        }
    }
}

// What stands behind the word.
fn after_word<'a>(text: &'a [u8], word: &[u8]) -> Option<&'a [u8]>
    ensures { MatchOption result ((rest : List ℕ) → text.now ≢ word.now ++ rest) (λ rest. text.now ≡ word.now ++ rest.now) }
{
    text.strip_prefix(word)
}

fn host_and_writer(text: &[u8]) -> Option<(u32, u64)>
    ensures found { IfSome result (λ p. (p.0 < 2 ^ 32) × AreNumbers text.now (p.0 ∷ p.1 ∷ [])) }
    ensures none { IfNone result ((host writer : ℕ) → host < 2 ^ 32 → ¬ (AreNumbers text.now (host ∷ writer ∷ []))) }
{
    let (host, writer) = two_numbers(text)?;
    let host = host_of(host)?;
    Some((host, writer))
}

fn host_of(number: u64) -> Option<u32>
    ensures { SomeIff result (number < 2 ^ 32) number }
{
    u32::try_from(number).ok()
}

fn is_meta_range(last: u64, bytes: u64, stamp: u64) -> bool
    ensures { IsTrue result ↔ IsMetaRange last bytes stamp }
{
    let fits = last <= MAX_SIZE && bytes <= MAX_LOG && stamp <= MAX_STAMP;
    let none = last == 0 && bytes == 0 && stamp == 0;
    let all = last != 0 && bytes != 0 && stamp != 0;
    fits && (none || all)
}

fn is_trunc_range(stamp: u64, size: u64) -> bool
    ensures { IsTrue result ↔ IsTruncRange stamp size }
{
    stamp != 0 && stamp <= MAX_STAMP && size <= MAX_SIZE
}
