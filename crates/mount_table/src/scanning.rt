//! Listings whose names have a number each.
ghost use Rattle.std.specs.Prelude.{◌≡◌, ◌≢◌, ℕ, ◌≤◌, IfSome, IfNone, IfOk, IfErr};
ghost use Rattle.plfs_types.specs.declared.limits.TheConstants.{MAX_STAMP};
ghost use Rattle.mount_model.specs.Listed.{HasNone, IsGreatest, IsLeastOther, HasStamp, IsMarkOf};
ghost use Rattle.mount_table.specs.Scanning.{numbered, IsLesser};

use container_layout::{Item, read, read_number, truncs};
use plfs_types::{Name, Path};
use std::cmp::Ordering;

/// What a listing's names are to be.
#[derive(Clone, Copy)]
pub enum Listing {
    /// Truncates, whose number is their stamp.
    Truncates,
    /// The numbers of mounts, 1 to 2^32 - 1.
    Marks,
}

/// The greatest number of these names, 0 where there are none, or the least name in byte order that has no number.
pub fn greatest(listing: Listing, names: &[Name]) -> Result<u64, Name>
    ensures ok { IfOk result (IsGreatest (numbered listing) names.now) }
    ensures fits { IfOk result (λ number. number ≤ MAX_STAMP) }
    ensures err { IfErr result (IsLeastOther (numbered listing) names.now) }
{
    let mut greatest = 0;
    let mut other = None;
    for name in names {
        match number_in(listing, name) {
            Some(number) => greatest = number.max(greatest),
            None => other = Some(lesser(other, *name)),
        }
    }
    match other {
        Some(name) => Err(name),
        None => Ok(greatest),
    }
}

/// The lesser name in byte order.
fn lesser(other: Option<Name>, name: Name) -> Name
    ensures { IsLesser other name result }
{
    match other {
        Some(old) => match old.cmp(&name) {
            Ordering::Greater => name,
            _ => old,
        },
        None => name,
    }
}

/// The number of a name in such a listing.
fn number_in(listing: Listing, name: &Name) -> Option<u64>
    ensures some { IfSome result (λ number. numbered listing name.now number × (number ≤ MAX_STAMP)) }
    ensures none { IfNone result (HasNone (numbered listing) name.now) }
{
    match listing {
        Listing::Truncates => stamp_of(name),
        Listing::Marks => mark_of(name),
    }
}

/// The stamp of the truncate of this name.
fn stamp_of(name: &Name) -> Option<u64>
    ensures some { IfSome result (λ stamp. HasStamp name.now stamp × (stamp ≤ MAX_STAMP)) }
    ensures none { IfNone result (HasNone HasStamp name.now) }
{
    let path = Path {
        folder: truncs(),
        file: *name,
    };
    match read(&path) {
        Some(item) => stamp_in(&item),
        None => None,
    }
}

/// The stamp of a truncate.
fn stamp_in(item: &Item) -> Option<u64>
    ensures some { IfSome result (λ stamp. (size : ℕ) × (item.now ≡ Item.Trunc stamp size)) }
    ensures none { IfNone result ((stamp size : ℕ) → item.now ≢ Item.Trunc stamp size) }
{
    match *item {
        Item::Trunc { stamp, .. } => Some(stamp),
        _ => None,
    }
}

/// The number of the mount that put this mark.
fn mark_of(name: &Name) -> Option<u64>
    ensures some { IfSome result (λ mark. IsMarkOf name.now mark × (mark ≤ MAX_STAMP)) }
    ensures none { IfNone result (HasNone IsMarkOf name.now) }
{
    let mark = read_number(name)?;
    if mark == 0 || mark > u64::from(u32::MAX) {
        return None;
    }
    Some(mark)
}
