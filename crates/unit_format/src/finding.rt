//! The small file of a name among the units of all regions.
ghost use Rattle.std.specs.Prelude.{◌≡◌, ◌↔◌, IsTrue, MatchOption};
ghost use Rattle.unit_format.specs.Finding.{IsOlder, ComesBefore, HasNone, IsNewestIn, IsUnheld, IsFileOf, IsFound, NewestOf, NewerOf, TakesIn};

use plfs_types::{Key, LogicalName, Sequence};

/// A unit: its file's content is `len` bytes from `at` on, and its key is that of the write that shows its first byte, or
/// zeros as long as that is not known.
#[derive(Clone, Copy)]
pub struct Unit {
    pub name: LogicalName,
    pub at: u64,
    pub len: u64,
    pub key: Key,
}

/// A list of units.
pub type UnitList = Sequence<Unit>;

/// The units of a region, and where the last one ends.
#[derive(Drop)]
pub struct Region {
    pub units: UnitList,
    pub end: u64,
}

/// A list of regions.
pub type RegionList = Sequence<Region>;

fn is_named(unit: &Unit, name: &LogicalName) -> bool
    ensures { IsTrue result ↔ (unit.now.name ≡ name.now) }
{
    unit.name.name().bytes() == name.name().bytes()
}

/// Whether the first write is older than the second.
fn is_older(one: Key, other: Key) -> bool
    ensures { IsTrue result ↔ IsOlder one other }
{
    one.stamp < other.stamp || (one.stamp == other.stamp && one.writer < other.writer)
}

/// Whether the first unit of a region counts less than the second.
fn comes_before(one: &Unit, other: &Unit) -> bool
    ensures { IsTrue result ↔ ComesBefore one.now other.now }
{
    is_older(one.key, other.key) || (one.key == other.key && one.at < other.at)
}

fn later(best: Option<Unit>, unit: Unit) -> Unit
    ensures { NewerOf best unit result }
{
    match best {
        Some(old) => { if comes_before(&old, &unit) { unit } else { old } }
        None => unit,
    }
}

fn with_unit(best: Option<Unit>, unit: &Unit, name: &LogicalName) -> Option<Unit>
    ensures { TakesIn name.now best unit.now result }
{
    if !is_named(unit, name) {
        return best;
    }
    Some(later(best, *unit))
}

fn newest_in(units: &[Unit], name: &LogicalName) -> Option<Unit>
    ensures { MatchOption result (HasNone name.now units.now) (IsNewestIn units.now name.now) }
{
    let mut best = None;
    for unit in units {
        best = with_unit(best, unit, name);
    }
    best
}

/// The one of a later region, unless the other is newer.
fn newer(best: Option<Unit>, next: Option<Unit>) -> Option<Unit>
    ensures { NewestOf best next result }
{
    let Some(unit) = next else {
        return best;
    };
    match best {
        Some(old) => {
            if is_older(unit.key, old.key) {
                Some(old)
            } else {
                Some(unit)
            }
        }
        None => Some(unit),
    }
}

fn find_in(regions: &[Region], name: &LogicalName) -> Option<Unit>
    ensures { MatchOption result (IsUnheld regions.now name.now) (IsFileOf regions.now name.now) }
{
    let mut best = None;
    for region in regions {
        best = newer(best, newest_in(region.units.as_slice(), name));
    }
    best
}

/// The unit of this name that has the greatest key, of these the one of the last region, and of these the last one; or
/// None exactly where no unit has the name.
pub fn find(regions: &RegionList, name: &LogicalName) -> Option<Unit>
    ensures { IsFound regions.now name.now result }
{
    find_in(regions.as_slice(), name)
}
