//! The items of a container, each with what has to hold of it.
ghost use Rattle.std.specs.Prelude.{◌≡◌, IfErr, IfOk, OnOk};
ghost use Rattle.std.specs.BTreeMap.{get};
ghost use Rattle.std.specs.Ordering.{nat_cmp};
ghost use Rattle.container_layout.specs.declared.items.Item.TheVariants.{Index, Meta};
ghost use Rattle.container_layout.specs.Paths.{IsAt};
ghost use Rattle.mount_model.specs.Paths.{index_path, open_path as open_path_of};
ghost use Rattle.shape_check.specs.Files.{OfPlace};
ghost use Rattle.shape_check.specs.Rightness.{Fails, IsFoundIn, IsNoComplaint};
ghost use Rattle.shape_check.specs.Seeing.{IsLookedAt};
ghost use Rattle.tree_check.specs.Complaining.{TellsOfItems};
ghost use Rattle.tree_check.specs.Droppings.{IsKept};
ghost use Rattle.tree_check.specs.Concerning.{IsOfFile, IsOfItem, IsOfItemAt, IsOfLeft};
ghost use Rattle.tree_check.specs.Known.{FindsAt, IsAtWork, OfWork, IsKnownAt, OfKnownAt, IsKnownAll, OfKnownAll, IsOpenAt, IsOpenEntry, IsRightItem, IsRightAt};
ghost use Rattle.tree_check.specs.Owners.{left_before};

use crate::droppings::{Kept, Left, check_beside, index_of, judge_left, take_dropping};
use crate::gathered::{ComplaintList, note};
use crate::indices::{check_flat, check_pack};
use crate::owners::{Owners, owner_of};
use crate::whole::has_file;
use container_layout::{Item, print, read};
use plfs_types::{Path, Trunc};
use shape_check::{Complaint, Finding, Place};
use std::alloc::Global;
use store_api::Store;

/// What is complained of the files at these paths: one complaint of each that isn't as in a sound tree.
pub(crate) fn check_items<S: Store>(
    alloc: Global,
    store: &mut S,
    place: &Place,
    owners: &Owners,
    truncs: &[Trunc],
    paths: &[Path],
) -> Result<ComplaintList, Finding>
    ensures looked { IsLookedAt (S.stored store.old) (S.stored store.new) }
    ensures ok { IfOk result (λ found. OfKnownAll (TellsOfItems paths.now found) place.now owners.now truncs.now paths.now (S.stored store.old)) }
    ensures err { IfErr result (Fails (IsKnownAll place.now owners.now truncs.now paths.now) (S.stored store.old) (S.stored store.new)) }
    ensures unbroken { IfErr result IsNoComplaint }
{
    let mut found = ComplaintList::new(alloc);
    let mut kept = None;
    for path in paths {
        let told = check_item(alloc, store, place, owners, truncs, path, &mut kept);
        note(told, &mut found)?;
    }
    Ok(found)
}

fn check_item<S: Store>(
    alloc: Global,
    store: &mut S,
    place: &Place,
    owners: &Owners,
    truncs: &[Trunc],
    path: &Path,
    kept: &mut Kept,
) -> Result<(), Finding>
    requires kept { IsKept place.now kept.old (S.stored store.old) }
    ensures kept { IsKept place.now kept.new (S.stored store.new) }
    ensures looked { IsLookedAt (S.stored store.old) (S.stored store.new) }
    ensures ok { OnOk result (OfKnownAt (IsRightAt path.now) place.now owners.now truncs.now path.now (S.stored store.old)) }
    ensures err { IfErr result (Fails (IsKnownAt place.now owners.now truncs.now path.now) (S.stored store.old) (S.stored store.new)) }
    ensures named { IfErr result (FindsAt (IsOfItemAt path.now) place.now owners.now truncs.now path.now (S.stored store.old)) }
{
    match read(path) {
        Some(item) => check_kind(alloc, store, place, owners, truncs, path, &item, kept),
        None => Ok(()),
    }
}

#[tactic(auto, using(crate::proofs::DroppingLemmas::kept_on))]
fn check_kind<S: Store>(
    alloc: Global,
    store: &mut S,
    place: &Place,
    owners: &Owners,
    truncs: &[Trunc],
    path: &Path,
    item: &Item,
    kept: &mut Kept,
) -> Result<(), Finding>
    requires at { IsAt path.now item.now }
    requires kept { IsKept place.now kept.old (S.stored store.old) }
    ensures kept { IsKept place.now kept.new (S.stored store.new) }
    ensures looked { IsLookedAt (S.stored store.old) (S.stored store.new) }
    ensures ok { OnOk result (OfKnownAt (IsRightItem item.now) place.now owners.now truncs.now path.now (S.stored store.old)) }
    ensures err { IfErr result (Fails (IsKnownAt place.now owners.now truncs.now path.now) (S.stored store.old) (S.stored store.new)) }
    ensures named { IfErr result (FindsAt (IsOfItem path.now item.now) place.now owners.now truncs.now path.now (S.stored store.old)) }
{
    match *item {
        Item::Index { host, writer } => check_index(
            alloc, store, place, owners, truncs, path, host, writer, kept,
        ),
        Item::Meta {
            last,
            bytes,
            stamp,
            host,
            writer,
        } => check_meta(
            alloc,
            store,
            place,
            truncs,
            path,
            &Left {
                last,
                bytes,
                stamp,
                host,
                writer,
            },
            kept,
        ),
        Item::Packed { host, writer } => check_pack(
            alloc, store, place, owners, path, host, writer, kept,
        ),
        Item::Flat { id } => check_flat(alloc, store, place, owners, path, id, kept),
        _ => Ok(()),
    }
}

/// Whether the writer has left.
fn has_left(owners: &Owners, writer: u64) -> bool
    ensures { result ≡ left_before (get nat_cmp owners.now writer) }
{
    match owner_of(owners, writer) {
        Some(owner) => owner.has_left,
        None => false,
    }
}

/// Whether the index dropping of a writer that hasn't left is as in a sound tree. That of one that has is checked with
/// its metadata dropping.
#[tactic(auto, using(crate::proofs::DroppingLemmas::kept_none))]
fn check_index<S: Store>(
    alloc: Global,
    store: &mut S,
    place: &Place,
    owners: &Owners,
    truncs: &[Trunc],
    path: &Path,
    host: u32,
    writer: u64,
    kept: &mut Kept,
) -> Result<(), Finding>
    requires at { IsAt path.now (Index host writer) }
    requires kept { IsKept place.now kept.old (S.stored store.old) }
    ensures kept { IsKept place.now kept.new (S.stored store.new) }
    ensures looked { IsLookedAt (S.stored store.old) (S.stored store.new) }
    ensures ok { OnOk result (OfKnownAt (IsRightItem (Index host writer)) place.now owners.now truncs.now path.now (S.stored store.old)) }
    ensures err { IfErr result (Fails (IsKnownAt place.now owners.now truncs.now path.now) (S.stored store.old) (S.stored store.new)) }
    ensures named { IfErr result (FindsAt (IsOfItem path.now (Index host writer)) place.now owners.now truncs.now path.now (S.stored store.old)) }
{
    if has_left(owners, writer) {
        return Ok(());
    }
    let dropping = take_dropping(alloc, store, place, host, writer, kept)?;
    check_accounted(store, place, host, writer, dropping.landed)?;
    check_beside(place.name, host, writer, dropping.landed(), truncs)
}

/// Whether a writer of which so many entries have landed is among those that have the container open, if any have.
#[tactic(auto, using(shape_check::proofs::Facts::unbroken_found))]
fn check_accounted<S: Store>(
    store: &mut S,
    place: &Place,
    host: u32,
    writer: u64,
    landed: usize,
) -> Result<(), Finding>
    ensures looked { IsLookedAt (S.stored store.old) (S.stored store.new) }
    ensures ok { OnOk result (OfPlace (IsOpenEntry host writer landed) place.now (S.stored store.old)) }
    ensures err { IfErr result (Fails (IsOpenAt place.now host writer landed) (S.stored store.old) (S.stored store.new)) }
    ensures named { IfErr result (IsFoundIn place.now.name (IsOfFile (index_path host writer))) }
{
    if landed == 0 {
        return Ok(());
    }
    let has = has_file(store, place, &open_of(host, writer))?;
    if has {
        return Ok(());
    }
    Err(Finding::Broken {
        complaint: Complaint::Unaccounted {
            room: place.name,
            path: index_of(host, writer),
        },
    })
}

/// Where the writer's entry among those that have the container open is.
fn open_of(host: u32, writer: u64) -> Path
    ensures { result ≡ open_path_of host writer }
{
    print(&Item::OpenHost { host, writer })
}

/// Whether the writer of this metadata dropping is as in a sound tree.
#[tactic(auto, using(crate::proofs::DroppingLemmas::kept_none))]
fn check_meta<S: Store>(
    alloc: Global,
    store: &mut S,
    place: &Place,
    truncs: &[Trunc],
    path: &Path,
    left: &Left,
    kept: &mut Kept,
) -> Result<(), Finding>
    requires at { IsAt path.now (Meta left.now.last left.now.bytes left.now.stamp left.now.host left.now.writer) }
    requires kept { IsKept place.now kept.old (S.stored store.old) }
    ensures kept { IsKept place.now kept.new (S.stored store.new) }
    ensures looked { IsLookedAt (S.stored store.old) (S.stored store.new) }
    ensures ok { OnOk result (OfWork (IsRightItem (Meta left.now.last left.now.bytes left.now.stamp left.now.host left.now.writer)) place.now truncs.now path.now (S.stored store.old)) }
    ensures err { IfErr result (Fails (IsAtWork place.now truncs.now path.now) (S.stored store.old) (S.stored store.new)) }
    ensures named { IfErr result (IsFoundIn place.now.name (IsOfLeft path.now left.now.host left.now.writer)) }
{
    let dropping = take_dropping(alloc, store, place, left.host, left.writer, kept)?;
    judge_left(place.name, path, left, &dropping)?;
    check_beside(
        place.name,
        left.host,
        left.writer,
        dropping.landed(),
        truncs,
    )
}
