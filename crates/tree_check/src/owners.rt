//! Which writers have items in a container, of which hosts.
ghost use Rattle.std.specs.Prelude.{◌≡◌, ℕ, cond, Some, IfOk, IfErr, IfSome, OnOk};
ghost use Rattle.std.specs.BTreeMap.{get, is_at};
ghost use Rattle.std.specs.Ordering.{nat_cmp};
ghost use Rattle.container_layout.specs.Paths.{IsAt};
ghost use Rattle.tree_check.specs.Owners.{owned_of, Notes, NotesAt, IsOfOther, IsOfOtherAt, AreOwnersAt, IsTwoHosts, IsOwnedAt};

use container_layout::{Item, read};
use plfs_types::{Name, NoMemory, Path};
use shape_check::{Complaint, Finding};
use std::alloc::Global;
use std::collections::BTreeMap;

/// What a container has of a writer.
#[derive(Clone, Copy)]
pub(crate) struct Owner {
    pub(crate) host: u32,
    /// It has a metadata dropping.
    pub(crate) has_left: bool,
}

/// Whose an item is.
#[derive(Clone, Copy)]
pub(crate) struct Owned {
    pub(crate) writer: u64,
    pub(crate) owner: Owner,
}

/// What a container has of each writer, by its id.
pub(crate) type Owners = BTreeMap<u64, Owner>;

/// Whose the item is, if it is an index dropping, a metadata dropping or of those that have the container open.
fn owned_in(item: &Item) -> Option<Owned>
    ensures { result ≡ owned_of item.now }
{
    match *item {
        Item::OpenHost { host, writer } => Some(Owned {
            writer,
            owner: Owner {
                host,
                has_left: false,
            },
        }),
        Item::Index { host, writer } => Some(Owned {
            writer,
            owner: Owner {
                host,
                has_left: false,
            },
        }),
        Item::Meta { host, writer, .. } => Some(Owned {
            writer,
            owner: Owner {
                host,
                has_left: true,
            },
        }),
        _ => None,
    }
}

/// The same, of the item at this path.
#[tactic(auto, using(crate::proofs::OwnerLemmas::owned_some, crate::proofs::OwnerLemmas::owned_only))]
fn owned_at(path: &Path) -> Option<Owned>
    ensures found { IfSome result (IsOwnedAt path.now) }
    ensures only { (item : Item) → IsAt path.now item → result ≡ owned_of item }
{
    match read(path) {
        Some(item) => owned_in(&item),
        None => None,
    }
}

/// What it has of this writer.
pub(crate) fn owner_of(owners: &Owners, writer: u64) -> Option<Owner>
    ensures { result ≡ get nat_cmp owners.now writer }
{
    match owners.get(&writer) {
        Some(owner) => Some(*owner),
        None => None,
    }
}

fn set(owners: &mut Owners, owned: &Owned) -> Result<(), NoMemory>
    ensures { OnOk result ((writer : ℕ) → get nat_cmp owners.new writer ≡ cond (is_at (nat_cmp owned.now.writer) writer) (Some owned.now.owner) (get nat_cmp owners.old writer)) }
{
    owners.insert(owned.writer, owned.owner)?;
    Ok(())
}

/// Takes down whose an item is, unless its writer has one of another host.
fn note(room: Name, owners: &mut Owners, owned: &Owned) -> Result<(), Finding>
    ensures ok { OnOk result (Notes owned.now owners.old owners.new) }
    ensures err { IfErr result (IsOfOther room owned.now owners.old) }
{
    let before = owner_of(owners, owned.writer).unwrap_or(owned.owner);
    if before.host != owned.owner.host {
        return Err(Finding::Broken {
            complaint: Complaint::TwoHosts {
                room,
                writer: owned.writer,
            },
        });
    }
    let now = Owned {
        writer: owned.writer,
        owner: Owner {
            host: owned.owner.host,
            has_left: before.has_left || owned.owner.has_left,
        },
    };
    set(owners, &now)?;
    Ok(())
}

/// Takes down whose the item at this path is.
fn note_at(room: Name, owners: &mut Owners, path: &Path) -> Result<(), Finding>
    ensures ok { OnOk result (NotesAt path.now owners.old owners.new) }
    ensures err { IfErr result (IsOfOtherAt room path.now owners.old) }
{
    match owned_at(path) {
        Some(owned) => note(room, owners, &owned),
        None => Ok(()),
    }
}

/// Whose the items at these paths are.
pub(crate) fn owners_of(alloc: Global, room: Name, paths: &[Path]) -> Result<Owners, Finding>
    ensures ok { IfOk result (AreOwnersAt paths.now) }
    ensures err { IfErr result (IsTwoHosts room paths.now) }
{
    let mut owners = BTreeMap::new(alloc);
    for path in paths {
        note_at(room, &mut owners, path)?;
    }
    Ok(owners)
}
