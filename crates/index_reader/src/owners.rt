//! Writers with their hosts, by their ids.
ghost use Rattle.std.specs.Prelude.{◌≡◌, false, [], map, IfOk, OnOk};
ghost use Rattle.index_reader.specs.Listing.{AreByWriter};
ghost use Rattle.index_reader.specs.Opening.{dropping_of, has_owner, lone_pack};
ghost use Rattle.index_reader.specs.Scanning.{Ascends, has_writer as has, placed, owner as owner_of};

use crate::droppings::Droppings;
use crate::listing::{Dropping, DroppingList};
use plfs_types::NoMemory;
use std::alloc::Global;
use std::collections::BTreeMap;
use std::marker::Model;

/// Whose a file in a folder of droppings is.
#[derive(Clone, Copy)]
pub(crate) struct Owner {
    pub(crate) host: u32,
    pub(crate) writer: u64,
}

/// Writers with their hosts, by ascending id. In contracts they are the plain list.
#[derive(Drop)]
pub(crate) struct Owners {
    hosts: BTreeMap<u64, u32>,
}

impl Model for Owners {
    ghost use Rattle.std.specs.Prelude.{List, map};
    ghost use Rattle.index_reader.specs.declared.owners.Owner.{Owner};

    ghost Value = { List Owner };

    ghost view = { λ o. map (λ e. record { host = e.1; writer = e.0 }) o.hosts.entries };
}

impl Owners {
    /// None.
    pub(crate) fn new(alloc: Global) -> Self
        ensures { result ≡ [] }
    {
        Owners {
            hosts: BTreeMap::new(alloc),
        }
    }

    /// Whether this writer is among them.
    pub(crate) fn has(&self, writer: u64) -> bool
        ensures { result ≡ has writer self.now }
    {
        self.hosts.contains_key(&writer)
    }

    /// Adds a writer that is not among them.
    pub(crate) fn add(&mut self, host: u32, writer: u64) -> Result<(), NoMemory>
        requires { has writer self.old ≡ false }
        ensures { OnOk result (self.new ≡ placed (owner_of host writer) self.old) }
    {
        self.hosts.insert(writer, host)?;
        Ok(())
    }

    /// Whether this writer is among them with this host.
    fn has_owner(&self, owner: &Owner) -> bool
        ensures { result ≡ has_owner owner.now self.now }
    {
        match self.hosts.get(&owner.writer) {
            Some(host) => *host == owner.host,
            None => false,
        }
    }

    /// The writers as a list.
    fn list(&self, alloc: Global) -> Result<Vec<Owner>, NoMemory>
        ensures value { IfOk result (λ list. list.items ≡ self.now) }
        ensures ascends { IfOk result (λ list. Ascends list.items) }
    {
        let mut list = Vec::new(alloc);
        for (writer, host) in self.hosts.iter() {
            list.push(Owner {
                host: *host,
                writer: *writer,
            })?;
        }
        Ok(list)
    }

    /// The first of them that is not among those others.
    pub(crate) fn first_apart(
        &self,
        alloc: Global,
        others: &Owners,
    ) -> Result<Option<Owner>, NoMemory>
        ensures { IfOk result (λ first. first ≡ lone_pack others.now self.now) }
    {
        let list = self.list(alloc)?;
        Ok(first_of(list.as_slice(), others))
    }

    /// The index droppings of these writers, of which those others have packed indices.
    pub(crate) fn droppings(&self, alloc: Global, packs: &Owners) -> Result<Droppings, NoMemory>
        ensures { IfOk result (λ found. found ≡ map (dropping_of packs.now) self.now) }
    {
        let list = self.list(alloc)?;
        let droppings = marked(alloc, list.as_slice(), packs)?;
        Ok(Droppings::of(droppings))
    }
}

/// The first of these writers that is not among those others.
fn first_of(list: &[Owner], others: &Owners) -> Option<Owner>
    ensures { result ≡ lone_pack others.now list.now }
{
    for owner in list {
        if !others.has_owner(owner) {
            return Some(*owner);
        }
    }
    None
}

/// The index droppings of these writers, of which those others have packed indices.
fn marked(alloc: Global, list: &[Owner], packs: &Owners) -> Result<DroppingList, NoMemory>
    requires { Ascends list.now }
    ensures value { IfOk result (λ droppings. droppings ≡ map (dropping_of packs.now) list.now) }
    ensures ascends { IfOk result AreByWriter }
{
    let mut droppings = DroppingList::new(alloc);
    for owner in list {
        droppings.push(Dropping {
            host: owner.host,
            writer: owner.writer,
            packed: packs.has(owner.writer),
        })?;
    }
    Ok(droppings)
}
