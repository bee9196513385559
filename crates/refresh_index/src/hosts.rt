//! The hosts that a reader held, and those that a listing tells.
ghost use Rattle.std.specs.Prelude.{◌≡◌, ◌≤◌, ◌++◌, length, take, drop, IfOk, OnOk};
ghost use Rattle.plain_file.specs.declared.parts.WriterHost.{WriterHost as Hosted};
ghost use Rattle.index_reader.specs.Found.{item_of};
ghost use Rattle.index_reader.specs.Hosts.{AreByWriter};
ghost use Rattle.index_reader.specs.Listing.{AreByWriter as AreDroppingsByWriter};
ghost use Rattle.refresh_index.specs.Refreshing.{all_unpacked};
ghost use Rattle.refresh_index.specs.Hosts.{is_other as is_other_of, moved as moved_of, hosts_below, hosts_from, without, hosts_with as hosts_of};

use index_reader::{Dropping, DroppingList, host_found};
use plain_file::{HostList, WriterHost};
use plfs_types::NoMemory;
use std::alloc::Global;

/// Whether the dropping's writer is held with another host.
fn is_other(held: &[WriterHost], dropping: &Dropping) -> bool
    requires { AreByWriter held.now }
    ensures { result ≡ is_other_of dropping.now.host (item_of (λ (h : Hosted). h.writer) dropping.now.writer held.now) }
{
    match host_found(held, dropping.writer) {
        Some(found) => found.host != dropping.host,
        None => false,
    }
}

/// The first dropping whose writer is held with another host.
pub(crate) fn moved(held: &[WriterHost], droppings: &[Dropping]) -> Option<Dropping>
    requires { AreByWriter held.now }
    ensures { result ≡ moved_of held.now droppings.now }
{
    for dropping in droppings {
        if is_other(held, dropping) {
            return Some(*dropping);
        }
    }
    None
}

/// How many of the first hosts are of writers below this one.
fn count_below(held: &[WriterHost], writer: u64) -> usize
    ensures within { result ≤ length held.now }
    ensures below { take result held.now ≡ hosts_below writer held.now }
    ensures others { drop result held.now ≡ hosts_from writer held.now }
{
    for (i, host) in held.iter().enumerate() {
        if host.writer >= writer {
            return i;
        }
    }
    held.len()
}

/// The hosts without this writer's, where that is the first.
fn past(held: &[WriterHost], writer: u64) -> &[WriterHost]
    ensures { result.now ≡ without writer held.now }
{
    match held {
        [host, rest @ ..] if host.writer == writer => rest,
        _ => held,
    }
}

/// Moves the first hosts over, of writers below this one, and passes this writer's by.
fn move_below<'a>(
    hosts: &mut Vec<WriterHost>,
    held: &'a [WriterHost],
    writer: u64,
) -> Result<&'a [WriterHost], NoMemory>
    ensures moved { OnOk result (hosts.new.items ≡ hosts.old.items ++ hosts_below writer held.now) }
    ensures rest { IfOk result (λ rest. rest.now ≡ without writer (hosts_from writer held.now)) }
{
    let (below, others) = held.split_at(count_below(held, writer));
    hosts.extend_from_slice(below)?;
    Ok(past(others, writer))
}

/// The hosts that the listing tells, and those that were held of writers without a dropping.
pub(crate) fn hosts_with(
    alloc: Global,
    held: &[WriterHost],
    droppings: &[Dropping],
) -> Result<HostList, NoMemory>
    requires held { AreByWriter held.now }
    requires droppings { AreDroppingsByWriter droppings.now }
    ensures value { IfOk result (λ hosts. hosts ≡ hosts_of held.now droppings.now) }
    ensures order { IfOk result AreByWriter }
{
    let mut hosts = Vec::new(alloc);
    let mut rest = held;
    for dropping in droppings {
        rest = move_below(&mut hosts, rest, dropping.writer)?;
        hosts.push(WriterHost {
            writer: dropping.writer,
            host: dropping.host,
        })?;
    }
    hosts.extend_from_slice(rest)?;
    Ok(HostList::from_vec(hosts))
}

/// The droppings, of which none is read by a packed index.
pub(crate) fn unpacked(alloc: Global, droppings: &[Dropping]) -> Result<DroppingList, NoMemory>
    requires { AreDroppingsByWriter droppings.now }
    ensures value { IfOk result (λ list. list ≡ all_unpacked droppings.now) }
    ensures order { IfOk result AreDroppingsByWriter }
{
    let mut list = DroppingList::new(alloc);
    for dropping in droppings {
        list.push(Dropping {
            host: dropping.host,
            writer: dropping.writer,
            packed: false,
        })?;
    }
    Ok(list)
}
