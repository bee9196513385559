//! The hosts of a container's writers, by their writers.
ghost use Rattle.std.specs.Prelude.{◌≡◌, IfOk};
ghost use Rattle.plain_file.specs.declared.parts.WriterHost.{WriterHost as Hosted};
ghost use Rattle.index_reader.specs.Found.{item_of};
ghost use Rattle.index_reader.specs.Hosts.{AreByWriter, hosts_of as hosts_told, host_of as host_for};
ghost use Rattle.index_reader.specs.Listing.{AreByWriter as AreDroppingsByWriter};

use crate::listing::Dropping;
use plain_file::{HostList, WriterHost};
use plfs_types::NoMemory;
use std::alloc::Global;
use std::marker::Model;

/// Hosts by ascending writer.
#[derive(Drop)]
pub(crate) struct Hosts {
    list: HostList,
}

impl Model for Hosts {
    ghost use Rattle.std.specs.Prelude.{List};
    ghost use Rattle.plain_file.specs.declared.parts.WriterHost.{WriterHost};
    ghost use Rattle.index_reader.specs.Hosts.{AreByWriter};

    ghost Value = { List WriterHost };

    ghost view = { λ h. h.list };

    ghost invariant = { λ h. AreByWriter h.list };
}

impl Hosts {
    /// These hosts.
    pub(crate) fn of(list: HostList) -> Self
        requires { AreByWriter list }
        ensures { result ≡ list }
    {
        Hosts { list }
    }

    /// The hosts as a list.
    pub(crate) fn get(&self) -> &HostList
        ensures value { result.now ≡ self.now }
        ensures order { AreByWriter self.now }
    {
        &self.list
    }

    /// The list, taken out.
    pub(crate) fn into_list(self) -> HostList
        ensures value { result ≡ self }
        ensures order { AreByWriter self }
    {
        self.list
    }
}

/// The host of this writer, where there is one.
pub fn found(hosts: &[WriterHost], writer: u64) -> Option<WriterHost>
    requires { AreByWriter hosts.now }
    ensures { result ≡ item_of (λ (h : Hosted). h.writer) writer hosts.now }
{
    let place = hosts.partition_point(|host| host.writer < writer);
    if place < hosts.len() && hosts[place].writer == writer {
        Some(hosts[place])
    } else {
        None
    }
}

/// The host of a writer.
pub(crate) fn host_of(hosts: &[WriterHost], writer: u64) -> u32
    requires { AreByWriter hosts.now }
    ensures { result ≡ host_for writer hosts.now }
{
    match found(hosts, writer) {
        Some(found) => found.host,
        None => 0,
    }
}

/// The hosts that droppings tell.
pub(crate) fn hosts_of(alloc: Global, droppings: &[Dropping]) -> Result<HostList, NoMemory>
    requires { AreDroppingsByWriter droppings.now }
    ensures value { IfOk result (λ hosts. hosts ≡ hosts_told droppings.now) }
    ensures order { IfOk result AreByWriter }
{
    let mut hosts = HostList::new(alloc);
    for dropping in droppings {
        hosts.push(WriterHost {
            writer: dropping.writer,
            host: dropping.host,
        })?;
    }
    Ok(hosts)
}
