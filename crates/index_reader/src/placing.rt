//! The parts of a read with the hosts of their writers.
ghost use Rattle.std.specs.Prelude.{◌≡◌, IfOk};
ghost use Rattle.index_reader.specs.declared.listing.Dropping.{Dropping as Listed};
ghost use Rattle.index_reader.specs.Found.{item_of};
ghost use Rattle.index_reader.specs.Listing.{AreByWriter};
ghost use Rattle.index_reader.specs.Hosts.{AreByWriter as AreHostsByWriter};
ghost use Rattle.index_reader.specs.Reading.{placed, placed_all};

use crate::hosts::host_of;
use crate::listing::Dropping;
use plain_file::WriterHost;
use plfs_types::{NoMemory, Sequence};
use read_plan::Part;
use std::alloc::Global;

/// Bytes of a writer's log.
#[derive(Clone, Copy)]
pub(crate) struct Place {
    pub(crate) host: u32,
    pub(crate) writer: u64,
    pub(crate) at: u64,
    pub(crate) len: u64,
}

/// A part of a read.
#[derive(Clone, Copy)]
pub(crate) enum Placed {
    /// So many zeros.
    Zeros { len: u64 },
    /// Bytes of a log.
    Logged(Place),
}

/// The dropping of this writer among droppings by ascending writer, where there is one.
pub fn found(droppings: &[Dropping], writer: u64) -> Option<Dropping>
    requires { AreByWriter droppings.now }
    ensures { result ≡ item_of (λ (d : Listed). d.writer) writer droppings.now }
{
    let place = droppings.partition_point(|dropping| dropping.writer < writer);
    if place < droppings.len() && droppings[place].writer == writer {
        Some(droppings[place])
    } else {
        None
    }
}

fn with_host(hosts: &[WriterHost], part: Part) -> Placed
    requires { AreHostsByWriter hosts.now }
    ensures { result ≡ placed hosts.now part }
{
    match part {
        Part::Hole { len } => Placed::Zeros { len },
        Part::From {
            writer,
            physical,
            len,
        } => Placed::Logged(Place {
            host: host_of(hosts, writer),
            writer,
            at: physical,
            len,
        }),
    }
}

/// The parts with the hosts of their writers.
pub(crate) fn place_all(
    alloc: Global,
    hosts: &[WriterHost],
    parts: &[Part],
) -> Result<Sequence<Placed>, NoMemory>
    requires { AreHostsByWriter hosts.now }
    ensures { IfOk result (λ all. all ≡ placed_all hosts.now parts.now) }
{
    let mut all = Vec::new(alloc);
    for part in parts {
        all.push(with_host(hosts, *part))?;
    }
    Ok(Sequence::from_vec(all))
}
