//! An open reader.
ghost use Rattle.std.specs.Prelude.{◌≡◌, ℕ, List, [], All, IfOk};
ghost use Rattle.plfs_types.specs.declared.entries.Entry.{Entry};
ghost use Rattle.plain_file.specs.declared.changes.Change.{Change};
ghost use Rattle.plain_file.specs.File.{HasItsBytes, plain_size};
ghost use Rattle.plain_file.specs.Keys.{KeysDiffer};
ghost use Rattle.plain_file.specs.Runs.{ArePieces};
ghost use Rattle.plain_file.specs.Shows.{entries_of, truncs_of};
ghost use Rattle.index_reader.specs.Listing.{AreByWriter};
ghost use Rattle.index_reader.specs.Covered.{AreByWriter as AreCoversByWriter};
ghost use Rattle.index_reader.specs.Hosts.{AreByWriter as AreHostsByWriter, hosts_of as hosts_told};
ghost use Rattle.index_reader.specs.Opened.{parts_of, reader_from};
ghost use Rattle.plain_file.specs.Size.{size_from};
ghost use Rattle.plain_file.specs.Sources.{source_at, kept_source};

use crate::covers::Covers;
use crate::gathered::Gathered;
use crate::hosts::{Hosts, hosts_of};
use flat_format::Flat;
use interval_merge::{clip, size};
use plain_file::{HostList, Pieces, ReaderParts};
use plfs_types::{CoverList, NoMemory, Trunc, TruncList};
use std::alloc::Global;

/// What an open reader keeps: where the bytes of its file lie.
#[derive(Drop)]
pub struct OpenReader {
    pub(crate) room: u64,
    pub(crate) hosts: Hosts,
    pub(crate) pieces: Pieces,
    pub(crate) size: u64,
    pub(crate) covers: Covers,
    pub(crate) truncs: TruncList,
}

/// The pieces that the truncates leave: the same where there is none.
fn clipped(alloc: Global, pieces: Pieces, truncs: &[Trunc]) -> Result<Pieces, NoMemory>
    ensures kept { IfOk result (λ clipped. (x : ℕ) → source_at clipped x ≡ kept_source truncs.now x (source_at pieces x)) }
    ensures truncated { IfOk result (λ clipped. (entries : List Entry) → ArePieces entries [] pieces → ArePieces entries truncs.now clipped) }
{
    if truncs.is_empty() {
        return Ok(pieces);
    }
    let clipped = clip(alloc, &pieces, truncs)?;
    Ok(clipped)
}

impl OpenReader {
    /// Opens what was gathered, with the droppings by ascending writer.
    pub fn new(alloc: Global, gathered: Gathered) -> Result<OpenReader, NoMemory>
        requires droppings { AreByWriter gathered.droppings }
        requires covers { AreCoversByWriter gathered.flat.covers }
        ensures room { IfOk result (λ reader. reader.room ≡ gathered.room) }
        ensures hosts { IfOk result (λ reader. reader.hosts ≡ hosts_told gathered.droppings) }
        ensures covers { IfOk result (λ reader. reader.covers ≡ gathered.flat.covers) }
        ensures truncs { IfOk result (λ reader. reader.truncs ≡ gathered.truncs) }
        ensures size { IfOk result (λ reader. reader.size ≡ size_from gathered.flat.pieces gathered.truncs) }
        // That is the size of the plain file.
        ensures plain { IfOk result (λ reader. (changes : List Change) → KeysDiffer (entries_of changes) → All HasItsBytes changes
            → ArePieces (entries_of changes) [] gathered.flat.pieces → gathered.truncs ≡ truncs_of changes → reader.size ≡ plain_size changes) }
        // Its pieces are what the truncates leave.
        ensures kept { IfOk result (λ reader. (x : ℕ) → source_at reader.pieces x ≡ kept_source gathered.truncs x (source_at gathered.flat.pieces x)) }
        // So they are the pieces of the same entries under the truncates.
        ensures truncated { IfOk result (λ reader. (entries : List Entry) → ArePieces entries [] gathered.flat.pieces → ArePieces entries gathered.truncs reader.pieces) }
    {
        let Gathered {
            room,
            flat,
            droppings,
            truncs,
        } = gathered;
        let Flat { covers, pieces } = flat;
        let size = size(&pieces, truncs.as_slice());
        let clipped = match clipped(alloc, pieces, truncs.as_slice()) {
            Ok(clipped) => clipped,
            Err(why) => {
                drop((covers, droppings, truncs));
                return Err(why);
            }
        };
        let hosts = hosts_of(alloc, droppings.as_slice());
        drop(droppings);
        let Ok(hosts) = hosts else {
            drop((covers, clipped, truncs));
            return Err(NoMemory);
        };
        Ok(OpenReader {
            room,
            hosts: Hosts::of(hosts),
            pieces: clipped,
            size,
            covers: Covers::of(covers),
            truncs,
        })
    }

    /// The reader of these parts, whose hosts and covers stand by ascending writer.
    pub fn of_parts(parts: ReaderParts) -> OpenReader
        requires hosts { AreHostsByWriter parts.hosts }
        requires covers { AreCoversByWriter parts.covers }
        ensures { result ≡ reader_from parts }
    {
        let ReaderParts {
            room,
            pieces,
            size,
            covers,
            truncs,
            hosts,
        } = parts;
        OpenReader {
            room,
            hosts: Hosts::of(hosts),
            pieces,
            size,
            covers: Covers::of(covers),
            truncs,
        }
    }

    /// Its parts.
    pub fn into_parts(self) -> ReaderParts
        ensures parts { result ≡ parts_of self }
        // The hosts stand by ascending writer.
        ensures hosts { AreHostsByWriter result.hosts }
        // So do the covers.
        ensures covers { AreCoversByWriter result.covers }
    {
        let OpenReader {
            room,
            hosts,
            pieces,
            size,
            covers,
            truncs,
        } = self;
        ReaderParts {
            room,
            pieces,
            size,
            covers: covers.into_list(),
            truncs,
            hosts: hosts.into_list(),
        }
    }

    /// The container's room.
    pub fn room(&self) -> u64
        ensures { result ≡ self.now.room }
    {
        self.room
    }

    /// The host of each writer that has a dropping.
    pub fn hosts(&self) -> &HostList
        ensures { result.now ≡ self.now.hosts }
    {
        self.hosts.get()
    }

    /// The size of the file.
    pub fn size(&self) -> u64
        ensures { result ≡ self.now.size }
    {
        self.size
    }

    /// The pieces of the file.
    pub fn pieces(&self) -> &Pieces
        ensures { result.now ≡ self.now.pieces }
    {
        &self.pieces
    }

    /// How many entries of each writer are in it.
    pub fn covers(&self) -> &CoverList
        ensures { result.now ≡ self.now.covers }
    {
        self.covers.get()
    }

    /// The truncates that are in it.
    pub fn truncs(&self) -> &TruncList
        ensures { result.now ≡ self.now.truncs }
    {
        &self.truncs
    }
}
