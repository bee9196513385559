//! The covers of a flattened index, by their writers.
ghost use Rattle.std.specs.Prelude.{◌≡◌};
ghost use Rattle.index_reader.specs.Covered.{AreByWriter, cover_of as cover_for};
ghost use Rattle.index_reader.specs.Found.{item_of};
ghost use Rattle.plfs_types.specs.declared.entries.Cover.{Cover as Covered};

use plfs_types::{Cover, CoverList};
use std::marker::Model;

/// Covers by ascending writer.
#[derive(Drop)]
pub(crate) struct Covers {
    list: CoverList,
}

impl Model for Covers {
    ghost use Rattle.std.specs.Prelude.{List};
    ghost use Rattle.plfs_types.specs.declared.entries.Cover.{Cover};
    ghost use Rattle.index_reader.specs.Covered.{AreByWriter};

    ghost Value = { List Cover };

    ghost view = { λ c. c.list };

    ghost invariant = { λ c. AreByWriter c.list };
}

/// The cover of this writer, where there is one.
fn found(covers: &[Cover], writer: u64) -> Option<Cover>
    requires { AreByWriter covers.now }
    ensures { result ≡ item_of (λ (c : Covered). c.writer) writer covers.now }
{
    let place = covers.partition_point(|cover| cover.writer < writer);
    if place < covers.len() && covers[place].writer == writer {
        Some(covers[place])
    } else {
        None
    }
}

impl Covers {
    /// These covers.
    pub(crate) fn of(list: CoverList) -> Self
        requires { AreByWriter list }
        ensures { result ≡ list }
    {
        Covers { list }
    }

    /// The covers as a list.
    pub(crate) fn get(&self) -> &CoverList
        ensures { result.now ≡ self.now }
    {
        &self.list
    }

    /// The list, taken out.
    pub(crate) fn into_list(self) -> CoverList
        ensures value { result ≡ self }
        ensures order { AreByWriter self }
    {
        self.list
    }

    /// The cover of a writer, or one of no entries.
    pub(crate) fn of_writer(&self, writer: u64) -> Cover
        ensures { result ≡ cover_for writer self.now }
    {
        match found(self.list.as_slice(), writer) {
            Some(cover) => cover,
            None => Cover {
                writer,
                count: 0,
                bytes: 0,
                stamp: 0,
            },
        }
    }
}
