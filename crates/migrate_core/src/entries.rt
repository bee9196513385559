//! The entries of an index dropping, which are checked in order.
ghost use Rattle.std.specs.Prelude.{◌≡◌, ◌+◌, ◌<◌, ◌^◌, true, OnOk, IfOk};
ghost use Rattle.mount_model.specs.Entries.{is_next as next_of};
ghost use Rattle.migrate_core.specs.Entries.{no_entries, longer as longer_of, checked as checked_of, IsTold};

use mount_model::{first_entry, is_next, past_first};
use plfs_types::{Cover, Entry, EntryList, NoMemory};
use std::alloc::Global;
use std::marker::Model;

/// What was read of an index dropping: the entries, and a cover of them.
#[derive(Drop)]
pub(crate) struct Tail {
    pub(crate) cover: Cover,
    pub(crate) entries: EntryList,
}

/// The same, of which the cover tells. The entries keep all rules of their writer's. In contracts it is the plain tail.
#[derive(Drop)]
pub(crate) struct Told {
    tail: Tail,
}

impl Model for Told {
    ghost use Rattle.migrate_core.specs.declared.entries.Tail.{Tail};
    ghost use Rattle.migrate_core.specs.Entries.{IsTold};

    ghost Value = { Tail };

    ghost view = { λ told. told.tail };

    ghost invariant = { λ told. IsTold told.tail };
}

impl Told {
    /// None of this writer's entries.
    #[tactic(auto, using(crate::proofs::EntryLemmas::told_none))]
    pub(crate) fn none(alloc: Global, writer: u64) -> Self
        ensures { result ≡ no_entries writer }
    {
        Told {
            tail: Tail {
                cover: Cover {
                    writer,
                    count: 0,
                    bytes: 0,
                    stamp: 0,
                },
                entries: EntryList::new(alloc),
            },
        }
    }

    /// What was read.
    pub(crate) fn get(&self) -> &Tail
        ensures value { result.now ≡ self.now }
        ensures told { IsTold self.now }
    {
        &self.tail
    }

    /// How many entries it has.
    pub(crate) fn count(&self) -> u64
        ensures { result ≡ self.now.cover.count }
    {
        self.tail.cover.count
    }

    /// With the first of so many entries that these bytes have, or the place in the index dropping of the first one that
    /// doesn't follow or isn't there whole.
    pub(crate) fn checked(self, count: u64, bytes: &[u8]) -> Result<Result<Told, u64>, NoMemory>
        requires { self.cover.count + count < 2 ^ 32 }
        ensures checked { IfOk result (λ went. went ≡ checked_of count bytes.now self) }
        ensures count { IfOk result (λ went. IfOk went (λ more. more.cover.count ≡ self.cover.count + count)) }
    {
        let mut tail = self.tail;
        let mut rest = bytes;
        let mut left = count;
        while left > 0 {
            if rest.len() < 40 {
                return Ok(Err(40 * tail.cover.count));
            }
            let entry = first_entry(rest);
            if !is_next(&tail.cover, &entry) {
                return Ok(Err(40 * tail.cover.count));
            }
            tail.push(entry)?;
            rest = past_first(rest);
            left -= 1;
        }
        Ok(Ok(Told { tail }))
    }
}

impl Tail {
    /// Goes on with an entry that follows.
    #[tactic(auto, using(crate::proofs::EntryLemmas::next_rules))]
    fn push(&mut self, entry: Entry) -> Result<(), NoMemory>
        requires next { next_of self.old.cover entry ≡ true }
        requires count { self.old.cover.count + 1 < 2 ^ 64 }
        ensures { OnOk result (self.new ≡ longer_of entry self.old) }
    {
        self.entries.push(entry)?;
        self.cover = Cover {
            writer: self.cover.writer,
            count: self.cover.count + 1,
            bytes: self.cover.bytes + entry.len,
            stamp: entry.stamp,
        };
        Ok(())
    }
}
