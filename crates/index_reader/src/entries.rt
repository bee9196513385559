//! The entries of an index dropping, which are checked in order.
ghost use Rattle.std.specs.Prelude.{All, ◌≡◌, ◌+◌, ◌*◌, ◌≤◌, ◌<◌, ◌^◌, length, true, OnOk, IfOk};
ghost use Rattle.mount_model.specs.Entries.{is_next as next_of};
ghost use Rattle.index_reader.specs.declared.entries.Went.TheVariants.{On};
ghost use Rattle.interval_merge.specs.Writer.{HasPiece};
ghost use Rattle.index_reader.specs.Entries.{longer as longer_of, checked};

use mount_model::{first_entry, is_next, past_first};
use plfs_types::{Cover, ENTRY_SIZE, Entry, EntryList, NoMemory};

/// What was read of an index dropping: the entries that a flattened index doesn't cover, and a cover of all.
#[derive(Drop)]
pub struct Tail {
    pub cover: Cover,
    pub entries: EntryList,
}

/// How far the checking of entries went.
#[derive(Clone, Copy)]
pub(crate) enum Went {
    /// All are there.
    On,
    /// The next one ends past the log, so it and all after it count as not there.
    Ends,
    /// The next one breaks a rule.
    Breaks,
}

impl Tail {
    /// Goes on with an entry that follows.
    fn push(&mut self, entry: Entry) -> Result<(), NoMemory>
        requires next { next_of self.old.cover entry ≡ true }
        requires count { self.old.cover.count + 1 < 2 ^ 64 }
        requires pieces { All HasPiece self.old.entries }
        ensures longer { OnOk result (self.new ≡ longer_of entry self.old) }
        ensures pieces { OnOk result (All HasPiece self.new.entries) }
    {
        self.entries.push(entry)?;
        self.cover = Cover {
            writer: self.cover.writer,
            count: self.cover.count + 1,
            bytes: self.cover.bytes + entry.len,
            stamp: entry.stamp,
        };
        Ok(())
    }

    /// Goes on with the first of so many entries of these bytes, up to one that doesn't follow or ends past so many
    /// bytes of the log.
    pub(crate) fn check(&mut self, log: u64, count: usize, bytes: &[u8]) -> Result<Went, NoMemory>
        requires bytes { ENTRY_SIZE * count ≤ length bytes.now }
        requires count { self.old.cover.count + count < 2 ^ 64 }
        requires pieces { All HasPiece self.old.entries }
        ensures checked { IfOk result (λ went. (went, self.new) ≡ checked log count bytes.now self.old) }
        ensures count { IfOk result (λ went. went ≡ On → self.new.cover.count ≡ self.old.cover.count + count) }
        ensures most { OnOk result (self.new.cover.count ≤ self.old.cover.count + count) }
        ensures pieces { OnOk result (All HasPiece self.new.entries) }
    {
        let mut rest = bytes;
        let mut left = count;
        while left > 0 {
            let entry = first_entry(rest);
            if !is_next(&self.cover, &entry) {
                return Ok(Went::Breaks);
            }
            if entry.physical + entry.len > log {
                return Ok(Went::Ends);
            }
            self.push(entry)?;
            rest = past_first(rest);
            left -= 1;
        }
        Ok(Went::On)
    }
}
