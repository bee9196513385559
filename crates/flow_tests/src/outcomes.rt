//! How machines end, as text.
use crate::spelling::{pair, trouble};
use attr_flow::{Attr, AttrOut};
use index_reader::{Listing, Share};
use migrate_core::Migrated;
use mount_model::Stuck;
use plain_file::ReaderParts;
use plfs_types::{Bytes, TruncList};
use refresh_index::RefreshOut;
use test_lines::Line;
use torn_tail::Recovered;
use writer_flow::{WriterHandle, WriterOut};

/// What comes of a machine, as text.
pub(crate) trait Tell {
    fn tell(&self, line: &mut Line);
}

impl<T: Tell> Tell for Result<T, Stuck> {
    fn tell(&self, line: &mut Line) {
        match self {
            Ok(made) => made.tell(line),
            Err(why) => trouble(line, why),
        }
    }
}

// What greets ends with a number.
impl Tell for u8 {
    fn tell(&self, line: &mut Line) {
        line.say("answer ", u64::from(*self));
    }
}

// The stamp of a truncate.
impl Tell for u64 {
    fn tell(&self, line: &mut Line) {
        line.say("stamp ", *self);
    }
}

impl Tell for () {
    fn tell(&self, line: &mut Line) {
        line.push("renamed");
    }
}

impl Tell for Bytes {
    fn tell(&self, line: &mut Line) {
        line.letters("", self.as_slice());
    }
}

impl Tell for TruncList {
    fn tell(&self, line: &mut Line) {
        line.push("truncates");
        for t in self.as_slice() {
            pair(line, t.stamp, ":", t.size);
        }
    }
}

// The size of the file, the bytes that are stored, whose they are, and its truncates.
impl Tell for Attr {
    fn tell(&self, line: &mut Line) {
        line.say("size ", self.size);
        line.say(" stored ", u64::try_from(self.stored).unwrap_or(0));
        for share in self.shares.as_slice() {
            pair(line, share.writer, "=", share.bytes);
        }
        line.push(" ");
        self.truncs.tell(line);
    }
}

impl Tell for AttrOut {
    fn tell(&self, line: &mut Line) {
        match self {
            AttrOut::MustMerge { room } => line.say("merge ", *room),
            AttrOut::Cached(attr) => attr.tell(line),
        }
    }
}

impl Tell for Recovered {
    fn tell(&self, line: &mut Line) {
        line.push("buried");
        for buried in self.buried.as_slice() {
            pair(line, buried.writer, ":", buried.count);
        }
        line.push(" alive");
        for writer in self.alive.as_slice() {
            line.say(" ", *writer);
        }
        line.push(if self.hold { " made" } else { " whole" });
    }
}

impl Tell for Migrated {
    fn tell(&self, line: &mut Line) {
        line.say("migrated ", self.writers);
        line.say(" ", u64::try_from(self.entries).unwrap_or(0));
        line.say(" ", u64::try_from(self.runs).unwrap_or(0));
        line.say(" left ", self.left);
    }
}

impl Tell for Listing {
    fn tell(&self, line: &mut Line) {
        line.say("droppings ", self.droppings.as_slice().len() as u64);
        for cover in self.flat.covers.as_slice() {
            pair(line, cover.writer, ":", cover.count);
        }
    }
}

// The count of each writer's entries, and where the pieces are that they have.
impl Tell for Share {
    fn tell(&self, line: &mut Line) {
        line.push("share");
        for cover in self.covers.as_slice() {
            pair(line, cover.writer, ":", cover.count);
        }
        for piece in self.pieces.as_slice() {
            pair(line, piece.at, "+", piece.len);
        }
    }
}

// The writer, the capacity, and how many are pending and have landed.
impl Tell for WriterHandle {
    fn tell(&self, line: &mut Line) {
        line.say(if self.closing { "closing " } else { "open " }, self.writer);
        line.say(" ", u64::from(self.cap));
        pair(line, self.pending, " ", self.landed);
    }
}

impl Tell for WriterOut {
    fn tell(&self, line: &mut Line) {
        match &self.handle {
            Some(handle) => handle.tell(line),
            None => line.push("left"),
        }
        line.push(" ");
        match &self.result {
            Ok(number) => line.say("ok ", *number),
            Err(why) => trouble(line, why),
        }
    }
}

// The size of the file, each writer's host, how many of whose entries are held, and where the pieces are.
impl Tell for ReaderParts {
    fn tell(&self, line: &mut Line) {
        line.say("size ", self.size);
        for host in self.hosts.as_slice() {
            pair(line, host.writer, "/", host.host as u64);
        }
        for cover in self.covers.as_slice() {
            pair(line, cover.writer, ":", cover.count);
        }
        for piece in self.pieces.as_slice() {
            pair(line, piece.at, "+", piece.len);
        }
        line.push(" ");
        self.truncs.tell(line);
    }
}

impl Tell for RefreshOut {
    fn tell(&self, line: &mut Line) {
        match &self.result {
            Ok(()) => line.push("refreshed"),
            Err(why) => trouble(line, why),
        }
        line.push(", ");
        self.parts.tell(line);
    }
}
