//! The pending entries of a writer.
ghost use Rattle.std.specs.Prelude.{◌≡◌, ◌<◌, ◌≤◌, ◌++◌, [], ◌∷◌, length, All, IfOk};
ghost use Rattle.index_entry.specs.Spelling.{Spells, spelling_all};
ghost use Rattle.index_entry.specs.Valid.{IsValidEntry};

use index_entry::encode;
use plfs_types::{ENTRY_SIZE, Entry, NoMemory};
use std::alloc::Global;
use std::marker::Model;

/// The entries that have not landed, in the order of their writes, at most `capacity` of them.
#[derive(Drop)]
pub struct Buffer {
    bytes: Vec<u8>,
    capacity: u32,
}

impl Model for Buffer {
    ghost use Rattle.index_buffer.specs.Pending.{Pending};

    ghost Value = { Pending };

    ghost use Rattle.index_buffer.specs.Held.{pending_of, IsBuffer};

    ghost view = { pending_of };

    ghost invariant = { IsBuffer };
}

impl Buffer {
    /// A buffer for so many entries, 1 to 4096, with nothing pending. It takes all of its memory, 40
    /// bytes an entry, and `NoMemory` comes only where that is refused.
    pub fn new(alloc: Global, capacity: u32) -> Result<Self, NoMemory>
        requires some { 1 ≤ capacity }
        requires few { capacity ≤ 4096 }
        ensures { IfOk result (λ buffer. buffer ≡ record { entries = []; capacity = capacity }) }
    {
        let bytes = Vec::with_capacity(alloc, ENTRY_SIZE * capacity as usize)?;
        Ok(Buffer { bytes, capacity })
    }

    /// Adds a valid entry behind those that are pending, which are fewer than the capacity. It takes no
    /// memory.
    pub fn push(&mut self, entry: &Entry)
        requires valid { IsValidEntry entry.now }
        requires room { length self.old.entries < self.old.capacity }
        ensures { self.new ≡ record self.old { entries = self.old.entries ++ entry.now ∷ [] } }
    {
        let _ = self.bytes.extend_from_slice(&encoded(*entry));
    }

    /// How many entries were pushed since `clear`.
    pub fn pending(&self) -> u64
        ensures count { result ≡ length self.now.entries }
        ensures within { result ≤ self.now.capacity }
    {
        self.bytes.len() as u64 / ENTRY_SIZE as u64
    }

    /// The most entries that can be pending, 1 to 4096.
    pub fn capacity(&self) -> u32
        ensures same { result ≡ self.now.capacity }
        ensures some { 1 ≤ result }
        ensures few { result ≤ 4096 }
    {
        self.capacity
    }

    /// The pending entries as bytes, 40 an entry, in the order in which they were pushed.
    pub fn bytes(&self) -> &[u8]
        ensures encoded { result.now ≡ spelling_all self.now.entries }
        ensures valid { All IsValidEntry self.now.entries }
    {
        self.bytes.as_slice()
    }

    /// Lets all entries go, and keeps the memory.
    pub fn clear(&mut self)
        ensures { self.new ≡ record self.old { entries = [] } }
    {
        self.bytes.clear();
    }
}

/// The bytes of a valid entry, and of no other.
fn encoded(entry: Entry) -> [u8; ENTRY_SIZE]
    requires { IsValidEntry entry }
    ensures { Spells result entry }
{
    encode(&entry)
}
