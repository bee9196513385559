//! The rows of the mount's table.
use index_buffer::Buffer;

/// How far a writer has come. It is live in every stage but the last.
#[derive(Clone, Copy, Debug, PartialEq, Eq)]
pub enum Stage {
    /// Its entry was made in the folder of who has the container open.
    Entered,
    /// Its floor was found.
    Floored,
    /// The folder of its droppings was made, or was there.
    Housed,
    /// Its index dropping was made, or was there.
    Indexed,
    /// Its log was made, or was there: it may write.
    Open,
    /// Its metadata dropping was asked for: it may only leave.
    Closing,
    /// Leaving failed, or it was stopped.
    Dead,
}

/// A writer in the table.
#[derive(Drop)]
pub struct Row {
    /// The mount's number times 2^32, and a serial.
    pub id: u64,
    /// The number of its container's room.
    pub room: u64,
    pub host: u32,
    /// The caller that it belongs to.
    pub owner: u64,
    /// The greatest stamp of the truncates that were there when it opened, or 0.
    pub floor: u64,
    /// The stamp of its last write, or 0.
    pub last: u64,
    /// How many bytes its writes have put into its log.
    pub stored: u64,
    /// The greatest logical end of its writes, or 0.
    pub end: u64,
    /// How many of its entries were flushed. A flush that failed may have put more into its index dropping.
    pub landed: u64,
    /// How many bytes it had stored as its log was last synced, or 0.
    pub log_mark: u64,
    /// How many of its entries were flushed as its index dropping was last synced, or 0.
    pub index_mark: u64,
    /// Its entries after those that were flushed.
    pub pending: Buffer,
    /// Whether the making of its metadata dropping was answered. One that failed may have made it too.
    pub has_meta: bool,
    pub stage: Stage,
}

/// A caller that holds a room, so that no writer enters it.
#[derive(Clone, Copy)]
pub struct Holder {
    /// The mount's number times 2^32, and a serial.
    pub number: u64,
    /// The caller that it belongs to.
    pub owner: u64,
    /// The number of the room that it holds.
    pub room: u64,
}

/// How far a flattening has come.
#[derive(Clone, Copy)]
pub enum FlatStage {
    /// Its temporary file was made, empty.
    Begun,
    /// Its bytes were written to the file.
    Put,
    /// The file was synced.
    Synced,
}

/// What a flattening makes.
#[derive(Clone, Copy)]
pub enum Making {
    /// A flattened index of its container.
    Flat,
    /// The packed index of this writer of this host.
    Pack { host: u32, writer: u64 },
}

/// A flattening in the table.
#[derive(Clone, Copy)]
pub struct Flattening {
    /// The mount's number times 2^32, and a serial.
    pub id: u64,
    /// The caller that it belongs to.
    pub owner: u64,
    /// The number of its container's room.
    pub room: u64,
    pub makes: Making,
    pub stage: FlatStage,
}
