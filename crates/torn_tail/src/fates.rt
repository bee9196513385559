//! What becomes of a writer that has the container open.

/// What became of a writer.
#[derive(Clone, Copy)]
pub(crate) enum Fate {
    /// It is live, and stays.
    Lives,
    /// It was buried, with so many landed entries.
    Buried(u64),
}
