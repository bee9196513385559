//! Items and lists that stand within a word, from the front of a text.
ghost use Rattle.std.specs.Prelude.{◌==◌, ℕ, List, Option};
ghost use Rattle.std.specs.List.{slice_split};
ghost use Rattle.report_text.specs.Reading.{GivesAsText, pair_at, count_at, share_at, trunc_at, number_spelled, piece_at, short_at, all_at, list_at, list_field};

use crate::fields::{cut, number_before, number_of, parts};
use crate::trouble::Trouble;
use plfs_types::{Entry, Name, Sequence, ShareBytes, Trunc, WriterCount};
use std::alloc::Global;

// An item that is read from its text.
pub trait Readable: Drop {
    ghost read_at: { List ℕ → Option Self };

    fn read(text: &[u8]) -> Result<Self, Trouble>
        ensures { GivesAsText (λ item. item) result (read_at text.now) };
}

#[tactic(auto, unfolding(crate::specs::Reading::pair_at))]
fn pair_of(text: &[u8]) -> Result<(u64, u64), Trouble>
    ensures { GivesAsText (λ pair. (pair.0, pair.1)) result (pair_at text.now) }
{
    let (first, second) = cut(text, b':')?;
    let first = number_of(first)?;
    let second = number_of(second)?;
    Ok((first, second))
}

impl Readable for WriterCount {
    ghost read_at = { count_at };

    #[tactic(auto, unfolding(crate::specs::Reading::count_at))]
    fn read(text: &[u8]) -> Result<Self, Trouble> {
        let (writer, count) = pair_of(text)?;
        Ok(WriterCount { writer, count })
    }
}

impl Readable for ShareBytes {
    ghost read_at = { share_at };

    #[tactic(auto, unfolding(crate::specs::Reading::share_at))]
    fn read(text: &[u8]) -> Result<Self, Trouble> {
        let (writer, bytes) = pair_of(text)?;
        Ok(ShareBytes { writer, bytes })
    }
}

impl Readable for Trunc {
    ghost read_at = { trunc_at };

    #[tactic(auto, unfolding(crate::specs::Reading::trunc_at))]
    fn read(text: &[u8]) -> Result<Self, Trouble> {
        let (stamp, size) = pair_of(text)?;
        Ok(Trunc { stamp, size })
    }
}

impl Readable for u64 {
    ghost read_at = { number_spelled };

    fn read(text: &[u8]) -> Result<Self, Trouble> {
        number_of(text)
    }
}

impl Readable for Entry {
    ghost read_at = { piece_at };

    #[tactic(auto, unfolding(crate::specs::Reading::piece_at))]
    fn read(text: &[u8]) -> Result<Self, Trouble> {
        let (at, rest) = number_before(text, b'+')?;
        let (len, rest) = number_before(rest, b'=')?;
        let (stamp, rest) = number_before(rest, b'.')?;
        let (writer, rest) = number_before(rest, b'@')?;
        let physical = number_of(rest)?;
        Ok(Entry {
            at,
            len,
            physical,
            stamp,
            writer,
        })
    }
}

impl Readable for Name {
    ghost read_at = { short_at };

    #[tactic(auto, unfolding(crate::specs::Reading::short_at))]
    fn read(text: &[u8]) -> Result<Self, Trouble> {
        let Some(name) = Name::from_bytes(text) else {
            return Err(Trouble::Bad);
        };
        Ok(name)
    }
}

// The items between such bytes.
fn all_of<T: Readable>(alloc: Global, text: &[u8], separator: u8) -> Result<Sequence<T>, Trouble>
    ensures { GivesAsText (λ items. items) result (all_at T.read_at (slice_split (λ b. b == separator) text.now)) }
{
    let mut items = Sequence::new(alloc);
    let mut rest = text;
    while let Some((item, others)) = parts(rest, separator) {
        items.push(T::read(item)?)?;
        rest = others;
    }
    items.push(T::read(rest)?)?;
    Ok(items)
}

// The same, or none at a dash.
#[tactic(auto, unfolding(crate::specs::Reading::list_at))]
pub fn list_of<T: Readable>(
    alloc: Global,
    text: &[u8],
    separator: u8,
) -> Result<Sequence<T>, Trouble>
    ensures { GivesAsText (λ items. items) result (list_at separator T.read_at text.now) }
{
    if text == b"-".as_slice() {
        return Ok(Sequence::new(alloc));
    }
    all_of(alloc, text, separator)
}

// A list between commas before a space, and what stands behind that.
#[tactic(auto, unfolding(crate::specs::Reading::list_field))]
pub fn list_field<T: Readable>(alloc: Global, bytes: &[u8]) -> Result<(Sequence<T>, &[u8]), Trouble>
    ensures { GivesAsText (λ p. (p.0, p.1.now)) result (list_field T.read_at bytes.now) }
{
    let (word, rest) = cut(bytes, b' ')?;
    let items = list_of(alloc, word, b',')?;
    Ok((items, rest))
}
