//! Outcomes from their words.
ghost use Rattle.report_text.specs.Reading.{GivesAsText};
ghost use Rattle.report_text.specs.ReadingOutcomes.{wrote_at, reader_at, read_at, map_at, stat_at, flattened_at, recovered_at, names_spelled, damaged_at, busy_at, why_at, plain_at, counted_at, told_at, outcome_at};

use crate::fields::{behind_word, cut, number_field, number_of, parts, stamp_of, wide_of, yes_of};
use crate::reading_items::{list_field, list_of};
use crate::reading_names::{content_of, place_of};
use crate::trouble::Trouble;
use script_lang::{Outcome, Why};
use std::alloc::Global;

#[tactic(auto, unfolding(crate::specs::ReadingOutcomes::wrote_at))]
fn wrote(bytes: &[u8]) -> Result<Outcome, Trouble>
    ensures { GivesAsText (λ o. o) result (wrote_at bytes.now) }
{
    let (at, rest) = number_field(bytes)?;
    let (len, rest) = number_field(rest)?;
    let stamp = stamp_of(rest)?;
    Ok(Outcome::Wrote { at, len, stamp })
}

#[tactic(auto, unfolding(crate::specs::ReadingOutcomes::reader_at))]
fn reader(alloc: Global, bytes: &[u8]) -> Result<Outcome, Trouble>
    ensures { GivesAsText (λ o. o) result (reader_at bytes.now) }
{
    let (size, rest) = number_field(bytes)?;
    let rest = behind_word(rest, b"cut")?;
    let (cut, rest) = list_field(alloc, rest)?;
    let rest = behind_word(rest, b"trunc")?;
    let truncs = list_of(alloc, rest, b',')?;
    Ok(Outcome::Reader { size, cut, truncs })
}

#[tactic(auto, unfolding(crate::specs::ReadingOutcomes::read_at))]
fn read(alloc: Global, bytes: &[u8]) -> Result<Outcome, Trouble>
    ensures { GivesAsText (λ o. o) result (read_at bytes.now) }
{
    let (at, rest) = number_field(bytes)?;
    let content = content_of(alloc, rest)?;
    Ok(Outcome::Read { at, content })
}

#[tactic(auto, unfolding(crate::specs::ReadingOutcomes::map_at))]
fn map(alloc: Global, bytes: &[u8]) -> Result<Outcome, Trouble>
    ensures { GivesAsText (λ o. o) result (map_at bytes.now) }
{
    let pieces = list_of(alloc, bytes, b' ')?;
    Ok(Outcome::Map { pieces })
}

#[tactic(auto, unfolding(crate::specs::ReadingOutcomes::stat_at))]
fn stat(alloc: Global, bytes: &[u8]) -> Result<Outcome, Trouble>
    ensures { GivesAsText (λ o. o) result (stat_at bytes.now) }
{
    let (size, rest) = number_field(bytes)?;
    let (stored, rest) = cut(rest, b' ')?;
    let stored = wide_of(stored)?;
    let rest = behind_word(rest, b"by")?;
    let (shares, rest) = list_field(alloc, rest)?;
    let rest = behind_word(rest, b"trunc")?;
    let truncs = list_of(alloc, rest, b',')?;
    Ok(Outcome::Stat {
        size,
        stored,
        shares,
        truncs,
    })
}

#[tactic(auto, unfolding(crate::specs::ReadingOutcomes::flattened_at))]
fn flattened(alloc: Global, bytes: &[u8]) -> Result<Outcome, Trouble>
    ensures { GivesAsText (λ o. o) result (flattened_at bytes.now) }
{
    let (flat, rest) = number_field(bytes)?;
    let (pieces, rest) = number_field(rest)?;
    let rest = behind_word(rest, b"cut")?;
    let cut = list_of(alloc, rest, b',')?;
    Ok(Outcome::Flattened { flat, pieces, cut })
}

#[tactic(auto, unfolding(crate::specs::ReadingOutcomes::recovered_at))]
fn recovered(alloc: Global, bytes: &[u8]) -> Result<Outcome, Trouble>
    ensures { GivesAsText (λ o. o) result (recovered_at bytes.now) }
{
    let (buried, rest) = list_field(alloc, bytes)?;
    let rest = behind_word(rest, b"alive")?;
    let (alive, rest) = list_field(alloc, rest)?;
    let rest = behind_word(rest, b"hold")?;
    let hold = yes_of(rest)?;
    Ok(Outcome::Recovered {
        buried,
        alive,
        hold,
    })
}

#[tactic(auto, unfolding(crate::specs::ReadingOutcomes::names_spelled))]
fn listed(alloc: Global, bytes: &[u8]) -> Result<Outcome, Trouble>
    ensures { GivesAsText (λ o. o) result (names_spelled bytes.now) }
{
    let names = list_of(alloc, bytes, b',')?;
    Ok(Outcome::Listed { names })
}

#[tactic(auto, unfolding(crate::specs::ReadingOutcomes::damaged_at))]
fn damaged(alloc: Global, bytes: &[u8]) -> Result<Outcome, Trouble>
    ensures { GivesAsText (λ o. o) result (damaged_at bytes.now) }
{
    let (word, rest) = cut(bytes, b' ')?;
    let (folder, file) = place_of(alloc, word)?;
    let place = number_of(rest)?;
    Ok(Outcome::Damaged {
        folder,
        file,
        place,
    })
}

#[tactic(auto, unfolding(crate::specs::ReadingOutcomes::busy_at))]
fn busy(bytes: &[u8]) -> Result<Why, Trouble>
    ensures { GivesAsText (λ why. why) result (busy_at bytes.now) }
{
    let rest = behind_word(bytes, b"busy")?;
    let (host, rest) = number_field(rest)?;
    let writer = number_of(rest)?;
    if host >= 1 << 32 {
        return Err(Trouble::Bad);
    }
    Ok(Why::Busy {
        host: host as u32,
        writer,
    })
}

#[tactic(auto, unfolding(crate::specs::ReadingOutcomes::why_at))]
fn why(word: &[u8]) -> Result<Why, Trouble>
    ensures { GivesAsText (λ why. why) result (why_at word.now) }
{
    if word == b"no-file".as_slice() {
        return Ok(Why::NoFile);
    }
    if word == b"held".as_slice() {
        return Ok(Why::Held);
    }
    if word == b"exists".as_slice() {
        return Ok(Why::Exists);
    }
    if word == b"too-far".as_slice() {
        return Ok(Why::TooFar);
    }
    if word == b"stamps-spent".as_slice() {
        return Ok(Why::StampsSpent);
    }
    if word == b"ids-spent".as_slice() {
        return Ok(Why::IdsSpent);
    }
    if word == b"not-open".as_slice() {
        return Ok(Why::NotOpen);
    }
    if word == b"already-open".as_slice() {
        return Ok(Why::AlreadyOpen);
    }
    if word == b"mounts-spent".as_slice() {
        return Ok(Why::MountsSpent);
    }
    busy(word)
}

#[tactic(auto, unfolding(crate::specs::ReadingOutcomes::plain_at))]
fn plain(word: &[u8]) -> Result<Outcome, Trouble>
    ensures { GivesAsText (λ o. o) result (plain_at word.now) }
{
    if word == b"same".as_slice() {
        return Ok(Outcome::Same);
    }
    if word == b"rclosed".as_slice() {
        return Ok(Outcome::ReaderClosed);
    }
    if word == b"renamed".as_slice() {
        return Ok(Outcome::Renamed);
    }
    if word == b"armed".as_slice() {
        return Ok(Outcome::Armed);
    }
    if word == b"stopped".as_slice() {
        return Ok(Outcome::Stopped);
    }
    if word == b"gone".as_slice() {
        return Ok(Outcome::Gone);
    }
    if word == b"fault".as_slice() {
        return Ok(Outcome::Fault);
    }
    Err(Trouble::Bad)
}

#[tactic(auto, unfolding(crate::specs::ReadingOutcomes::counted_at))]
fn counted(word: &[u8], bytes: &[u8]) -> Result<Outcome, Trouble>
    ensures { GivesAsText (λ o. o) result (counted_at word.now bytes.now) }
{
    let number = number_of(bytes)?;
    if word == b"open".as_slice() {
        return Ok(Outcome::Opened { writer: number });
    }
    if word == b"synced".as_slice() {
        return Ok(Outcome::Synced { landed: number });
    }
    if word == b"closed".as_slice() {
        return Ok(Outcome::Closed { landed: number });
    }
    if word == b"differs".as_slice() {
        return Ok(Outcome::Differs { place: number });
    }
    if word == b"truncated".as_slice() {
        return Ok(Outcome::Truncated { stamp: number });
    }
    Err(Trouble::Bad)
}

#[tactic(auto, unfolding(crate::specs::ReadingOutcomes::told_at))]
fn told(alloc: Global, word: &[u8], bytes: &[u8]) -> Result<Outcome, Trouble>
    ensures { GivesAsText (λ o. o) result (told_at word.now bytes.now) }
{
    if word == b"wrote".as_slice() {
        return wrote(bytes);
    }
    if word == b"reader".as_slice() {
        return reader(alloc, bytes);
    }
    if word == b"read".as_slice() {
        return read(alloc, bytes);
    }
    if word == b"map".as_slice() {
        return map(alloc, bytes);
    }
    if word == b"stat".as_slice() {
        return stat(alloc, bytes);
    }
    if word == b"flattened".as_slice() {
        return flattened(alloc, bytes);
    }
    if word == b"recovered".as_slice() {
        return recovered(alloc, bytes);
    }
    if word == b"ls".as_slice() {
        return listed(alloc, bytes);
    }
    if word == b"damaged".as_slice() {
        return damaged(alloc, bytes);
    }
    if word == b"refused".as_slice() {
        let why = why(bytes)?;
        return Ok(Outcome::Refused { why });
    }
    counted(word, bytes)
}

// An outcome, by its first word.
#[tactic(auto, unfolding(crate::specs::ReadingOutcomes::outcome_at, crate::specs::ReadingOutcomes::by_words))]
pub fn outcome(alloc: Global, bytes: &[u8]) -> Result<Outcome, Trouble>
    ensures { GivesAsText (λ o. o) result (outcome_at bytes.now) }
{
    let Some((word, rest)) = parts(bytes, b' ') else {
        return plain(bytes);
    };
    told(alloc, word, rest)
}
