//! Fields from the front of a text.
ghost use Rattle.std.specs.Prelude.{◌≡◌, ℕ, ◌<◌, ◌^◌, ◌==◌, Some, IfSome, option_map, position, length};
ghost use Rattle.std.specs.Fmt.{decimal};
ghost use Rattle.report_text.specs.Reading.{GivesAsText, cut, number_spelled, wide_at, number_before, number_field, behind_word, stamp_spelled, yes_at};

use crate::trouble::Trouble;
use itoa::Buffer;
use plfs_types::read_decimal;
use std::str;

fn place_of(bytes: &[u8], separator: u8) -> Option<usize>
    ensures value { result ≡ position (λ b. b == separator) bytes.now }
    ensures within { IfSome result (λ place. place < length bytes.now) }
{
    bytes.iter().position(|byte| *byte == separator)
}

// What stands before the first such byte, and behind it.
#[tactic(auto, unfolding(crate::specs::Reading::cut))]
pub fn parts(bytes: &[u8], separator: u8) -> Option<(&[u8], &[u8])>
    ensures { option_map (λ p. (p.0.now, p.1.now)) result ≡ cut separator bytes.now }
{
    let Some(place) = place_of(bytes, separator) else {
        return None;
    };
    Some((&bytes[..place], &bytes[place + 1..]))
}

pub fn cut(bytes: &[u8], separator: u8) -> Result<(&[u8], &[u8]), Trouble>
    ensures { GivesAsText (λ p. (p.0.now, p.1.now)) result (cut separator bytes.now) }
{
    let Some(found) = parts(bytes, separator) else {
        return Err(Trouble::Bad);
    };
    Ok(found)
}

pub fn number_of(word: &[u8]) -> Result<u64, Trouble>
    ensures { GivesAsText (λ n. n) result (number_spelled word.now) }
{
    let Some(number) = read_decimal(word) else {
        return Err(Trouble::Bad);
    };
    Ok(number)
}

// The same below 2^128.
fn wide_number(bytes: &[u8]) -> Option<u128>
    ensures found { IfSome result (λ n. bytes.now ≡ decimal n) }
    ensures exact { (n : ℕ) → n < 2 ^ 128 → bytes.now ≡ decimal n → result ≡ Some n }
{
    let Ok(text) = str::from_utf8(bytes) else {
        return None;
    };
    let Ok(number) = text.parse::<u128>() else {
        return None;
    };
    let mut buffer = Buffer::new();
    if buffer.format(number).as_bytes() != bytes {
        return None;
    }
    Some(number)
}

pub fn wide_of(word: &[u8]) -> Result<u128, Trouble>
    ensures { GivesAsText (λ n. n) result (wide_at word.now) }
{
    let Some(number) = wide_number(word) else {
        return Err(Trouble::Bad);
    };
    Ok(number)
}

// A number before such a byte, and what stands behind that.
#[tactic(auto, unfolding(crate::specs::Reading::number_before))]
pub fn number_before(bytes: &[u8], separator: u8) -> Result<(u64, &[u8]), Trouble>
    ensures { GivesAsText (λ p. (p.0, p.1.now)) result (number_before separator bytes.now) }
{
    let (word, rest) = cut(bytes, separator)?;
    let number = number_of(word)?;
    Ok((number, rest))
}

#[tactic(auto, unfolding(crate::specs::Reading::number_field))]
pub fn number_field(bytes: &[u8]) -> Result<(u64, &[u8]), Trouble>
    ensures { GivesAsText (λ p. (p.0, p.1.now)) result (number_field bytes.now) }
{
    let (word, rest) = cut(bytes, b' ')?;
    let number = number_of(word)?;
    Ok((number, rest))
}

// What stands behind this word and a space.
#[tactic(auto, unfolding(crate::specs::Reading::behind_word))]
pub fn behind_word<'a>(bytes: &'a [u8], word: &[u8]) -> Result<&'a [u8], Trouble>
    ensures { GivesAsText (λ rest. rest.now) result (behind_word word.now bytes.now) }
{
    let (first, rest) = cut(bytes, b' ')?;
    if first != word {
        return Err(Trouble::Bad);
    }
    Ok(rest)
}

#[tactic(auto, unfolding(crate::specs::Reading::stamp_spelled))]
pub fn stamp_of(word: &[u8]) -> Result<Option<u64>, Trouble>
    ensures { GivesAsText (λ stamp. stamp) result (stamp_spelled word.now) }
{
    if word == b"-".as_slice() {
        return Ok(None);
    }
    let stamp = number_of(word)?;
    Ok(Some(stamp))
}

#[tactic(auto, unfolding(crate::specs::Reading::yes_at))]
pub fn yes_of(word: &[u8]) -> Result<bool, Trouble>
    ensures { GivesAsText (λ yes. yes) result (yes_at word.now) }
{
    if word == b"yes".as_slice() {
        return Ok(true);
    }
    if word == b"no".as_slice() {
        return Ok(false);
    }
    Err(Trouble::Bad)
}
