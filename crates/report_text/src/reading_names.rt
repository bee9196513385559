//! Contents and names from their texts.
ghost use Rattle.std.specs.Prelude.{◌≡◌, ◌<◌, ◌≤◌, length, IfSome, IfOk};
ghost use Rattle.hex.specs.Hex.{hex_digit_value};
ghost use Rattle.report_text.specs.Reading.{GivesAsText, content_at, escape_at, byte_at, name_at, short_name_at, place_at};

use crate::fields::parts;
use crate::trouble::Trouble;
use hex::FromHexError;
use plfs_types::{Bytes, Name};
use std::alloc::Global;

// Bytes from pairs of digits, or none at a dash.
#[tactic(auto, unfolding(crate::specs::Reading::content_at))]
pub fn content_of(alloc: Global, text: &[u8]) -> Result<Bytes, Trouble>
    ensures { GivesAsText (λ content. content) result (content_at text.now) }
{
    if text == b"-".as_slice() {
        return Ok(Bytes::new(alloc));
    }
    match hex::decode(alloc, text) {
        Ok(content) => Ok(Bytes::from_vec(content)),
        Err(FromHexError::OutOfMemory) => Err(Trouble::NoMemory),
        Err(_) => Err(Trouble::Bad),
    }
}

fn digit(byte: u8) -> Option<u8>
    ensures value { result ≡ hex_digit_value byte }
    ensures small { IfSome result (λ value. value < 16) }
{
    match byte {
        b'A'..=b'F' => Some(byte - b'A' + 10),
        b'a'..=b'f' => Some(byte - b'a' + 10),
        b'0'..=b'9' => Some(byte - b'0'),
        _ => None,
    }
}

// The byte of two digits, and what stands behind them.
#[tactic(auto, unfolding(crate::specs::Reading::escape_at))]
fn escape(text: &[u8]) -> Result<(u8, &[u8]), Trouble>
    ensures value { GivesAsText (λ p. (p.0, p.1.now)) result (escape_at text.now) }
    ensures shorter { IfOk result (λ p. length p.1.now ≤ length text.now) }
{
    let Some((high, others)) = text.split_first() else {
        return Err(Trouble::Bad);
    };
    let Some((low, behind)) = others.split_first() else {
        return Err(Trouble::Bad);
    };
    let Some(high) = digit(*high) else {
        return Err(Trouble::Bad);
    };
    let Some(low) = digit(*low) else {
        return Err(Trouble::Bad);
    };
    Ok((high * 16 + low, behind))
}

#[tactic(auto, unfolding(crate::specs::Reading::byte_at))]
fn byte(first: u8, others: &[u8]) -> Result<(u8, &[u8]), Trouble>
    ensures value { GivesAsText (λ p. (p.0, p.1.now)) result (byte_at first others.now) }
    ensures shorter { IfOk result (λ p. length p.1.now ≤ length others.now) }
{
    if first == b'%' {
        return escape(others);
    }
    Ok((first, others))
}

// A name's bytes, where '%' and two digits stand for a byte.
fn unescaped(alloc: Global, text: &[u8]) -> Result<Vec<u8>, Trouble>
    ensures { GivesAsText (λ name. name.items) result (name_at text.now) }
{
    let mut name = Vec::new(alloc);
    let mut rest = text;
    while let Some((first, others)) = rest.split_first() {
        let (read, behind) = byte(*first, others)?;
        name.push(read)?;
        rest = behind;
    }
    Ok(name)
}

#[tactic(auto, unfolding(crate::specs::Reading::short_name_at, crate::specs::Reading::short_at))]
fn short_name_of(alloc: Global, text: &[u8]) -> Result<Name, Trouble>
    ensures { GivesAsText (λ name. name) result (short_name_at text.now) }
{
    let bytes = unescaped(alloc, text)?;
    let Some(name) = Name::from_bytes(bytes.as_slice()) else {
        return Err(Trouble::Bad);
    };
    Ok(name)
}

// A folder and a file from the text of their place.
#[tactic(auto, unfolding(crate::specs::Reading::place_at, crate::specs::Reading::parts_of_place))]
pub fn place_of(alloc: Global, text: &[u8]) -> Result<(Name, Name), Trouble>
    ensures { GivesAsText (λ p. (p.0, p.1)) result (place_at text.now) }
{
    let (folder, file) = parts(text, b'/').unwrap_or((&[], text));
    let folder = short_name_of(alloc, folder)?;
    let file = short_name_of(alloc, file)?;
    Ok((folder, file))
}
