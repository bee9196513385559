//! Data in words.
ghost use Rattle.std.specs.Prelude.{◌≡◌, ◌==◌, Some, length, ◌≤◌, ◌^◌, IfOk};
ghost use Rattle.std.specs.List.{list_all, starts_with, before_first, after_first};
ghost use Rattle.script_lang.specs.Spelling.{is_seen};
ghost use Rattle.script_lang.specs.Data.{hex_data, text_data, pair_data, counted_data, data_in};
ghost use Rattle.plfs_types.specs.Parts.{is_lower_digit};
ghost use Rattle.script_lang.specs.declared.script.Data.TheVariants as data_of;
ghost use Rattle.script_lang.specs.Ranges.{FitsData};
ghost use Rattle.script_lang.specs.Reading.{GivesAsRead};

use crate::flaw::Flaw;
use crate::numbers::number_in;
use crate::script::Data;
use crate::trouble::Kind;
use crate::words::{begins_with, place_of_byte};
use hex::FromHexError;
use plfs_types::Bytes;
use std::alloc::Global;

fn are_lower_digits(word: &[u8]) -> bool
    ensures { result ≡ list_all is_lower_digit word.now }
{
    word.iter().all(|byte| (b'0' <= *byte && *byte <= b'9') || (b'a' <= *byte && *byte <= b'f'))
}

fn are_seen(word: &[u8]) -> bool
    ensures { result ≡ list_all is_seen word.now }
{
    word.iter().all(|byte| b'!' <= *byte && *byte <= b'~')
}

// The bytes of an even number of lower-case digits.
fn hex_data(alloc: Global, digits: &[u8]) -> Result<Data, Flaw>
    requires { length digits.now ≤ 2 ^ 20 }
    ensures given { GivesAsRead result (hex_data digits.now) }
    ensures fits { IfOk result FitsData }
{
    if !are_lower_digits(digits) {
        return Err(Flaw::Kind(Kind::Data));
    }
    match hex::decode(alloc, digits) {
        Ok(bytes) => Ok(Data::Hex(Bytes::from_vec(bytes))),
        Err(FromHexError::OutOfMemory) => Err(Flaw::NoMemory),
        Err(_) => Err(Flaw::Kind(Kind::Data)),
    }
}

// The bytes themselves, where they are seen.
fn text_data(alloc: Global, bytes: &[u8]) -> Result<Data, Flaw>
    requires { length bytes.now ≤ 2 ^ 20 }
    ensures given { GivesAsRead result (text_data bytes.now) }
    ensures fits { IfOk result FitsData }
{
    if !are_seen(bytes) {
        return Err(Flaw::Kind(Kind::Data));
    }
    Ok(Data::Text(Bytes::copy(alloc, bytes)?))
}

// What stands before the first colon, and what stands behind it.
fn around_colon(pair: &[u8]) -> (&[u8], &[u8])
    ensures before { result.0.now ≡ before_first (λ b. b == 58) pair.now }
    ensures after { result.1.now ≡ after_first (λ b. b == 58) pair.now }
{
    match place_of_byte(pair, b':') {
        Some(place) => (&pair[..place], &pair[place + 1..]),
        None => (pair, &[]),
    }
}

fn fill_data(pair: &[u8]) -> Result<Data, Kind>
    ensures given { result ≡ pair_data data_of.Fill pair.now }
    ensures fits { IfOk result FitsData }
{
    let (len, byte) = around_colon(pair);
    match (number_in(len, 0, 1 << 24), number_in(byte, 0, 255)) {
        (Ok(len), Ok(byte)) => Ok(Data::Fill {
            len,
            byte: byte as u8,
        }),
        _ => Err(Kind::Data),
    }
}

fn ramp_data(pair: &[u8]) -> Result<Data, Kind>
    ensures given { result ≡ pair_data data_of.Ramp pair.now }
    ensures fits { IfOk result FitsData }
{
    let (len, first) = around_colon(pair);
    match (number_in(len, 0, 1 << 24), number_in(first, 0, 255)) {
        (Ok(len), Ok(first)) => Ok(Data::Ramp {
            len,
            first: first as u8,
        }),
        _ => Err(Kind::Data),
    }
}

// A length and a byte, and what they stand for.
fn counted_data(word: &[u8]) -> Result<Data, Kind>
    ensures given { result ≡ counted_data word.now }
    ensures fits { IfOk result FitsData }
{
    if begins_with(word, b"fill:") {
        return fill_data(&word[5..]);
    }
    if begins_with(word, b"ramp:") {
        return ramp_data(&word[5..]);
    }
    Err(Kind::Data)
}

// The data that a word writes.
pub(crate) fn data_in(alloc: Global, word: &[u8]) -> Result<Data, Flaw>
    requires { length word.now ≤ 2 ^ 20 }
    ensures given { GivesAsRead result (data_in word.now) }
    ensures fits { IfOk result FitsData }
{
    if begins_with(word, b"hex:") {
        return hex_data(alloc, &word[4..]);
    }
    if begins_with(word, b"text:") {
        return text_data(alloc, &word[5..]);
    }
    Ok(counted_data(word)?)
}
