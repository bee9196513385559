//! The bytes that a script writes or compares.
ghost use Rattle.std.specs.Prelude.{◌≡◌, ◌<◌, ◌≤◌, ◌^◌, ◌%◌, length, map, replicate, slice_index, take, true, None, IfOk};
ghost use Rattle.std.specs.List.{range_with_len};
ghost use Rattle.script_lang.specs.Ranges.{FitsData};
ghost use Rattle.outcomes.specs.Data.{length_of, bytes_of, ramp_byte as byte_of_ramp, Repeats, first_difference as first_of};

use crate::comparing::are_same_bytes;
use plfs_types::{Block, Bytes, NoMemory};
use script_lang::Data;
use std::alloc::{AllocError, Global};

/// How many bytes there are.
pub fn length(content: &Data) -> u64
    ensures { result ≡ length_of content.now }
{
    match content {
        Data::Hex(bytes) => bytes.as_slice().len() as u64,
        Data::Text(bytes) => bytes.as_slice().len() as u64,
        Data::Fill { len, .. } => *len,
        Data::Ramp { len, .. } => *len,
    }
}

/// After how many bytes a ramp begins again.
const PERIOD: usize = 256;

fn ramp_byte(first: u8, j: usize) -> u8
    ensures { result ≡ byte_of_ramp first j }
{
    ((usize::from(first) + j % 256) % 256) as u8
}

/// The bytes of a ramp, one by one, up to where it begins again.
fn period(first: u8) -> [u8; PERIOD]
    ensures { result ≡ map (byte_of_ramp first) (range_with_len 0 256) }
{
    let mut bytes = [0; PERIOD];
    for j in 0..PERIOD {
        bytes[j] = ramp_byte(first, j);
    }
    bytes
}

/// The bytes of a ramp, copied from its front, since one by one takes many times as long. The front has whole periods.
fn ramp_by(alloc: Global, len: usize, first: u8, front: &[u8]) -> Result<Vec<u8>, AllocError>
    requires some { 0 < length front.now }
    requires whole { length front.now % 256 ≡ 0 }
    requires begins { front.now ≡ map (byte_of_ramp first) (range_with_len 0 (length front.now)) }
    ensures { IfOk result (λ bytes. bytes.items ≡ map (byte_of_ramp first) (range_with_len 0 len)) }
{
    let mut bytes = Vec::with_capacity(alloc, len)?;
    for _copy in 0..len / front.len() {
        bytes.extend_from_slice(front)?;
    }
    bytes.extend_from_slice(&front[..len % front.len()])?;
    Ok(bytes)
}

/// How many bytes of a long ramp are copied at a time.
const FRONT: usize = 4096;

/// The bytes of a ramp.
fn ramp(alloc: Global, len: usize, first: u8) -> Result<Bytes, NoMemory>
    ensures { IfOk result (λ bytes. bytes ≡ map (byte_of_ramp first) (range_with_len 0 len)) }
{
    let period = period(first);
    if len <= FRONT {
        let bytes = ramp_by(alloc, len, first, &period)?;
        return Ok(Bytes::from_vec(bytes));
    }
    let front = ramp_by(alloc, FRONT, first, &period)?;
    let bytes = ramp_by(alloc, len, first, front.as_slice())?;
    Ok(Bytes::from_vec(bytes))
}

/// So many times this byte.
fn fill(alloc: Global, len: usize, byte: u8) -> Result<Bytes, NoMemory>
    ensures { IfOk result (λ bytes. bytes ≡ replicate len byte) }
{
    Ok(Bytes::from_vec(vec![in alloc; byte; len]?))
}

/// The bytes, one after the other.
fn bytes(alloc: Global, content: Data) -> Result<Bytes, NoMemory>
    ensures { IfOk result (λ bytes. bytes ≡ bytes_of content) }
{
    match content {
        Data::Hex(bytes) => Ok(bytes),
        Data::Text(bytes) => Ok(bytes),
        Data::Fill { len, byte } => fill(alloc, len as usize, byte),
        Data::Ramp { len, first } => ramp(alloc, len as usize, first),
    }
}

/// The block of these bytes, of which there is at least one.
pub fn block(alloc: Global, content: Data) -> Result<Block, NoMemory>
    requires fits { FitsData content }
    requires some { 0 < length_of content }
    ensures { IfOk result (λ block. block ≡ bytes_of content) }
{
    let bytes = bytes(alloc, content)?;
    match Block::new(bytes) {
        Ok(block) => Ok(block),
        Err(_) => unreachable!(),
    }
}

fn byte_at(content: &Data, j: usize) -> u8
    requires { j < length_of content.now }
    ensures { result ≡ slice_index (bytes_of content.now) j }
{
    match content {
        Data::Hex(bytes) => bytes.as_slice()[j],
        Data::Text(bytes) => bytes.as_slice()[j],
        Data::Fill { byte, .. } => *byte,
        Data::Ramp { first, .. } => ramp_byte(*first, j),
    }
}

/// The first place of the data where what was read differs or has ended, looked for byte by byte.
fn difference_by_bytes(content: &Data, found: &[u8]) -> Option<u64>
    ensures { result ≡ first_of 0 (bytes_of content.now) found.now }
{
    let len = length(content) as usize;
    for j in 0..len {
        if j >= found.len() || found[j] != byte_at(content, j) {
            return Some(j as u64);
        }
    }
    None
}

/// Whether what was read begins with these bytes.
fn begins_with(found: &[u8], wanted: &[u8]) -> bool
    ensures { result ≡ true → first_of 0 wanted.now found.now ≡ None }
{
    if found.len() < wanted.len() {
        return false;
    }
    let beginning = &found[..wanted.len()];
    are_same_bytes(beginning, wanted)
}

/// Whether so many bytes were read, each the one that stands `period` places before it.
fn repeats(found: &[u8], len: u64, period: usize) -> bool
    ensures { result ≡ true → Repeats len period found.now }
{
    let len = len as usize;
    if found.len() < len {
        return false;
    }
    if len < period {
        return true;
    }
    let later = &found[period..len];
    let earlier = &found[..len - period];
    are_same_bytes(later, earlier)
}

/// Whether what was read begins with so many times this byte.
fn begins_with_fill(found: &[u8], len: u64, byte: u8) -> bool
    ensures { result ≡ true → first_of 0 (replicate len byte) found.now ≡ None }
{
    if repeats(found, len, 1) {
        let beginning = Data::Fill {
            len: len.min(1),
            byte,
        };
        return difference_by_bytes(&beginning, found).is_none();
    }
    false
}

/// Whether what was read begins with this ramp.
fn begins_with_ramp(found: &[u8], len: u64, first: u8) -> bool
    ensures { result ≡ true → first_of 0 (map (byte_of_ramp first) (range_with_len 0 len)) found.now ≡ None }
{
    if repeats(found, len, PERIOD) {
        let beginning = period(first);
        return begins_with(found, &beginning[..len.min(256) as usize]);
    }
    false
}

/// Whether what was read begins with the data. Slices are compared, since bytes one by one take many times as long.
fn agrees(content: &Data, found: &[u8]) -> bool
    ensures { result ≡ true → first_of 0 (bytes_of content.now) found.now ≡ None }
{
    match content {
        Data::Hex(bytes) => begins_with(found, bytes.as_slice()),
        Data::Text(bytes) => begins_with(found, bytes.as_slice()),
        Data::Fill { len, byte } => begins_with_fill(found, *len, *byte),
        Data::Ramp { len, first } => begins_with_ramp(found, *len, *first),
    }
}

/// The first place of the data, from 0, where what was read differs or has ended. The data is not built.
pub fn first_difference(content: &Data, found: &[u8]) -> Option<u64>
    ensures { result ≡ first_of 0 (bytes_of content.now) found.now }
{
    if agrees(content, found) {
        return None;
    }
    difference_by_bytes(content, found)
}
