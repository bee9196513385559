//! The words that tell an outcome.
ghost use Rattle.std.specs.Prelude.{◌≡◌, ◌<◌, ◌++◌, ◌∷◌, [], OnOk, slice_index};
ghost use Rattle.std.specs.Fmt.{decimal};
ghost use Rattle.std.specs.List.{flat_map};
ghost use Rattle.hex.specs.Hex.{encode_lower, upper_digits};
ghost use Rattle.report_text.specs.Items.{escaped, escaped_byte, piece_text};
ghost use Rattle.report_text.specs.Words.{outcome_words};
ghost use Rattle.script_lang.specs.declared.line.Outcome.TheVariants.{Wrote, Reader, Read, Map, Stat, Flattened, Recovered, Refused, Damaged};

use crate::items::list;
use crate::words::{digits, number, wide_number, word};
use plfs_types::{Entry, NoMemory, ShareBytes, Trunc, WriterCount};
use script_lang::{Outcome, Why};

// Each word of the outcome behind a space.
pub fn outcome(out: &mut Vec<u8>, outcome: &Outcome) -> Result<(), NoMemory>
    ensures { OnOk result (out.new.items ≡ out.old.items ++ flat_map (λ w. 32 ∷ w) (outcome_words outcome.now)) }
{
    match outcome {
        Outcome::Opened { writer } => one_number(out, b"open", *writer),
        Outcome::Wrote { at, len, stamp } => wrote(out, *at, *len, *stamp),
        Outcome::Synced { landed } => one_number(out, b"synced", *landed),
        Outcome::Closed { landed } => one_number(out, b"closed", *landed),
        Outcome::Reader { size, cut, truncs } => {
            reader(out, *size, cut.as_slice(), truncs.as_slice())
        }
        Outcome::Read { at, content } => read(out, *at, content.as_slice()),
        Outcome::Same => word(out, b"same"),
        Outcome::Differs { place } => one_number(out, b"differs", *place),
        Outcome::Map { pieces } => map(out, pieces.as_slice()),
        Outcome::ReaderClosed => word(out, b"rclosed"),
        Outcome::Stat {
            size,
            stored,
            shares,
            truncs,
        } => stat(out, *size, *stored, shares.as_slice(), truncs.as_slice()),
        Outcome::Truncated { stamp } => one_number(out, b"truncated", *stamp),
        Outcome::Renamed => word(out, b"renamed"),
        Outcome::Flattened { flat, pieces, cut } => flattened(out, *flat, *pieces, cut.as_slice()),
        Outcome::Recovered {
            buried,
            alive,
            hold,
        } => recovered(out, buried.as_slice(), alive.as_slice(), *hold),
        Outcome::Listed { names } => {
            word(out, b"ls")?;
            list(out, names.as_slice())
        }
        Outcome::Armed => word(out, b"armed"),
        Outcome::Stopped => word(out, b"stopped"),
        Outcome::Gone => word(out, b"gone"),
        Outcome::Refused { why } => refused(out, *why),
        Outcome::Fault => word(out, b"fault"),
        Outcome::Damaged {
            folder,
            file,
            place,
        } => damaged(out, folder.bytes(), file.bytes(), *place),
    }
}

fn one_number(out: &mut Vec<u8>, text: &[u8], value: u64) -> Result<(), NoMemory>
    ensures { OnOk result (out.new.items ≡ out.old.items ++ flat_map (λ w. 32 ∷ w) (text.now ∷ decimal value ∷ [])) }
{
    word(out, text)?;
    number(out, value)
}

fn wrote(out: &mut Vec<u8>, at: u64, len: u64, stamp: Option<u64>) -> Result<(), NoMemory>
    ensures { OnOk result (out.new.items ≡ out.old.items ++ flat_map (λ w. 32 ∷ w) (outcome_words (Wrote at len stamp))) }
{
    word(out, b"wrote")?;
    number(out, at)?;
    number(out, len)?;
    match stamp {
        Some(stamp) => number(out, stamp),
        None => word(out, b"-"),
    }
}

fn reader(
    out: &mut Vec<u8>,
    size: u64,
    cut: &[WriterCount],
    truncs: &[Trunc],
) -> Result<(), NoMemory>
    ensures { OnOk result (out.new.items ≡ out.old.items ++ flat_map (λ w. 32 ∷ w) (outcome_words (Reader size cut.now truncs.now))) }
{
    word(out, b"reader")?;
    number(out, size)?;
    word(out, b"cut")?;
    list(out, cut)?;
    word(out, b"trunc")?;
    list(out, truncs)
}

fn read(out: &mut Vec<u8>, at: u64, content: &[u8]) -> Result<(), NoMemory>
    ensures { OnOk result (out.new.items ≡ out.old.items ++ flat_map (λ w. 32 ∷ w) (outcome_words (Read at content.now))) }
{
    word(out, b"read")?;
    number(out, at)?;
    if content.is_empty() {
        return word(out, b"-");
    }
    out.push(b' ')?;
    hex_digits(out, content)
}

// The bytes as pairs of digits.
fn hex_digits(out: &mut Vec<u8>, content: &[u8]) -> Result<(), NoMemory>
    ensures { OnOk result (out.new.items ≡ out.old.items ++ encode_lower content.now) }
{
    let start = out.len();
    let added = content.len().checked_mul(2).ok_or(NoMemory)?;
    let end = start.checked_add(added).ok_or(NoMemory)?;
    out.resize(end, 0)?;
    hex::encode_to_slice(content, &mut out[start..]).map_err(|_| NoMemory)
}

#[tactic(auto, using(crate::proofs::Joined::pieces_behind))]
fn map(out: &mut Vec<u8>, pieces: &[Entry]) -> Result<(), NoMemory>
    ensures { OnOk result (out.new.items ≡ out.old.items ++ flat_map (λ w. 32 ∷ w) (outcome_words (Map pieces.now))) }
{
    word(out, b"map")?;
    if pieces.is_empty() {
        return word(out, b"-");
    }
    pieces_behind_spaces(out, pieces)
}

fn pieces_behind_spaces(out: &mut Vec<u8>, pieces: &[Entry]) -> Result<(), NoMemory>
    ensures { OnOk result (out.new.items ≡ out.old.items ++ flat_map (λ piece. 32 ∷ piece_text piece) pieces.now) }
{
    for piece in pieces {
        out.push(b' ')?;
        piece_digits(out, piece)?;
    }
    Ok(())
}

fn piece_digits(out: &mut Vec<u8>, piece: &Entry) -> Result<(), NoMemory>
    ensures { OnOk result (out.new.items ≡ out.old.items ++ piece_text piece.now) }
{
    digits(out, piece.at)?;
    out.push(b'+')?;
    digits(out, piece.len)?;
    out.push(b'=')?;
    digits(out, piece.stamp)?;
    out.push(b'.')?;
    digits(out, piece.writer)?;
    out.push(b'@')?;
    digits(out, piece.physical)
}

fn stat(
    out: &mut Vec<u8>,
    size: u64,
    stored: u128,
    shares: &[ShareBytes],
    truncs: &[Trunc],
) -> Result<(), NoMemory>
    ensures { OnOk result (out.new.items ≡ out.old.items ++ flat_map (λ w. 32 ∷ w) (outcome_words (Stat size stored shares.now truncs.now))) }
{
    word(out, b"stat")?;
    number(out, size)?;
    wide_number(out, stored)?;
    word(out, b"by")?;
    list(out, shares)?;
    word(out, b"trunc")?;
    list(out, truncs)
}

fn flattened(out: &mut Vec<u8>, flat: u64, pieces: u64, cut: &[WriterCount]) -> Result<(), NoMemory>
    ensures { OnOk result (out.new.items ≡ out.old.items ++ flat_map (λ w. 32 ∷ w) (outcome_words (Flattened flat pieces cut.now))) }
{
    word(out, b"flattened")?;
    number(out, flat)?;
    number(out, pieces)?;
    word(out, b"cut")?;
    list(out, cut)
}

fn recovered(
    out: &mut Vec<u8>,
    buried: &[WriterCount],
    alive: &[u64],
    hold: bool,
) -> Result<(), NoMemory>
    ensures { OnOk result (out.new.items ≡ out.old.items ++ flat_map (λ w. 32 ∷ w) (outcome_words (Recovered buried.now alive.now hold))) }
{
    word(out, b"recovered")?;
    list(out, buried)?;
    word(out, b"alive")?;
    list(out, alive)?;
    word(out, b"hold")?;
    if hold {
        word(out, b"yes")
    } else {
        word(out, b"no")
    }
}

fn refused(out: &mut Vec<u8>, why: Why) -> Result<(), NoMemory>
    ensures { OnOk result (out.new.items ≡ out.old.items ++ flat_map (λ w. 32 ∷ w) (outcome_words (Refused why))) }
{
    word(out, b"refused")?;
    match why {
        Why::NoFile => word(out, b"no-file"),
        Why::Held => word(out, b"held"),
        Why::Busy { host, writer } => {
            word(out, b"busy")?;
            number(out, u64::from(host))?;
            number(out, writer)
        }
        Why::Exists => word(out, b"exists"),
        Why::TooFar => word(out, b"too-far"),
        Why::StampsSpent => word(out, b"stamps-spent"),
        Why::IdsSpent => word(out, b"ids-spent"),
        Why::NotOpen => word(out, b"not-open"),
        Why::AlreadyOpen => word(out, b"already-open"),
        Why::MountsSpent => word(out, b"mounts-spent"),
    }
}

fn damaged(out: &mut Vec<u8>, folder: &[u8], file: &[u8], place: u64) -> Result<(), NoMemory>
    ensures { OnOk result (out.new.items ≡ out.old.items ++ flat_map (λ w. 32 ∷ w) (outcome_words (Damaged folder.now file.now place))) }
{
    word(out, b"damaged")?;
    out.push(b' ')?;
    if !folder.is_empty() {
        escape(out, folder)?;
        out.push(b'/')?;
    }
    escape(out, file)?;
    number(out, place)
}

// A name without the bytes that would be unclear.
/// Adds a name: a letter, a digit, `_`, `-` or `.` as it is, and another byte as `%` and two digits.
pub fn escape(out: &mut Vec<u8>, name: &[u8]) -> Result<(), NoMemory>
    ensures { OnOk result (out.new.items ≡ out.old.items ++ escaped name.now) }
{
    for byte in name {
        escape_byte(out, *byte)?;
    }
    Ok(())
}

fn escape_byte(out: &mut Vec<u8>, byte: u8) -> Result<(), NoMemory>
    ensures { OnOk result (out.new.items ≡ out.old.items ++ escaped_byte byte) }
{
    if matches!(byte, b'A'..=b'Z' | b'a'..=b'z' | b'0'..=b'9' | b'_' | b'-' | b'.') {
        out.push(byte)?;
        return Ok(());
    }
    out.push(b'%')?;
    out.push(upper_digit(byte / 16))?;
    out.push(upper_digit(byte % 16))?;
    Ok(())
}

fn upper_digit(value: u8) -> u8
    requires { value < 16 }
    ensures { result ≡ slice_index upper_digits value }
{
    b"0123456789ABCDEF"[value as usize]
}
