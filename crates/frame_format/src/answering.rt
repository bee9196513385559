//! Answers.
ghost use Rattle.std.specs.Prelude.{◌≡◌, ◌+◌, ◌≤◌, ◌++◌, IfOk, OnOk, take};
ghost use Rattle.std.specs.Int.{w64, to_le_bytes};
ghost use Rattle.frame_format.specs.Telling.{answer_head, answer_of as answer_told, no_memory, no_request, path_text, payload_of, status_of as status_said, names_text, value_of as value_said, why_code as code_said};

use plfs_types::{Bytes, Name, NoMemory};
use script_lang::{Line, Outcome, Why};
use std::alloc::Global;

/// The bytes of an answer's head.
pub const ANSWER_HEAD_SIZE: usize = 32;

/// What became of a request: the number that its client chose, how it went, one number that it came to, and bytes.
#[derive(Drop)]
pub struct Answer {
    /// The request's number.
    pub number: u64,
    /// 0 where it was made, 1 where it was refused, 2 where it was no request, 3 where memory was refused, 4 where the store
    /// failed, 5 where it was stopped, 7 where an item is damaged.
    pub status: u64,
    /// A writer, a stamp in nanoseconds, a size, a count or a place, by what was asked; or why it was refused.
    pub value: u64,
    /// The bytes that were read, the names that were listed, or which item is damaged.
    pub payload: Bytes,
}

fn why_code(why: Why) -> u64
    ensures { result ≡ code_said why }
{
    match why {
        Why::NoFile => 1,
        Why::Held => 2,
        Why::Busy { .. } => 3,
        Why::Exists => 4,
        Why::TooFar => 5,
        Why::StampsSpent => 6,
        Why::IdsSpent => 7,
        Why::NotOpen => 8,
        Why::AlreadyOpen => 9,
        Why::MountsSpent => 10,
    }
}

fn status_of(outcome: &Outcome) -> u64
    ensures { result ≡ status_said outcome.now }
{
    match outcome {
        Outcome::Refused { .. } => 1,
        Outcome::Fault => 4,
        Outcome::Stopped => 5,
        Outcome::Gone => 5,
        Outcome::Damaged { .. } => 7,
        _ => 0,
    }
}

fn value_of(outcome: &Outcome) -> u64
    ensures { result ≡ value_said outcome.now }
{
    match outcome {
        Outcome::Opened { writer } => *writer,
        Outcome::Wrote { stamp, .. } => stamp.unwrap_or(0),
        Outcome::Synced { landed } => *landed,
        Outcome::Closed { landed } => *landed,
        Outcome::Reader { size, .. } => *size,
        Outcome::Read { content, .. } => content.as_slice().len() as u64,
        Outcome::Differs { place } => *place,
        Outcome::Map { pieces } => pieces.as_slice().len() as u64,
        Outcome::Stat { size, .. } => *size,
        Outcome::Truncated { stamp } => *stamp,
        Outcome::Flattened { flat, .. } => *flat,
        Outcome::Recovered { buried, .. } => buried.as_slice().len() as u64,
        Outcome::Listed { names } => names.as_slice().len() as u64,
        Outcome::Refused { why } => why_code(*why),
        Outcome::Damaged { place, .. } => *place,
        _ => 0,
    }
}

fn names_text(alloc: Global, names: &[Name]) -> Result<Bytes, NoMemory>
    ensures { IfOk result (λ text. text ≡ names_text names.now) }
{
    let mut text = Vec::new(alloc);
    for name in names {
        text.extend_from_slice(name.bytes())?;
        text.push(b'\n')?;
    }
    Ok(Bytes::from_vec(text))
}

fn path_text(alloc: Global, folder: &Name, file: &Name) -> Result<Bytes, NoMemory>
    ensures { IfOk result (λ text. text ≡ path_text folder.now file.now) }
{
    let mut text = Vec::new(alloc);
    text.extend_from_slice(folder.bytes())?;
    text.push(b'/')?;
    text.extend_from_slice(file.bytes())?;
    Ok(Bytes::from_vec(text))
}

fn lent_payload(alloc: Global, outcome: &Outcome) -> Result<Bytes, NoMemory>
    ensures { IfOk result (λ bytes. bytes ≡ payload_of outcome.now) }
{
    match outcome {
        Outcome::Read { content, .. } => Bytes::copy(alloc, content.as_slice()),
        Outcome::Listed { names } => names_text(alloc, names.as_slice()),
        Outcome::Damaged { folder, file, .. } => path_text(alloc, folder, file),
        _ => Ok(Bytes::new(alloc)),
    }
}

// The bytes that were read are handed on and not copied.
fn payload(alloc: Global, outcome: Outcome) -> Result<Bytes, NoMemory>
    ensures { IfOk result (λ bytes. bytes ≡ payload_of outcome) }
{
    match outcome {
        Outcome::Read { content, .. } => Ok(content),
        other => {
            let bytes = lent_payload(alloc, &other);
            drop(other);
            bytes
        }
    }
}

/// The answer that tells a request's line.
pub fn answer_of(alloc: Global, line: Line) -> Result<Answer, NoMemory>
    ensures { IfOk result (λ answer. answer ≡ answer_told line) }
{
    let Line { number, outcome } = line;
    let status = status_of(&outcome);
    let value = value_of(&outcome);
    let payload = payload(alloc, outcome)?;
    Ok(Answer {
        number,
        status,
        value,
        payload,
    })
}

impl Answer {
    /// The answer to bytes that are no request.
    pub fn no_request(alloc: Global, number: u64) -> Answer
        ensures { result ≡ no_request number }
    {
        Answer {
            number,
            status: 2,
            value: 0,
            payload: Bytes::new(alloc),
        }
    }

    /// The answer to a request for which memory was refused.
    pub fn no_memory(alloc: Global, number: u64) -> Answer
        ensures { result ≡ no_memory number }
    {
        Answer {
            number,
            status: 3,
            value: 0,
            payload: Bytes::new(alloc),
        }
    }

    /// Its head, behind which its payload follows.
    pub fn head(&self) -> [u8; ANSWER_HEAD_SIZE]
        ensures { result ≡ answer_head self.now }
    {
        let mut bytes = [0; ANSWER_HEAD_SIZE];
        put_number(&mut bytes, 0, self.number);
        put_number(&mut bytes, 8, self.status);
        put_number(&mut bytes, 16, self.value);
        put_number(&mut bytes, 24, self.payload.as_slice().len() as u64);
        bytes
    }
}

// Puts a number behind the first `place` bytes, which stay.
fn put_number(bytes: &mut [u8; ANSWER_HEAD_SIZE], place: usize, number: u64)
    requires { place + 8 ≤ ANSWER_HEAD_SIZE }
    ensures { take (place + 8) bytes.new ≡ take place bytes.old ++ to_le_bytes w64 number }
{
    let field = &mut bytes[place..place + 8];
    field.copy_from_slice(&number.to_le_bytes());
}
