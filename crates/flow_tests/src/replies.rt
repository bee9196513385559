//! What a machine is told, as the rows spell it: a word, and behind it a number, or names, or bytes.
use crate::spelling::parts;
use mount_model::{Refusal, Reply};
use plfs_types::{Bytes, Name, NameList, NoMemory};
use std::alloc::Global;
use store_api::Answer;

/// The names that are these words.
pub(crate) fn names(alloc: Global, words: &str) -> Result<Answer, NoMemory> {
    let mut names = NameList::new(alloc);
    for word in words.split_whitespace() {
        names.push(Name::from_bytes(word.as_bytes()).unwrap_or(Name::empty()))?;
    }
    Ok(Answer::Names(names))
}

/// Each number as 8 bytes, the least first, and each other word as its letters; behind them as many zeros as make so many
/// bytes.
fn bytes(alloc: Global, words: &str, len: usize) -> Result<Answer, NoMemory> {
    let mut all = Vec::new(alloc);
    for word in words.split_whitespace() {
        let mut number = [0; 8];
        let part = match word.parse::<u64>() {
            Ok(value) => {
                number = value.to_le_bytes();
                number.as_slice()
            }
            Err(_) => word.as_bytes(),
        };
        all.extend_from_slice(part)?;
    }
    let len = len.max(all.len());
    all.resize(len, 0)?;
    Ok(Answer::Bytes(Bytes::from_vec(all)))
}

/// The entries of a writer, with stamps from the second number on, and so many: each of 47008 bytes, the first at 0 and each
/// next one 94016 further on.
fn blocks(alloc: Global, words: &str) -> Result<Answer, NoMemory> {
    let (writer, words) = parts(words, ' ');
    let (stamp, count) = parts(words, ' ');
    let writer = writer.parse::<u64>().unwrap_or(0);
    let stamp = stamp.parse::<u64>().unwrap_or(0);
    let count = count.parse::<u64>().unwrap_or(0);
    let mut all = Vec::new(alloc);
    for index in 0..count.min(4096) {
        let at = 94016 * index;
        let place = 47008 * index;
        for number in [at, 47008, place, stamp.wrapping_add(index), writer] {
            all.extend_from_slice(&number.to_le_bytes())?;
        }
    }
    Ok(Answer::Bytes(Bytes::from_vec(all)))
}

fn of_number(word: &str, number: u64) -> Option<Reply> {
    match word {
        "room" => Some(Reply::Room { room: number }),
        "entered" => Some(Reply::Entered { writer: number }),
        "floored" => Some(Reply::Floored { floor: number }),
        "wrote" => Some(Reply::Wrote { stamp: number }),
        "flushed" => Some(Reply::Flushed { landed: number }),
        "synced" => Some(Reply::Synced { landed: number }),
        "holding" => Some(Reply::Holding { holder: number }),
        "marked" => Some(Reply::Marked { stamp: number }),
        "started" => Some(Reply::Started { flat: number }),
        "long" => Some(Reply::Looked(Answer::Number { value: number })),
        _ => None,
    }
}

/// A file that is damaged is told of without its name.
fn of_words(words: &str) -> Option<Reply> {
    match words {
        "done" => Some(Reply::Done),
        "made" => Some(Reply::Mended { made: true }),
        "absent" => Some(Reply::Looked(Answer::Absent)),
        "no-folder" => Some(Reply::Looked(Answer::NoFolder)),
        "refused held" => Some(Reply::Refused(Refusal::Held)),
        "refused exists" => Some(Reply::Refused(Refusal::Exists)),
        "refused stamps-spent" => Some(Reply::Refused(Refusal::StampsSpent)),
        "refused ids-spent" => Some(Reply::Refused(Refusal::IdsSpent)),
        "refused alive" => Some(Reply::Refused(Refusal::Alive)),
        "damaged" => Some(Reply::Damaged {
            folder: Name::empty(),
            file: Name::empty(),
        }),
        "fault" => Some(Reply::Fault),
        "no-memory" => Some(Reply::NoMemory),
        _ => None,
    }
}

/// The reply of this text, where there is one.
pub(crate) fn reply_of(alloc: Global, told: &str) -> Result<Option<Reply>, NoMemory> {
    let (word, words) = parts(told, ' ');
    let answer = match word {
        "names" => names(alloc, words)?,
        "bytes" => bytes(alloc, words, 0)?,
        "padded" => {
            let (len, words) = parts(words, ' ');
            bytes(alloc, words, len.parse::<usize>().unwrap_or(0))?
        }
        "blocks" => blocks(alloc, words)?,
        _ => {
            return Ok(match words.parse::<u64>() {
                Ok(number) => of_number(word, number),
                Err(_) => of_words(told),
            });
        }
    };
    Ok(Some(Reply::Looked(answer)))
}
