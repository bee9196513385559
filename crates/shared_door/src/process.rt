//! One process that is served.
use crate::board::{Asked, Board};
use edge_io::StdSource;
use frame_format::Head;
use frame_streams::{Arrival, next_frame};
use index_entry::number_at;
use plfs_types::Bytes;
use shared_frames::EACH;
use std::alloc::Global;
use std::fs::File;
use std::io::Write;
use std::sync::Wait;

/// The statements that close a writer and a reader.
const CLOSINGS: [u64; 2] = [4, 9];

/// How a process left.
#[derive(Clone, Copy)]
pub(crate) enum Left {
    /// Its requests ended behind one of them.
    Done,
    /// They ended within one, or one was too long, or it took no answer.
    Broken,
}

// Answers the requests of a process until it leaves.
fn answer_all<R: Wait>(
    rt: &R,
    alloc: Global,
    board: &Board,
    place: u64,
    input: File,
    output: &mut File,
) -> Left {
    let mut source = StdSource::new(input);
    for _ in rt.forever() {
        let Ok(arrival) = next_frame(alloc, &mut source) else {
            return Left::Broken;
        };
        let (head, payload) = match arrival {
            Arrival::Frame { head, payload } => (head, payload),
            Arrival::End => return Left::Done,
            _ => return Left::Broken,
        };
        let Some(bytes) = board.ask(
            rt,
            Asked {
                place,
                head,
                payload,
            },
        ) else {
            return Left::Broken;
        };
        if output.write_all(bytes.as_slice()).is_err() {
            return Left::Broken;
        }
    }
    Left::Broken
}

// Whether an answer tells that its statement was made, or refused.
fn is_well(answer: &[u8]) -> bool {
    answer.len() >= 16 && number_at(answer, 8) <= 1
}

// Closes what the process at this place left open. Whether all of it is closed.
fn close_left<R: Wait>(rt: &R, alloc: Global, board: &Board, place: u64) -> bool {
    let mut is_closed = true;
    for actor in 0..EACH {
        for kind in CLOSINGS.iter() {
            let head = Head {
                kind: *kind,
                actor,
                number: 0,
                place: 0,
                extent: 0,
                len: 0,
            };
            let asked = Asked {
                place,
                head,
                payload: Bytes::new(alloc),
            };
            match board.ask(rt, asked) {
                Some(bytes) => is_closed = is_closed && is_well(bytes.as_slice()),
                None => return false,
            }
        }
    }
    is_closed
}

/// Serves the process at this place until it leaves, and closes what it left open. How it left, and whether all of that is closed.
pub(crate) fn serve_process<R: Wait>(
    rt: &R,
    alloc: Global,
    board: &Board,
    place: u64,
    input: File,
    mut output: File,
) -> (Left, bool) {
    let left = answer_all(rt, alloc, board, place, input, &mut output);
    let is_closed = close_left(rt, alloc, board, place);
    board.leave(rt, place, is_closed);
    // A process that unmounts waits for this.
    drop(output);
    (left, is_closed)
}
