//! What is changed and seen of a store from outside.
use crate::spelling::{contents, end};
use crate::stages::{Place, Stage, place};
use store_api::{Answer, Step, Store};

// The step of a verb, of which some take bytes.
fn step<'a>(verb: &str, place: Place, bytes: &'a [u8]) -> Step<'a> {
    let (room, path, number) = place;
    let folder = path.folder;
    let file = path.file;
    match verb {
        "room" => Step::MakeRoom {
            name: folder,
            folders: &[],
            files: &[],
        },
        "folder" => Step::MakeFolder { room, folder },
        "no-folder" => Step::RemoveFolder { room, folder },
        "file" => Step::Create { room, folder, file },
        "no-file" => Step::Remove { room, folder, file },
        "put" => Step::WriteAt {
            room,
            folder,
            file,
            at: number,
            bytes,
        },
        "cut" => Step::Cut {
            room,
            folder,
            file,
            len: number,
        },
        _ => Step::ReadAt {
            room,
            folder,
            file,
            at: 0,
            len: 1 << 20,
        },
    }
}

// Whether a change was made, or the file has these bytes.
fn is_so(answer: &Answer, bytes: &[u8]) -> bool {
    match answer {
        Answer::Bytes(found) => found.as_slice() == bytes,
        Answer::Made | Answer::Number { .. } => true,
        _ => false,
    }
}

fn is_done<S: Store>(store: &mut S, step: &Step<'_>, bytes: &[u8]) -> bool {
    match store.act(step) {
        Ok(answer) => {
            let is_so = is_so(&answer, bytes);
            drop(answer);
            is_so
        }
        Err(_) => false,
    }
}

/// `put 1 flats/5 0: 7` writes the bytes of 7 at the front of that file, and `has 1 flats/5: 7` looks whether it has them
/// and no more. `cut 1 flats/5 3` leaves its first three bytes, and the other verbs say what they do.
pub(crate) fn change(stage: &mut Stage, verb: &str, rest: &str, want: &str) {
    let bytes = contents(stage.alloc, want);
    let step = step(verb, place(rest), &bytes);
    let is_done = match &mut stage.store {
        Some(store) => is_done(store, &step, &bytes),
        None => false,
    };
    drop(bytes);
    if !is_done {
        stage.wrong.push(verb);
        stage.wrong.push(" ");
        end(&mut stage.wrong, rest);
    }
}
