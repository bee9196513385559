//! Long reads of a store on a folder that follow each other, while a thread reads ahead.
use crate::acts::name;
use crate::on_folder::open;
use folder_calls::ReadAhead;
use std::fs;
use std::test::Fail;
use store_api::{Answer, Step, Store};

/// The bytes of a long read.
const LONG: usize = 1 << 18;

/// The folder of the store.
const ROOT: &str = "store_tests_ahead";

/// The letters of the blocks of the file.
const BLOCKS: &[u8] = b"abcdefgh";

// Writes a block of this letter at its place.
fn writes<S: Store>(
    rt: HostRuntime,
    store: &mut S,
    place: usize,
    letter: u8,
) -> Result<bool, Fail> {
    let bytes = Vec::from_elem(rt.alloc(), letter, LONG)?;
    let step = Step::WriteAt {
        room: 0,
        folder: name("d"),
        file: name("log"),
        at: (place as u64).saturating_mul(LONG as u64),
        bytes: bytes.as_slice(),
    };
    Ok(matches!(store.act(&step), Ok(Answer::Made)))
}

// Whether the block there has this letter alone, by one read of just so many bytes.
fn has<S: Store>(store: &mut S, place: usize, letter: u8) -> bool {
    let step = Step::ReadAt {
        room: 0,
        folder: name("d"),
        file: name("log"),
        at: (place as u64).saturating_mul(LONG as u64),
        len: LONG as u64,
    };
    match store.act(&step) {
        Ok(Answer::Bytes(bytes)) => {
            bytes.as_slice().len() == LONG && bytes.as_slice().iter().all(|b| *b == letter)
        }
        _ => false,
    }
}

#[test]
fn what_is_read_ahead_is_what_stands_there(rt: HostRuntime) -> Result<(), Fail> {
    let _ = fs::remove_dir_all(&rt, ROOT);
    fs::create_dir(&rt, ROOT)?;
    let mut store = open(rt, ROOT)?;
    store.read_ahead_by(ReadAhead::start(rt, rt.alloc())?);
    let made = Step::MakeRoom {
        name: name("f"),
        folders: &[name("d")],
        files: &[],
    };
    assert!(rt; store.act(&made).is_ok());
    let made = Step::Create {
        room: 0,
        folder: name("d"),
        file: name("log"),
    };
    assert!(rt; store.act(&made).is_ok());
    for (place, letter) in BLOCKS.iter().enumerate() {
        assert!(rt; writes(rt, &mut store, place, *letter)?);
    }
    for (place, letter) in BLOCKS.iter().enumerate() {
        assert!(rt; has(&mut store, place, *letter));
    }
    // What was read ahead isn't given behind a write.
    assert!(rt; has(&mut store, 0, b'a') && has(&mut store, 1, b'b') && has(&mut store, 2, b'c'));
    assert!(rt; writes(rt, &mut store, 3, b'x')?);
    assert!(rt; has(&mut store, 3, b'x') && has(&mut store, 4, b'e') && has(&mut store, 5, b'f'));
    drop(store);
    fs::remove_dir_all(&rt, ROOT)?;
    Ok(())
}
