//! The shared values: names, lists, bytes, stamps and numbers.
use plfs_types::{Block, Bytes, IdList, LogicalName, Word, fits, read_decimal, stamp_for};
use std::test::Fail;

#[test]
fn logical_names(rt: HostRuntime) {
    for (text, taken) in [
        ("f", true),
        ("gen64", true),
        ("a.b-c_D", true),
        ("_", true),
        ("", false),
        (".plfs", false),
        ("-f", false),
        ("a/b", false),
        ("a b", false),
    ] {
        assert!(rt;
            LogicalName::read(text.as_bytes()).is_some() == taken,
            "{text}"
        );
    }
}

#[test]
fn lists_and_bytes(rt: HostRuntime) -> Result<(), Fail> {
    let mut ids = IdList::new(rt.alloc());
    ids.push(7)?;
    ids.push(8)?;
    assert!(rt; ids.as_slice() == [7, 8].as_slice());
    assert!(rt; ids.remove(0) == 7);
    let mut bytes = Bytes::copy(rt.alloc(), b"hello")?;
    bytes.overwrite(3, b"p!!")?;
    assert!(rt; bytes.as_slice() == b"help!!".as_slice());
    let word = Word::copy(rt.alloc(), "play")?;
    assert!(rt; word.as_bytes() == b"play".as_slice());
    let taken = [
        Block::new(Bytes::new(rt.alloc())).is_ok(),
        Block::new(bytes).is_ok(),
    ];
    assert!(rt; taken == [false, true]);
    Ok(())
}

#[test]
fn stamps(rt: HostRuntime) {
    let given = [
        stamp_for(50, 0, 0),
        stamp_for(20, 50, 0),
        stamp_for(1, 0, 102),
        stamp_for(u64::MAX, 0, 0),
        stamp_for(1, u64::MAX >> 1, 0),
    ];
    assert!(rt; given == [Some(50), Some(51), Some(103), Some(1 << 62), None]);
    assert!(rt; [fits(1 << 40, 0), fits(u64::MAX, 2)] == [true, false]);
}

#[test]
fn decimal_numbers(rt: HostRuntime) {
    for (text, number) in [
        ("0", Some(0)),
        ("4294967297", Some(4294967297)),
        ("18446744073709551615", Some(u64::MAX)),
        ("", None),
        ("007", None),
        ("+7", None),
        ("-7", None),
        ("7 ", None),
        ("18446744073709551616", None),
    ] {
        assert!(rt; read_decimal(text.as_bytes()) == number, "{text}");
    }
}
