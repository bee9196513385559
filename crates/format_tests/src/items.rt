//! The names in a container: each item has one path, and other paths are of none.
ghost use Rattle.container_layout.specs.Items.{IsInRange};

use container_layout::{
    Item, flats, hostdir, metadata, openhosts, print, print_number, read, read_number, truncs,
};
use plfs_types::{Name, Path};
use std::process::Abort;

fn stands_at(rt: &impl Abort, item: Item, folder: &str, file: &str)
    requires { IsInRange item }
{
    let path = print(&item);
    let (its_folder, its_file) = (path.folder.bytes(), path.file.bytes());
    assert!(rt;
        its_folder == folder.as_bytes() && its_file == file.as_bytes(),
        "{folder}/{file}"
    );
    assert!(rt; read(&path) == Some(item), "{folder}/{file}");
}

fn is_no_item(rt: &impl Abort, folder: &str, file: &str) {
    let path = Path {
        folder: Name::from_bytes(folder.as_bytes()).expect(rt, "short"),
        file: Name::from_bytes(file.as_bytes()).expect(rt, "short"),
    };
    assert!(rt; read(&path).is_none(), "{folder}/{file}");
}

#[test]
fn files_of_the_whole_container(rt: HostRuntime) {
    stands_at(&rt, Item::Access, "", "access");
    stands_at(
        &rt,
        Item::Trunc {
            stamp: 103,
            size: 0,
        },
        "truncs",
        "103.0",
    );
    stands_at(&rt, Item::Flat { id: 4294967297 }, "flats", "4294967297");
    stands_at(
        &rt,
        Item::TmpFlat { id: u64::MAX },
        "flats",
        "tmp.18446744073709551615",
    );
}

#[test]
fn files_of_writers(rt: HostRuntime) {
    let (host, writer) = (33, 4294967298);
    stands_at(
        &rt,
        Item::OpenHost { host, writer },
        "openhosts",
        "33.4294967298",
    );
    stands_at(
        &rt,
        Item::Index { host, writer },
        "hostdir.1",
        "index.33.4294967298",
    );
    stands_at(
        &rt,
        Item::Log { host: 0, writer: 0 },
        "hostdir.0",
        "log.0.0",
    );
}

#[test]
fn what_closed_writers_left(rt: HostRuntime) {
    let (host, writer) = (u32::MAX, 9);
    let none = Item::Meta {
        last: 0,
        bytes: 0,
        stamp: 0,
        host,
        writer,
    };
    stands_at(&rt, none, "metadata", "0.0.0.4294967295.9");
    let most = Item::Meta {
        last: 1 << 40,
        bytes: 1 << 56,
        stamp: (1 << 63) - 1,
        host,
        writer,
    };
    stands_at(
        &rt,
        most,
        "metadata",
        "1099511627776.72057594037927936.9223372036854775807.4294967295.9",
    );
    for file in [
        "1099511627777.1.1.1.1",
        "8.0.3.1.1",
        "0.0.3.1.1",
        "8.8.3.1",
        "8.8.3.1.1.1",
    ] {
        is_no_item(&rt, "metadata", file);
    }
}

#[test]
fn other_names(rt: HostRuntime) {
    for file in [
        "07.1",
        "+7.1",
        "-7.1",
        "7.",
        ".7",
        "7.1.",
        "7",
        "4294967296.1",
        "7.18446744073709551616",
    ] {
        is_no_item(&rt, "openhosts", file);
    }
    for file in ["0.5", "5.1099511627777", "9223372036854775808.0"] {
        is_no_item(&rt, "truncs", file);
    }
    for (folder, file) in [
        ("hostdir.2", "index.33.5"),
        ("hostdir.33", "log.33.5"),
        ("flats", "tmp."),
        ("", "7"),
    ] {
        is_no_item(&rt, folder, file);
    }
    let long =
        "1234567890123456789012345678901234567890123456789012345678901234567890123456789012345678901234567";
    assert!(rt; Name::from_bytes(long.as_bytes()).is_none());
}

#[test]
fn folders_and_plain_numbers(rt: HostRuntime) {
    for (name, text) in [
        (openhosts(), "openhosts"),
        (metadata(), "metadata"),
        (truncs(), "truncs"),
        (flats(), "flats"),
        (hostdir(63), "hostdir.31"),
        (print_number(0), "0"),
    ] {
        assert!(rt; name.bytes() == text.as_bytes(), "{text}");
    }
    let numbers = [
        read_number(&print_number(u64::MAX)),
        read_number(&Name::empty()),
    ];
    assert!(rt; numbers == [Some(u64::MAX), None]);
}
