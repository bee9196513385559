//! What is printed of two containers, and of changes of them.
use crate::trees::{RoomTold, Told};

const NONE: &[u8] = b"";

/// The entry of 10 bytes at place 0, stamp 5, of writer 4294967297.
const ENTRY: &[u8] =
    b"\0\0\0\0\0\0\0\0\x0a\0\0\0\0\0\0\0\0\0\0\0\0\0\0\0\x05\0\0\0\0\0\0\0\x01\0\0\0\x01\0\0\0";

/// The same of writer 4294967298.
const OTHERS: &[u8] =
    b"\0\0\0\0\0\0\0\0\x0a\0\0\0\0\0\0\0\0\0\0\0\0\0\0\0\x05\0\0\0\0\0\0\0\x02\0\0\0\x01\0\0\0";

/// The entry twice.
const TWICE: &[u8] =
    b"\0\0\0\0\0\0\0\0\x0a\0\0\0\0\0\0\0\0\0\0\0\0\0\0\0\x05\0\0\0\0\0\0\0\x01\0\0\0\x01\0\0\0\0\0\0\0\0\0\0\0\x0a\0\0\0\0\0\0\0\0\0\0\0\0\0\0\0\x05\0\0\0\0\0\0\0\x01\0\0\0\x01\0\0\0";

/// The entry, and 17 bytes more.
const TORN: &[u8] =
    b"\0\0\0\0\0\0\0\0\x0a\0\0\0\0\0\0\0\0\0\0\0\0\0\0\0\x05\0\0\0\0\0\0\0\x01\0\0\0\x01\0\0\0xxxxxxxxxxxxxxxxx";

/// The bytes of the entry.
const LOG: &[u8] = b"abcdefghij";

const FOLDERS: &[&str] = &["openhosts", "metadata", "truncs", "flats", "hostdir.1"];

const ACCESS: Told = ("", "access", NONE);

const INDEX: Told = ("hostdir.1", "index.1.4294967297", ENTRY);

const TWICE_INDEX: Told = ("hostdir.1", "index.1.4294967297", TWICE);

const TORN_INDEX: Told = ("hostdir.1", "index.1.4294967297", TORN);

const LOGGED: Told = ("hostdir.1", "log.1.4294967297", LOG);

const LEFT: Told = ("metadata", "10.10.5.1.4294967297", NONE);

const UNTRUE: Told = ("metadata", "11.10.5.1.4294967297", NONE);

const OPEN: Told = ("openhosts", "1.4294967297", NONE);

/// A writer that closed.
const CLOSED: &[Told] = &[ACCESS, LEFT, INDEX, LOGGED];

/// One that has the container open.
const OPENED: &[Told] = &[ACCESS, OPEN, INDEX, LOGGED];

/// The room of the first mount's mark.
const MARKS: RoomTold = RoomTold {
    name: ".plfs",
    folders: &["mounts"],
    files: &[("mounts", "1", NONE)],
};

/// What a run is about, its words, its rooms, its text and its status.
pub(crate) struct Row {
    pub(crate) about: &'static str,
    pub(crate) words: &'static [&'static str],
    pub(crate) rooms: &'static [RoomTold],
    pub(crate) text: &'static str,
    pub(crate) status: u8,
}

/// Two containers of which something is wrong.
pub(crate) const TWO_BROKEN: &[RoomTold] = &[
    RoomTold {
        name: "b",
        folders: FOLDERS,
        files: &[ACCESS, UNTRUE, INDEX, LOGGED],
    },
    MARKS,
    RoomTold {
        name: "a",
        folders: FOLDERS,
        files: &[ACCESS, INDEX, LOGGED],
    },
];

/// Runs with each kind of words.
pub(crate) const COMMANDS: &[Row] = &[
    Row {
        about: "no room",
        words: &[],
        rooms: &[],
        text: "sound\n",
        status: 0,
    },
    Row {
        about: "two sound containers",
        words: &[],
        rooms: &[
            RoomTold {
                name: "b",
                folders: FOLDERS,
                files: OPENED,
            },
            RoomTold {
                name: "a",
                folders: FOLDERS,
                files: CLOSED,
            },
            MARKS,
        ],
        text: "sound\n",
        status: 0,
    },
    Row {
        about: "one of them",
        words: &["b"],
        rooms: &[
            RoomTold {
                name: "b",
                folders: FOLDERS,
                files: OPENED,
            },
            RoomTold {
                name: "a",
                folders: FOLDERS,
                files: &[],
            },
            MARKS,
        ],
        text: "sound\n",
        status: 0,
    },
    Row {
        about: "no container of the name",
        words: &["c"],
        rooms: &[
            RoomTold {
                name: "b",
                folders: FOLDERS,
                files: OPENED,
            },
            RoomTold {
                name: "a",
                folders: FOLDERS,
                files: CLOSED,
            },
            MARKS,
        ],
        text: "0 refused no-file\n",
        status: 1,
    },
    Row {
        about: "two words",
        words: &["a", "b"],
        rooms: &[
            RoomTold {
                name: "a",
                folders: FOLDERS,
                files: CLOSED,
            },
            MARKS,
        ],
        text: "usage: plfs_check ROOT [NAME]\n",
        status: 2,
    },
    Row {
        about: "no logical name",
        words: &[".plfs"],
        rooms: &[
            RoomTold {
                name: "a",
                folders: FOLDERS,
                files: CLOSED,
            },
            MARKS,
        ],
        text: "usage: plfs_check ROOT [NAME]\n",
        status: 2,
    },
];

/// Several complaints of one run, and their order.
pub(crate) const CONTAINERS: &[Row] = &[
    Row {
        about: "two rooms, in the order of their names",
        words: &[],
        rooms: TWO_BROKEN,
        text: "broken unaccounted a hostdir.1/index.1.4294967297 -\nbroken untrue b metadata/11.10.5.1.4294967297 -\n",
        status: 7,
    },
    Row {
        about: "the other one alone",
        words: &["b"],
        rooms: TWO_BROKEN,
        text: "broken untrue b metadata/11.10.5.1.4294967297 -\n",
        status: 7,
    },
    Row {
        about: "two items of one container, in the order of their paths",
        words: &[],
        rooms: &[
            MARKS,
            RoomTold {
                name: "a",
                folders: FOLDERS,
                files: &[
                    ACCESS,
                    UNTRUE,
                    INDEX,
                    LOGGED,
                    ("openhosts", "1.4294967298", NONE),
                    ("hostdir.1", "index.1.4294967298", TWICE),
                ],
            },
        ],
        text: "broken entry a hostdir.1/index.1.4294967298 0\nbroken untrue a metadata/11.10.5.1.4294967297 -\n",
        status: 7,
    },
];

/// Changes of a container's shape.
pub(crate) const SHAPES: &[Row] = &[
    Row {
        about: "a room of another name",
        words: &[],
        rooms: &[
            MARKS,
            RoomTold {
                name: "b c",
                folders: FOLDERS,
                files: CLOSED,
            },
        ],
        text: "broken room-name b%20c - -\n",
        status: 7,
    },
    Row {
        about: "a folder less",
        words: &[],
        rooms: &[
            MARKS,
            RoomTold {
                name: "a",
                folders: &["openhosts", "metadata", "flats", "hostdir.1"],
                files: CLOSED,
            },
        ],
        text: "broken no-folder a truncs -\n",
        status: 7,
    },
    Row {
        about: "no file access",
        words: &[],
        rooms: &[
            MARKS,
            RoomTold {
                name: "a",
                folders: FOLDERS,
                files: &[LEFT, INDEX, LOGGED],
            },
        ],
        text: "broken no-access a access -\n",
        status: 7,
    },
    Row {
        about: "a foreign folder",
        words: &[],
        rooms: &[
            MARKS,
            RoomTold {
                name: "a",
                folders: &[
                    "openhosts",
                    "metadata",
                    "truncs",
                    "flats",
                    "hostdir.1",
                    "hostdir.32",
                ],
                files: CLOSED,
            },
        ],
        text: "broken foreign-folder a hostdir.32 -\n",
        status: 7,
    },
    Row {
        about: "a foreign file",
        words: &[],
        rooms: &[
            MARKS,
            RoomTold {
                name: "a",
                folders: FOLDERS,
                files: &[ACCESS, LEFT, INDEX, LOGGED, ("truncs", "6 0", NONE)],
            },
        ],
        text: "broken foreign a truncs/6%200 -\n",
        status: 7,
    },
];

/// Files that have bytes, and ids that nobody drew.
pub(crate) const PLACES: &[Row] = &[
    Row {
        about: "a mark with bytes",
        words: &[],
        rooms: &[
            RoomTold {
                name: ".plfs",
                folders: &["mounts"],
                files: &[("mounts", "1", LOG)],
            },
            RoomTold {
                name: "a",
                folders: FOLDERS,
                files: &[ACCESS],
            },
        ],
        text: "broken no-mark .plfs mounts/1 -\n",
        status: 7,
    },
    Row {
        about: "a truncate with bytes",
        words: &[],
        rooms: &[
            MARKS,
            RoomTold {
                name: "a",
                folders: FOLDERS,
                files: &[ACCESS, LEFT, INDEX, LOGGED, ("truncs", "6.0", LOG)],
            },
        ],
        text: "broken filled a truncs/6.0 -\n",
        status: 7,
    },
    Row {
        about: "an id of no mark",
        words: &[],
        rooms: &[
            MARKS,
            RoomTold {
                name: "a",
                folders: FOLDERS,
                files: &[
                    ACCESS,
                    LEFT,
                    INDEX,
                    LOGGED,
                    ("hostdir.1", "log.1.8589934593", NONE),
                ],
            },
        ],
        text: "broken unmarked a hostdir.1/log.1.8589934593 -\n",
        status: 7,
    },
    Row {
        about: "two hosts of a writer",
        words: &[],
        rooms: &[
            MARKS,
            RoomTold {
                name: "a",
                folders: FOLDERS,
                files: &[
                    ACCESS,
                    LEFT,
                    INDEX,
                    LOGGED,
                    ("openhosts", "2.4294967297", NONE),
                ],
            },
        ],
        text: "broken two-hosts a 4294967297 -\n",
        status: 7,
    },
];

/// Changes of an index.
pub(crate) const INDICES: &[Row] = &[
    Row {
        about: "an entry that doesn't follow",
        words: &[],
        rooms: &[
            MARKS,
            RoomTold {
                name: "a",
                folders: FOLDERS,
                files: &[ACCESS, OPEN, TWICE_INDEX, LOGGED],
            },
        ],
        text: "broken entry a hostdir.1/index.1.4294967297 40\n",
        status: 7,
    },
    Row {
        about: "an entry of another writer",
        words: &[],
        rooms: &[
            MARKS,
            RoomTold {
                name: "a",
                folders: FOLDERS,
                files: &[ACCESS, OPEN, ("hostdir.1", "index.1.4294967297", OTHERS)],
            },
        ],
        text: "broken entry a hostdir.1/index.1.4294967297 0\n",
        status: 7,
    },
    Row {
        about: "a torn tail of a writer that closed",
        words: &[],
        rooms: &[
            MARKS,
            RoomTold {
                name: "a",
                folders: FOLDERS,
                files: &[ACCESS, LEFT, TORN_INDEX, LOGGED],
            },
        ],
        text: "broken unsettled a hostdir.1/index.1.4294967297 -\n",
        status: 7,
    },
    Row {
        about: "a torn tail of one that has the container open",
        words: &[],
        rooms: &[
            MARKS,
            RoomTold {
                name: "a",
                folders: FOLDERS,
                files: &[ACCESS, OPEN, TORN_INDEX, LOGGED],
            },
        ],
        text: "sound\n",
        status: 0,
    },
];

/// Changes of truncates and of a flattened index.
pub(crate) const STAMPS: &[Row] = &[
    Row {
        about: "a truncate of an entry's stamp",
        words: &[],
        rooms: &[
            MARKS,
            RoomTold {
                name: "a",
                folders: FOLDERS,
                files: &[ACCESS, LEFT, INDEX, LOGGED, ("truncs", "5.0", NONE)],
            },
        ],
        text: "broken between a hostdir.1/index.1.4294967297 5\n",
        status: 7,
    },
    Row {
        about: "two truncates of one stamp",
        words: &[],
        rooms: &[
            MARKS,
            RoomTold {
                name: "a",
                folders: FOLDERS,
                files: &[
                    ACCESS,
                    LEFT,
                    INDEX,
                    LOGGED,
                    ("truncs", "9.0", NONE),
                    ("truncs", "9.1", NONE),
                ],
            },
        ],
        text: "broken two-truncates a truncs 9\n",
        status: 7,
    },
    Row {
        about: "a flattened index of other bytes",
        words: &[],
        rooms: &[
            MARKS,
            RoomTold {
                name: "a",
                folders: FOLDERS,
                files: &[ACCESS, LEFT, INDEX, LOGGED, ("flats", "4294967298", LOG)],
            },
        ],
        text: "broken wrong-index a flats/4294967298 -\n",
        status: 7,
    },
];
