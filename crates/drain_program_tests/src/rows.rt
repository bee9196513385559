//! Drains of what two stores hold, and what they print and leave.
use crate::runs::{run, sink, store_of, told};
use crate::trees::is_tree;
use std::alloc::Global;
use store_memory::MemoryStore;
use test_lines::Line;

/// A writer that has closed, one that has the container open, and a truncate.
pub(crate) const TWO: &str = "\
.plfs/mounts
.plfs/mounts/1
f/openhosts
f/metadata
f/truncs
f/flats
f/hostdir.1
f//access
f/metadata/4.4.10.1.4294967297
f/openhosts/1.4294967298
f/hostdir.1/index.1.4294967297 0 4 0 10 4294967297
f/hostdir.1/log.1.4294967297 AAAA
f/hostdir.1/index.1.4294967298 1 2 0 11 4294967298
f/hostdir.1/log.1.4294967298 BB
f/truncs/12.9
";

/// What a drain of that leaves at an empty target. No writer has left there.
pub(crate) const TWO_THERE: &str = "\
.plfs/mounts
.plfs/mounts/1
f/openhosts
f/metadata
f/truncs
f/flats
f/hostdir.1
f//access
f/openhosts/1.4294967297
f/openhosts/1.4294967298
f/hostdir.1/index.1.4294967297 0 4 0 10 4294967297
f/hostdir.1/log.1.4294967297 AAAA
f/hostdir.1/index.1.4294967298 1 2 0 11 4294967298
f/hostdir.1/log.1.4294967298 BB
f/truncs/12.9
";

/// The second writer has gone on, and a third one of another mount and another host has come, and a second truncate.
pub(crate) const MORE: &str = "\
.plfs/mounts
.plfs/mounts/1
.plfs/mounts/2
f/openhosts
f/metadata
f/truncs
f/flats
f/hostdir.1
f/hostdir.2
f//access
f/metadata/4.4.10.1.4294967297
f/openhosts/1.4294967298
f/openhosts/34.8589934593
f/hostdir.1/index.1.4294967297 0 4 0 10 4294967297
f/hostdir.1/log.1.4294967297 AAAA
f/hostdir.1/index.1.4294967298 1 2 0 11 4294967298 8 1 2 13 4294967298
f/hostdir.1/log.1.4294967298 BBC
f/hostdir.2/index.34.8589934593 20 2 0 14 8589934593 22 3 2 15 8589934593
f/hostdir.2/log.34.8589934593 DDEEE
f/truncs/12.9
f/truncs/16.24
";

/// What a drain of that leaves, behind the first one or by itself.
pub(crate) const MORE_THERE: &str = "\
.plfs/mounts
.plfs/mounts/1
.plfs/mounts/2
f/openhosts
f/metadata
f/truncs
f/flats
f/hostdir.1
f/hostdir.2
f//access
f/openhosts/1.4294967297
f/openhosts/1.4294967298
f/openhosts/34.8589934593
f/hostdir.1/index.1.4294967297 0 4 0 10 4294967297
f/hostdir.1/log.1.4294967297 AAAA
f/hostdir.1/index.1.4294967298 1 2 0 11 4294967298 8 1 2 13 4294967298
f/hostdir.1/log.1.4294967298 BBC
f/hostdir.2/index.34.8589934593 20 2 0 14 8589934593 22 3 2 15 8589934593
f/hostdir.2/log.34.8589934593 DDEEE
f/truncs/12.9
f/truncs/16.24
";

// A loss of power has left fronts: of a log alone, of an entry, and no file of the second writer.
const FRONTS: &str = "\
.plfs/mounts
.plfs/mounts/1
f/openhosts
f/metadata
f/truncs
f/flats
f/hostdir.1
f//access
f/openhosts/1.4294967297
f/hostdir.1/index.1.4294967297 0 4
f/hostdir.1/log.1.4294967297 AAA
";

// The first writer has left at the target.
const LEFT_THERE: &str = "\
.plfs/mounts
.plfs/mounts/1
f/openhosts
f/metadata
f/truncs
f/flats
f/hostdir.1
f//access
f/metadata/4.4.10.1.4294967297
f/hostdir.1/index.1.4294967297 0 4 0 10 4294967297
f/hostdir.1/log.1.4294967297 AAAA
";

// That writer has gone on at the source.
const WENT_ON: &str = "\
.plfs/mounts
.plfs/mounts/1
f/openhosts
f/metadata
f/truncs
f/flats
f/hostdir.1
f//access
f/openhosts/1.4294967297
f/hostdir.1/index.1.4294967297 0 4 0 10 4294967297 4 1 4 11 4294967297
f/hostdir.1/log.1.4294967297 AAAAB
";

// A rename has taken `openhosts` away.
const HELD: &str = "\
f/metadata
f/truncs
f/flats
f//access
";

// What a drain leaves there: it adds its writers behind the mark of their mount, and finds no place for the first.
const HELD_LEFT: &str = "\
f/metadata
f/truncs
f/flats
f//access
.plfs/mounts
.plfs/mounts/1
";

// An entry of no bytes.
const BAD_ENTRY: &str = "\
.plfs/mounts
.plfs/mounts/1
f/openhosts
f/metadata
f/truncs
f/flats
f/hostdir.1
f//access
f/openhosts/1.4294967297
f/hostdir.1/index.1.4294967297 0 0 0 10 4294967297
f/hostdir.1/log.1.4294967297
";

/// What a run is about, its words, what the stores hold, the status and what is printed behind it, and what the target holds then.
struct Row {
    about: &'static str,
    words: &'static str,
    here: &'static str,
    there: &'static str,
    told: &'static str,
    left: &'static str,
}

const DRAINS: &[Row] = &[
    Row {
        about: "a first drain",
        words: "drain f",
        here: TWO,
        there: "",
        told: "0 drained 2 2 6\n",
        left: TWO_THERE,
    },
    Row {
        about: "nothing to copy",
        words: "drain f",
        here: TWO,
        there: TWO_THERE,
        told: "0 drained 0 0 0\n",
        left: TWO_THERE,
    },
    Row {
        about: "what has come, to a folder that is named",
        words: "drain f folder",
        here: MORE,
        there: TWO_THERE,
        told: "0 drained 2 3 6\n",
        left: MORE_THERE,
    },
    Row {
        about: "fronts are gone on with",
        words: "drain f",
        here: TWO,
        there: FRONTS,
        told: "0 drained 2 2 3\n",
        left: TWO_THERE,
    },
    Row {
        about: "a writer that has left at the target and did not go on",
        words: "drain f",
        here: LEFT_THERE,
        there: LEFT_THERE,
        told: "0 drained 0 0 0\n",
        left: LEFT_THERE,
    },
    Row {
        about: "a writer that has left at the target and went on",
        words: "drain f",
        here: WENT_ON,
        there: LEFT_THERE,
        told: "1 0 refused taken 4294967297 1 2\n",
        left: LEFT_THERE,
    },
    Row {
        about: "no container of the name",
        words: "drain g",
        here: TWO,
        there: "",
        told: "1 0 refused no-file\n",
        left: "",
    },
    Row {
        about: "a target that is held",
        words: "drain f",
        here: TWO,
        there: HELD,
        told: "7 0 damaged openhosts/ 0\n",
        left: HELD_LEFT,
    },
    Row {
        about: "damage at the source",
        words: "drain f",
        here: BAD_ENTRY,
        there: "",
        told: "7 0 damaged hostdir.1/index.1.4294967297 0\n",
        left: "",
    },
    Row {
        about: "damage at the target",
        words: "drain f",
        here: TWO,
        there: BAD_ENTRY,
        told: "7 0 damaged hostdir.1/index.1.4294967297 0\n",
        left: BAD_ENTRY,
    },
    Row {
        about: "a mark that is none",
        words: "drain f",
        here: ".plfs/mounts\n.plfs/mounts/x\n",
        there: "",
        told: "7 0 damaged mounts/x 0\n",
        left: "",
    },
    Row {
        about: "no folder of marks",
        words: "drain f",
        here: ".plfs\n",
        there: "",
        told: "7 0 damaged mounts/ 0\n",
        left: "",
    },
    Row {
        about: "no number is left for a mount",
        words: "drain f",
        here: ".plfs/mounts\n.plfs/mounts/4294967295\n",
        there: "",
        told: "1 0 refused mounts-spent\n",
        left: "",
    },
];

const USAGE: &str =
    "2 usage: plfs ROOT run|play|gen N|cat NAME|stat NAME|map NAME|flatten NAME|trunc NAME SIZE|rename OLD NEW|recover NAME|ls|migrate NAME|pack NAME REGION|unpack NAME FILE|names NAME\n";

/// Words that are no drain.
const OTHER_WORDS: &[&str] = &[
    "",
    "drain",
    "drain .f",
    "drain f folder more",
    "cat f",
    "f drain",
];

// Says where the row's run printed or left something else.
fn look(alloc: Global, row: &Row, wrong: &mut Line) {
    let mut out = sink(alloc, None);
    let source = store_of(alloc, row.here);
    let target = store_of(alloc, row.there);
    let ended = run(alloc, row.words, &mut out, source, target);
    let said = told(alloc, ended.status, &out);
    wrong.expect(row.about, &said, row.told);
    if !is_tree(alloc, ended.target.tree(), row.left) {
        wrong.push(row.about);
        wrong.push(" leaves something else\n");
    }
    drop((ended, said, out));
}

#[test]
fn drains_print_and_leave_this(rt: HostRuntime) {
    let alloc = rt.alloc();
    let mut wrong = Line::new(alloc);
    for row in DRAINS {
        look(alloc, row, &mut wrong);
    }
    assert!(rt; wrong.as_str().is_empty(), "{}", wrong.as_str());
    drop(wrong);
}

// Says where these words make an act at either store, or print something else.
fn refuse(alloc: Global, words: &str, wrong: &mut Line) {
    let mut out = sink(alloc, None);
    let ended = run(
        alloc,
        words,
        &mut out,
        store_of(alloc, TWO),
        store_of(alloc, ""),
    );
    let said = told(alloc, ended.status, &out);
    wrong.expect(words, &said, USAGE);
    if acts_of(&ended.store) != 0 || ended.target.acts() != 0 {
        wrong.push(words);
        wrong.push(" makes an act\n");
    }
    drop((ended, said, out));
}

// How many acts it has made.
fn acts_of(store: &Option<MemoryStore>) -> u64 {
    match store {
        Some(store) => store.acts(),
        None => u64::MAX,
    }
}

#[test]
fn words_that_are_no_drain_print_the_usage_line_and_make_no_act(rt: HostRuntime) {
    let alloc = rt.alloc();
    let mut wrong = Line::new(alloc);
    for words in OTHER_WORDS {
        refuse(alloc, words, &mut wrong);
    }
    assert!(rt; wrong.as_str().is_empty(), "{}", wrong.as_str());
    drop(wrong);
}

// The status, where the sink's first call fails, and whether the target was drained to all the same.
fn broken_sink(alloc: Global) -> (u8, bool) {
    let mut out = sink(alloc, Some(0));
    let ended = run(
        alloc,
        "drain f",
        &mut out,
        store_of(alloc, TWO),
        store_of(alloc, ""),
    );
    let is_drained = is_tree(alloc, ended.target.tree(), TWO_THERE);
    let status = ended.status;
    drop((ended, out));
    (status, is_drained)
}

#[test]
fn a_drain_whose_line_is_not_taken_ends_with_6_and_has_drained(rt: HostRuntime) {
    let (status, is_drained) = broken_sink(rt.alloc());
    assert!(rt; status == 6 && is_drained);
}
