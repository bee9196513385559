//! Words, inputs and streams that are refused or break, and how many acts the store has made then.
use crate::playing::all_hold;

const WORDS: &str = "\
## Words that are no command, or of one that wants threads.
$ usage run play
$ usage run
$ usage ls f
$ usage map
$ usage map .f
$ usage migrate
$ usage trunc f 007
$ usage cat -- f
$ usage gen 0
$ usage
$ acts: 0
";

// The acts of the script are three of the mounting, six to open, one to write, three to sync, four to close, and nine of
// the reader.
const STREAMS: &str = "\
## A read fails, and nothing is done or written.
$ play, source-fault 0: 5
actor a
a open f
a write 0 text:hello
a sync
a close
a ropen f
a read 0 5
$ acts: 0
## A write fails, which cuts the lines off, and the container is written all the same.
$ play, sink-fault 3, sink-piece 1: 6 2 o
actor a
a open f
a write 0 text:hello
a sync
a close
a ropen f
a read 0 5
$ acts: 26
## The sink takes nothing.
$ play, sink-piece 0: 6
actor a
a sync
$ acts: 3
";

const FAULTS: &str = "\
## The first fault of a script is said.
$ play: 2
actor a
a  open f
= script 2 spaces
$ play: 2
b open f
= script 1 actor
$ play: 2
actor a
a open f
a fly
= script 3 word
$ play: 2
actor a
a sync now
= script 2 count
$ play: 2
actor a

# far
a read 01 1
= script 4 number
$ play: 2
actor a
a open .f
= script 2 name
$ play: 2
actor a
a write 0 hex:0
= script 2 data
$ play: 2
actor a
a\0open f
= script 2 actor
$ play: 2
actor a
actor b
a map
a fly
= script 4 word
$ acts: 0
## A byte that is no text stands in a file's name, or begins a line of nobody.
$ play: 2
actor a
a open f\u{ff}
= script 2 name
$ play: 2
\u{ff} open f
= script 1 actor
$ acts: 0
";

// They are played however they are laid out.
const SCRIPTS: &str = "\
## A script of nothing.
$ play: 0
$ acts: 3
## A script of no statement.
$ play: 0
# nobody

$ acts: 3
## An actor of another name.
$ play: 0
actor b
b open f -> open 4294967297
$ acts: 9
## The last line has no end.
$ play, unended: 0
actor a
a open f -> open 4294967297
$ acts: 9
## A blank line, and one that says nothing.
$ play: 0
actor a 0 64

# f
a open f -> open 4294967297
$ acts: 9
## Reads far from the beginning.
$ play: 0
actor a
a open f -> open 4294967297
a write 8388608 hex:00ff -> wrote 8388608 2 10
a close -> closed 1
a ropen f 1 -> reader 8388610 cut 4294967297:1 trunc -
a read 8388608 1048576 -> read 8388608 00ff
$ acts: 24
";

const LONG: &str = "\
## Reads of more than 2^28 bytes are a fault.
$ play, unended: 2
actor a
{a read 0 16777216
*16}a read 0 1
= script 18 reads
$ bytes: 306
## A script of 2^20 bytes.
$ play: 0
actor a
a open f -> open 4294967297
a write 0 text:{x*1048543} -> wrote 0 1048543 10
$ bytes: 1048576
## One more.
$ play: 2
actor a
a open f
a write 0 text:{x*1048543}

= script 0 long
$ bytes: 1048577
";

// Three acts of the mounting, six to open, one to write each of the two pieces, and five to close. Then three of each
// mounting, eight that open the reader, and one for each piece that is read.
const PIECES: &str = "\
## Each piece of a file is written out before the next is read.
$ play: 0
actor a
a open f -> open 4294967297
a write 0 fill:524288:65 -> wrote 0 524288 10
a write 524288 text:! -> wrote 524288 1 11
a close -> closed 2
$ acts: 16
$ cat f, sink-fault 9: 0 {A*524288}!
$ acts: 29
$ cat f, sink-fault 1: 6 {A*524288}
$ acts: 42
$ cat f, sink-fault 0: 6
$ acts: 54
";

#[test]
fn words_inputs_and_outputs_break_so(rt: HostRuntime) {
    all_hold(
        &rt,
        rt.alloc(),
        &[
            ("", WORDS),
            ("", STREAMS),
            // scripts
            ("", FAULTS),
            ("", SCRIPTS),
            ("", LONG),
            // files that are written out
            ("", PIECES),
        ],
    )
}
