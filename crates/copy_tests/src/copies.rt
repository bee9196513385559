//! What is copied in and out.
use crate::deeds::all_hold;
use test_lines::Line;

const COPIES: &str = "\
## A file is put, is not put again, is put over, and is written out. Who cuts a file has an id before its writer.
$ put f 3: 0 put 5 4294967297
hello
$ get f: 0 hello
$ put f: 1 0 refused exists
again
$ get f: 0 hello
$ put f --over: 0 put 2 21474836482
hi
$ put f 4 --over: 0 put 3 25769803778
bye
$ get f: 0 bye
## A source without bytes makes a file without bytes, also over one that is not there.
$ put f: 0 put 0 4294967297
$ get f: 0
$ put g --over: 0 put 0 12884901889
$ get h: 1 0 refused no-file
## Words that are no command.
$ put: 2 usage: plfs_copy ROOT put NAME [HOST] [--over] [--from FILE..]|get NAME|import DIR [HOST] [--over]|export DIR [--over]
$ get: 2 usage: ..
$ get f f: 2 usage: ..
$ put .f: 2 usage: ..
$ put f --over 3: 2 usage: ..
$ put f 007: 2 usage: ..
$ put f 4294967296: 2 usage: ..
$ cat f: 2 usage: ..
$ : 2 usage: ..
$ get f: 1 0 refused no-file
## Where a read of the source fails, what came before is put and kept.
$ put f, fails 0: 5 put 0 4294967297
hello
$ get f: 0
$ put g, fails 1: 5 put 3 12884901889
hello
$ loss
$ get g: 0 hel
";

const IMPORTS: &str = "\
## Several are put, the last one first. One that is there is refused, and the next one follows.
$ import g f: 0 f put 5 4294967297; g put 4 4294967298
data
hello
$ import h f: 1 f 0 refused exists; h put 4 8589934593
more
again
$ get f: 0 hello
$ get g: 0 data
$ import over f: 0 f put 2 21474836482
hi
$ get f: 0 hi
$ get h: 0 more
## Nothing is put of no source.
$ import: 0
";

// Three acts of the mounting, one to look for the name, six to open, one to write, three to sync and four to close.
const ACTS: u64 = 18;

const LOST: &str = "\
## The power goes off behind the last act.
$ off 18 0
$ put f: 0 put 5 4294967297
hello
$ loss
$ get f: 0 hello
";

const OFF: &str = "\
## The power goes off in the act %, which leaves % bytes.
$ off % %
$ put f: 4 0 fault
hello
$ loss
$ front f: hello
$ put g: 0 put 5 ..
hello
$ loss
$ get g: 0 hello
";

#[test]
fn copies_print_and_leave_this(rt: HostRuntime) {
    let mut sessions = Line::new(rt.alloc());
    sessions.push(COPIES);
    sessions.push(IMPORTS);
    sessions.push(LOST);
    for act in 0..ACTS {
        for part in [0, 2] {
            sessions.fill(OFF, &[act, part, act, part]);
        }
    }
    all_hold(&rt, rt.alloc(), sessions.as_str());
    drop(sessions);
}
