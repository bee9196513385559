//! Tables are played, deed by deed.
use crate::changing::change;
use crate::faults::is_recovered;
use crate::runs::run;
use crate::spelling::{end, parts, spread};
use crate::stages::{Stage, acts, begin, lose};
use std::alloc::Global;
use std::process::Abort;
use std::sync::Wait;
use std::thread::Threads;
use test_lines::Line;

// How words end that are no command.
const USAGE: &str =
    "2 usage: plfs ROOT run|play|gen N|cat NAME|stat NAME|map NAME|flatten NAME|trunc NAME SIZE|rename OLD NEW|recover NAME|ls|migrate NAME|pack NAME REGION|unpack NAME FILE|names NAME\n";

// Says where the run before has left something else: so many acts of the store, an input of so many bytes, or lines of a
// recovery.
fn look(stage: &mut Stage, verb: &str, want: &str) {
    let mut told = Line::new(stage.alloc);
    match verb {
        "acts" => told.say("", acts(&stage.store)),
        "bytes" => told.say("", stage.input),
        _ => told.push(if is_recovered(stage.out.taken()) {
            "yes"
        } else {
            "no"
        }),
    }
    if told.as_str() != want {
        stage.wrong.push(verb);
        stage.wrong.push(": ");
        end(&mut stage.wrong, told.as_str());
    }
    drop(told);
}

fn play<R: Threads + Wait + Sync>(rt: &R, stage: &mut Stage, deed: &str) {
    let (first, body) = parts(deed, "\n");
    let (head, want) = parts(first, ":");
    let want = want.trim_start();
    let (verb, rest) = parts(head, " ");
    match verb {
        "acts" | "bytes" | "buried" => look(stage, verb, want),
        "three" | "faults" | "off" => begin(stage, verb, rest),
        "loss" => lose(stage, rest),
        "room" | "folder" | "no-folder" | "file" | "no-file" | "put" | "cut" | "has" => {
            change(stage, verb, rest, want)
        }
        "usage" => run(rt, stage, rest, USAGE, body),
        _ => run(rt, stage, head, want, body),
    }
}

fn play_all<R: Threads + Wait + Sync>(rt: &R, stage: &mut Stage, deeds: &str) {
    for deed in deeds.split("$ ") {
        if !deed.is_empty() {
            play(rt, stage, deed);
        }
    }
}

// Plays the sessions of the table, in each of which these deeds come first.
fn hold<R: Threads + Wait + Sync>(rt: &R, stage: &mut Stage, before: &str, table: &str) {
    for session in table.split("## ") {
        let (shows, deeds) = parts(session, "\n");
        begin(stage, "", "");
        play_all(rt, stage, before);
        play_all(rt, stage, deeds);
        // Such a session is also the text of a line for which there was no memory.
        if deeds.is_empty() && !shows.is_empty() {
            end(&mut stage.wrong, "no deeds");
        }
        if !stage.wrong.as_str().is_empty() {
            stage.wrong.push("in: ");
            return end(&mut stage.wrong, shows);
        }
    }
}

/// All comes as the tables say, where in each session of one the deeds before it come first.
pub(crate) fn all_hold<R: Threads + Wait + Sync + Abort>(
    rt: &R,
    alloc: Global,
    tables: &[(&str, &str)],
) {
    let mut stage = Stage::new(alloc);
    for (before, table) in tables {
        let mut whole = Line::new(alloc);
        spread(&mut whole, table);
        hold(rt, &mut stage, before, whole.as_str());
        drop(whole);
    }
    assert!(rt; stage.wrong.as_str().is_empty(), "{}", stage.wrong.as_str());
    drop(stage);
}
