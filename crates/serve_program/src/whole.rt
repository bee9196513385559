//! The whole of a run: mount, exchange, closing, status.
ghost use Rattle.std.specs.Prelude.{◌≡◌, ◌≤◌, All, IfOk, length, option_map};
ghost use Rattle.mount_sound.specs.Sound.{IsFine};
ghost use Rattle.script_lang.specs.Ranges.{FitsActor};
ghost use Rattle.program_ends.specs.Ends.{ends_of};
ghost use Rattle.program_ends.specs.SoundTrees.{LeavesSoundTree, TellsSoundTree};
ghost use Rattle.serve_core.specs.Serving.{AreNew};
ghost use Rattle.serve_program.specs.Running.{Runs, RunsOn, is_starved as starved_said, status_of as status_said, stop_status as stop_said, unmounted_status as unmounted_said};
ghost use Rattle.serve_program.specs.Words.{actors_on as actors_said};

use crate::closing::close_all;
use crate::exchange::{Stop, exchange};
use crate::words::actors_on;
use edge_io::{Clock, Sink};
use frame_streams::Frames;
use mount_core::{Mount, MountTrouble};
use mount_sound::a_failed_mounting_leaves_a_sound_tree;
use program_ends::{Ended, ends};
use script_lang::ActorDecl;
use serve_core::{Client, clients_of};
use std::alloc::Global;
use store_api::Store;

fn is_starved(stop: Stop) -> bool
    ensures { result ≡ starved_said stop }
{
    matches!(stop, Stop::NoMemory)
}

fn stop_status(stop: Stop) -> u8
    ensures { result ≡ stop_said stop }
{
    match stop {
        Stop::End => 0,
        Stop::Unread => 5,
        Stop::Unwritten => 6,
        Stop::NoMemory => 3,
        Stop::Spent => 5,
    }
}

// Where a closing told of trouble, that goes before.
fn status_of(stop: Stop, trouble: u8) -> u8
    ensures { result ≡ status_said stop trouble }
{
    if trouble == 0 {
        stop_status(stop)
    } else {
        trouble
    }
}

fn unmounted_status(trouble: MountTrouble) -> u8
    ensures { result ≡ unmounted_said trouble }
{
    match trouble {
        MountTrouble::Damaged { .. } => 7,
        MountTrouble::NoMarks => 7,
        MountTrouble::Spent => 1,
        MountTrouble::Fault => 4,
        MountTrouble::NoMemory => 3,
    }
}

// The new clients of these actors are served, and then each closes its writer.
fn serve_clients<S: Store + Drop, C: Clock + Drop, I: Frames, O: Sink>(
    alloc: Global,
    mount: &mut Mount<S, C>,
    actors: &[ActorDecl],
    clients: &mut [Client],
    input: &mut I,
    out: &mut O,
) -> u8
    requires begun { AreNew actors.now clients.old }
    requires many { 256 ≤ length actors.now }
    requires fine { IsFine mount.old }
    ensures runs { RunsOn actors.now mount.old (I.given input.old) (O.taking out.old) result mount.new (I.given input.new) (O.taking out.new) }
    ensures fine { IsFine mount.new }
{
    let stop = exchange(alloc, mount, clients, input, out);
    if is_starved(stop) {
        return 3;
    }
    let Ok(trouble) = close_all(mount, clients) else {
        return 3;
    };
    status_of(stop, trouble)
}

// Answers all requests on a mount, and closes what they left open.
fn serve_mounted<S: Store + Drop, C: Clock + Drop, I: Frames, O: Sink>(
    alloc: Global,
    mount: &mut Mount<S, C>,
    actors: &[ActorDecl],
    input: &mut I,
    out: &mut O,
) -> u8
    requires fits { All FitsActor actors.now }
    requires many { 256 ≤ length actors.now }
    requires fine { IsFine mount.old }
    ensures runs { RunsOn actors.now mount.old (I.given input.old) (O.taking out.old) result mount.new (I.given input.new) (O.taking out.new) }
    ensures fine { IsFine mount.new }
{
    let Ok(mut clients) = clients_of(alloc, actors) else {
        return 3;
    };
    serve_clients(alloc, mount, actors, &mut clients, input, out)
}

// Mounts the store for these actors.
fn serve_actors<S: Store + Drop, C: Clock + Drop, I: Frames, O: Sink>(
    alloc: Global,
    actors: &[ActorDecl],
    input: &mut I,
    out: &mut O,
    store: S,
    clock: C,
) -> Ended<S>
    requires fits { All FitsActor actors.now }
    requires many { 256 ≤ length actors.now }
    ensures { Runs actors.now (I.given input.old) (I.given input.new) (ends_of (C.times clock) (O.taking out.old) (O.taking out.new) (S.stored store) (option_map S.stored result.store)) result.status }
{
    match Mount::open(alloc, store, clock) {
        Ok(mount) => {
            let mut mount = mount;
            let status = serve_mounted(alloc, &mut mount, actors, input, out);
            ends(mount.close(), status)
        }
        Err((store, trouble)) => ends(store, unmounted_status(trouble)),
    }
}

// Mounts the store for clients of this host.
fn serve_host<S: Store + Drop, C: Clock + Drop, I: Frames, O: Sink>(
    alloc: Global,
    host: u32,
    input: &mut I,
    out: &mut O,
    store: S,
    clock: C,
) -> Ended<S>
    ensures { Runs (actors_said host) (I.given input.old) (I.given input.new) (ends_of (C.times clock) (O.taking out.old) (O.taking out.new) (S.stored store) (option_map S.stored result.store)) result.status }
{
    match actors_on(alloc, host) {
        Ok(actors) => serve_actors(alloc, actors.as_slice(), input, out, store, clock),
        Err(_) => ends(store, 3),
    }
}

/// Mounts the store, and answers the requests of the source, one answer a frame, until the source ends. Then each client closes its
/// writer. The writers are of this host.
///
/// The status is 0, or 5 where the source ended within a frame or failed, 6 where the sink did, and 3 where memory was refused. Where
/// a closing told of damage or of a store that failed it is 7 or 4. Where the store can't be mounted it is 1, 3, 4 or 7, by why.
///
/// Where the store told a sound tree a sound tree is left.
pub fn serve_all<S: Store + Drop, C: Clock + Drop, I: Frames, O: Sink>(
    alloc: Global,
    host: u32,
    input: &mut I,
    out: &mut O,
    store: S,
    clock: C,
) -> Ended<S>
    ensures course { Runs (actors_said host) (I.given input.old) (I.given input.new) (ends_of (C.times clock) (O.taking out.old) (O.taking out.new) (S.stored store) (option_map S.stored result.store)) result.status }
    ensures sound { TellsSoundTree (S.stored store) → LeavesSoundTree (option_map S.stored result.store) }
{
    a_failed_mounting_leaves_a_sound_tree();
    serve_host(alloc, host, input, out, store, clock)
}
