//! Any call.
ghost use Rattle.mount_model.specs.Step.{Answers, IsOwed, IsStep, OwedBy};
ghost use Rattle.mount_sound.specs.Owed.{May};
ghost use Rattle.mount_sound.specs.Sound.{IsFine};

use crate::mount::Mount;
use edge_io::Clock;
use mount_model::{Ask, Call, Making, Reply};
use store_api::Store;

impl<S: Store + Drop, C: Clock + Drop> Mount<S, C> {
    /// Makes the caller's call, which is a check and at most one act. A caller owes a capacity of 1 to 4096 where it
    /// enters a writer. Broken off, the call makes a part of its act, and its caller is at its end. Where the caller owes
    /// no more of the state than it meets, what was fine stays so: the table is regular, and where the store told a sound
    /// tree as it was mounted, the state is sound.
    pub fn apply(&mut self, caller: u64, ask: &Ask) -> Reply
        requires { IsOwed ask.now }
        ensures step { IsStep self.old caller ask.now result self.new }
        ensures fine { May self.old caller ask.now → IsFine self.old → IsFine self.new }
    {
        match ask.stop {
            None => self.answer(caller, &ask.call),
            Some(k) => self.stop(caller, k, &ask.call),
        }
    }

    fn answer(&mut self, caller: u64, call: &Call) -> Reply
        requires { OwedBy call.now }
        ensures { Answers self.old caller call.now result self.new }
    {
        match call {
            Call::Greet => Reply::Greeted,
            Call::Find { name } => self.find(name),
            Call::MakeContainer { name } => self.make_container(name),
            Call::Rooms => self.rooms(),
            Call::Look { room, look } => self.look(*room, look),
            Call::Enter { room, host, cap } => self.enter(caller, *room, *host, *cap),
            Call::Floor { writer } => self.floor(caller, *writer),
            Call::MakeHostdir { writer } => self.make_hostdir(caller, *writer),
            Call::MakeIndex { writer } => self.make_index(caller, *writer),
            Call::MakeLog { writer } => self.make_log(caller, *writer),
            Call::Write { writer, at, block } => self.write(caller, *writer, *at, block),
            Call::Flush { writer } => self.flush(caller, *writer),
            Call::SyncLog { writer } => self.sync_log(caller, *writer),
            Call::SyncIndex { writer } => self.sync_index(caller, *writer),
            Call::PutMeta { writer } => self.put_meta(caller, *writer),
            Call::Exit { writer } => self.exit(caller, *writer),
            Call::Hold { room } => self.hold(caller, *room),
            Call::Mark { holder, size, top } => self.truncate(caller, *holder, *size, *top),
            Call::Move { holder, to } => self.rename(caller, *holder, to),
            Call::Release { holder } => self.release(caller, *holder),
            Call::StartFlat { room } => self.start(caller, *room, Making::Flat),
            Call::PutFlat { flat, bytes } => self.put_flat(caller, *flat, bytes.as_slice()),
            Call::SyncFlat { flat } => self.sync_flat(caller, *flat),
            Call::InstallFlat { flat } => self.install_flat(caller, *flat),
            Call::StartPack { room, host, writer } => {
                self.start_pack(caller, *room, *host, *writer)
            }
            Call::SyncDropping {
                room,
                host,
                writer,
                log,
            } => self.sync_dropping(*room, *host, *writer, *log),
            Call::Inspect { writer } => self.inspect(*writer),
            Call::Mend {
                room,
                host,
                writer,
                whole,
            } => self.mend(*room, *host, *writer, *whole),
            Call::MendMeta {
                room,
                host,
                cover,
                last,
            } => self.mend_meta(*room, *host, cover, *last),
            Call::Bury { room, host, writer } => self.bury(*room, *host, *writer),
            Call::MendHold { room } => self.mend_hold(*room),
        }
    }
}
