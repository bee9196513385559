//! A call that is broken off within its act: a part of that is made, and then the caller is at its end.
ghost use Rattle.std.specs.Prelude.{◌≤◌, ◌<◌, ◌^◌, length, option_and_then};
ghost use Rattle.plfs_types.specs.Names.{IsLogicalName};
ghost use Rattle.store_api.specs.Step.{step_of};
ghost use Rattle.mount_model.specs.Acting.{unless};
ghost use Rattle.mount_model.specs.Making.{room_check as room_refusal};
ghost use Rattle.mount_model.specs.Looking.{look_step};
ghost use Rattle.mount_model.specs.Entering.{draw_check as draw_refusal, enter_step};
ghost use Rattle.mount_model.specs.Recovering.{IsHostAndWriter};
ghost use Rattle.mount_model.specs.Step.{OwedBy};
ghost use Rattle.mount_model.specs.Stopping.{part_of, drawn_unless, IsEndedBy, IsWellTyped, Stops};
ghost use Rattle.mount_core.specs.Breaking.{BreaksOff, BreaksCall, all_or_none};

use crate::finding::access;
use crate::mount::Mount;
use crate::parting::WholeCall;
use container_layout::{flats, metadata, openhosts, truncs};
use edge_io::Clock;
use mount_model::{Call, Look, Making, Reply, Stage};
use mount_table::{Stages, open_path};
use plfs_types::{Block, LogicalName, Name};
use store_api::{Answer, Step, Store, Trouble};

/// The name is that of a container.
fn logical(name: &LogicalName)
    ensures { IsLogicalName name.now }
{
    let _ = name.name();
}

/// A host has 32 bits.
fn fits(host: u32)
    ensures { host < 2 ^ 32 }
{
    let _ = host;
}

/// A block is not empty.
fn some(block: &Block)
    ensures { 1 ≤ length block.now }
{
    let _ = block.as_slice();
}

/// The numbers of a writer's files have 32 and 64 bits.
fn fit(host: u32, writer: u64)
    ensures { IsHostAndWriter host writer }
{
    let _ = host;
    let _ = writer;
}

/// What the types of the call's parts say of it.
fn typed(call: &Call)
    ensures { IsWellTyped call.now }
{
    match call {
        Call::Find { name } => logical(name),
        Call::MakeContainer { name } => logical(name),
        Call::Enter { host, .. } => fits(*host),
        Call::Write { block, .. } => some(block),
        Call::Move { to, .. } => logical(to),
        Call::StartPack { host, writer, .. } => fit(*host, *writer),
        Call::SyncDropping { host, writer, .. } => fit(*host, *writer),
        Call::Mend { host, writer, .. } => fit(*host, *writer),
        Call::MendMeta { host, cover, .. } => fit(*host, cover.writer),
        Call::Bury { host, writer, .. } => fit(*host, *writer),
        _ => {}
    }
}

impl<S: Store + Drop, C: Clock + Drop> Mount<S, C> {
    /// Makes a part of the call's act, and puts the caller at its end.
    #[tactic(auto, using(crate::proofs::Stopped::stops))]
    pub(crate) fn stop(&mut self, caller: u64, k: u64, call: &Call) -> Reply
        requires { OwedBy call.now }
        ensures { Stops caller k call.now self.old result self.new }
    {
        typed(call);
        let told = self.break_off(caller, k, call);
        self.end(caller, told)
    }

    /// Puts the caller at its end, once its act was told.
    fn end(&mut self, caller: u64, told: Result<Answer, Trouble>) -> Reply
        ensures { IsEndedBy told result self.old caller self.new }
    {
        match told {
            Ok(_) => {}
            Err(Trouble::Fault) => {}
            Err(Trouble::NoMemory) => return Reply::NoMemory,
        }
        self.roster.end(caller);
        Reply::Stopped
    }

    /// Makes the step, or nothing at 0.
    pub(crate) fn make_if(&mut self, k: u64, step: &Step<'_>) -> Result<Answer, Trouble>
        ensures { BreaksOff (all_or_none k (step_of step.now)) self.old result self.new }
    {
        if k == 0 {
            return Ok(Answer::Made);
        }
        self.store.act(step)
    }

    /// Makes a part of the call's act.
    fn break_off(&mut self, caller: u64, k: u64, call: &Call) -> Result<Answer, Trouble>
        requires { OwedBy call.now }
        ensures { BreaksCall k self.old caller call.now result self.new }
    {
        match call {
            Call::Greet => Ok(Answer::Made),
            Call::Find { name } => self.make_if(k, &Step::FindRoom { name: name.name() }),
            Call::MakeContainer { name } => self.make_if(
                k,
                &Step::MakeRoom {
                    name: name.name(),
                    folders: &[openhosts(), metadata(), truncs(), flats()],
                    files: &[access()],
                },
            ),
            Call::Rooms => self.make_if(k, &Step::Rooms),
            Call::Look { room, look } => self.break_look(k, *room, look),
            Call::Enter { room, host, .. } => self.break_enter(k, *room, *host),
            Call::Floor { writer } => self.break_writer(
                caller,
                k,
                Stages::Only(Stage::Entered),
                *writer,
                WholeCall::Floor,
            ),
            Call::MakeHostdir { writer } => self.break_writer(
                caller,
                k,
                Stages::Only(Stage::Floored),
                *writer,
                WholeCall::Hostdir,
            ),
            Call::MakeIndex { writer } => self.break_writer(
                caller,
                k,
                Stages::Only(Stage::Housed),
                *writer,
                WholeCall::Index,
            ),
            Call::MakeLog { writer } => self.break_writer(
                caller,
                k,
                Stages::Only(Stage::Indexed),
                *writer,
                WholeCall::Log,
            ),
            Call::Write { writer, at, block } => {
                self.break_write(caller, k, *writer, *at, block.as_slice())
            }
            Call::Flush { writer } => self.break_flush(caller, k, *writer),
            Call::SyncLog { writer } => self.break_writer(
                caller,
                k,
                Stages::Only(Stage::Open),
                *writer,
                WholeCall::SyncLog,
            ),
            Call::SyncIndex { writer } => self.break_writer(
                caller,
                k,
                Stages::Only(Stage::Open),
                *writer,
                WholeCall::SyncIndex,
            ),
            Call::PutMeta { writer } => self.break_writer(
                caller,
                k,
                Stages::Closable,
                *writer,
                WholeCall::Meta,
            ),
            Call::Exit { writer } => self.break_writer(
                caller,
                k,
                Stages::Live,
                *writer,
                WholeCall::Exit,
            ),
            Call::Hold { room } => self.break_hold(k, *room),
            Call::Mark { holder, size, top } => {
                self.break_truncate(caller, k, *holder, *size, *top)
            }
            Call::Move { holder, to } => self.break_rename(caller, k, *holder, to.name()),
            Call::Release { holder } => self.break_release(caller, k, *holder),
            Call::StartFlat { room } => self.break_start(caller, k, *room, Making::Flat),
            Call::PutFlat { flat, bytes } => {
                self.break_put_flat(caller, k, *flat, bytes.as_slice())
            }
            Call::SyncFlat { flat } => self.break_sync_flat(caller, k, *flat),
            Call::InstallFlat { flat } => self.break_install_flat(caller, k, *flat),
            Call::StartPack { room, host, writer } => {
                let makes = Making::Pack {
                    host: *host,
                    writer: *writer,
                };
                self.break_start(caller, k, *room, makes)
            }
            Call::SyncDropping {
                room,
                host,
                writer,
                log,
            } => self.break_sync_dropping(k, *room, *host, *writer, *log),
            Call::Inspect { .. } => Ok(Answer::Made),
            Call::Mend {
                room,
                host,
                writer,
                whole,
            } => self.break_mend(k, *room, *host, *writer, *whole),
            Call::MendMeta {
                room,
                host,
                cover,
                last,
            } => self.break_mend_meta(k, *room, *host, cover, *last),
            Call::Bury { room, host, writer } => self.break_bury(k, *room, *host, *writer),
            Call::MendHold { room } => self.break_mend_hold(k, *room),
        }
    }

    fn break_look(&mut self, k: u64, room: u64, look: &Look) -> Result<Answer, Trouble>
        ensures { BreaksOff (option_and_then (part_of k) (unless (room_refusal self.old room) (look_step room look.now))) self.old result self.new }
    {
        if room == self.roster.marks() {
            return Ok(Answer::Made);
        }
        match *look {
            Look::Top => self.make_if(
                k,
                &Step::List {
                    room,
                    folder: Name::empty(),
                },
            ),
            Look::List { folder } => self.make_if(k, &Step::List { room, folder }),
            Look::Length { path } => self.make_if(
                k,
                &Step::Length {
                    room,
                    folder: path.folder,
                    file: path.file,
                },
            ),
            Look::Read { path, at, len } => self.make_if(
                k,
                &Step::ReadAt {
                    room,
                    folder: path.folder,
                    file: path.file,
                    at,
                    len,
                },
            ),
        }
    }

    fn break_enter(&mut self, k: u64, room: u64, host: u32) -> Result<Answer, Trouble>
        ensures { BreaksOff (option_and_then (part_of k) (unless (draw_refusal self.old room) (enter_step self.old room host))) (drawn_unless (draw_refusal self.old room) self.old) result self.new }
    {
        match self.roster.draw(room) {
            Ok(id) => {
                let at = open_path(host, id);
                self.make_if(
                    k,
                    &Step::Create {
                        room,
                        folder: at.folder,
                        file: at.file,
                    },
                )
            }
            Err(_) => Ok(Answer::Made),
        }
    }
}
