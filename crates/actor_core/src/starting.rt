//! How a statement begins.
ghost use Rattle.std.specs.Prelude.{◌≡◌, ◌≤◌, ◌^◌, IfOk, OnOk};
ghost use Rattle.script_lang.specs.Ranges.{FitsData, FitsStatement};
ghost use Rattle.outcomes.specs.Data.{bytes_of};
ghost use Rattle.actor_core.specs.Endings.{armed};
ghost use Rattle.actor_core.specs.Work.{finishes};
ghost use Rattle.actor_core.specs.Writers.{opens, writes, syncs, closes};
ghost use Rattle.actor_core.specs.Readers.{opens_reader, reads, verifies, maps, refreshes, closes_reader};
ghost use Rattle.actor_core.specs.Statements.{greeted_work};
ghost use Rattle.actor_core.specs.Standings.{goes, doing_ready};

use crate::actor::Actor;
use crate::doing::Doing;
use crate::kept::Stop;
use crate::names::NamesRead;
use crate::purpose::Purpose;
use attr_flow::AttrFlow;
use flatten_core::FlattenFlow;
use index_reader::{OpenRead, Reading};
use outcomes::{block, length, map_text};
use plfs_types::{LogicalName, NoMemory};
use refresh_index::Refresh;
use script_lang::{Data, Outcome, Statement, Why};
use torn_tail::RecoverFlow;
use trunc_rename::{RenameFlow, TruncFlow};
use writer_flow::{CloseFlow, OpenWrite, SyncFlow, WriteFlow};

fn refuse(why: Why) -> Doing
    ensures { result ≡ Doing.Known (Outcome.Refused why) }
{
    Doing::Known(Outcome::Refused { why })
}

impl Actor {
    /// The statement's beginning, of an actor that has greeted or is to.
    pub(crate) fn start(&mut self, statement: Statement) -> Result<Doing, NoMemory>
        requires fits { FitsStatement statement }
        ensures goes { IfOk result (λ doing. doing_ready self.new.kept self.new.stop doing ≡ goes (greeted_work self.old.kept statement)) }
    {
        if self.kept.gone {
            drop(statement);
            return Ok(Doing::Known(Outcome::Gone));
        }
        self.stop = self.kept.armed;
        self.kept.armed = None;
        match statement {
            Statement::Open { name } => Ok(self.open(name)),
            Statement::Write { at, content } => self.write(at, content),
            Statement::Sync => Ok(self.sync()),
            Statement::Close => Ok(self.close()),
            Statement::Ropen { name, workers } => Ok(self.open_reader(name, workers)),
            Statement::Read { at, len } => self.read(at, len),
            Statement::Verify { at, content } => self.verify(at, content),
            Statement::Map => self.map(),
            Statement::Refresh => self.refresh(),
            Statement::Rclose => Ok(self.close_reader()),
            Statement::Stat { name } => Ok(Doing::Telling(AttrFlow::new(self.alloc, name))),
            Statement::Trunc { name, size } => Ok(Doing::Truncating(TruncFlow::new(name, size))),
            Statement::Rename { name, to } => Ok(Doing::Renaming(RenameFlow::new(name, to))),
            Statement::Recover { name } => {
                Ok(Doing::Recovering(RecoverFlow::new(self.alloc, name)))
            }
            Statement::Ls => Ok(Doing::Naming(NamesRead::new())),
            Statement::Stop { call, bytes } => Ok(self.arm(call, bytes)),
            Statement::Flatten { name } => {
                let machine = FlattenFlow::new(self.alloc, name);
                let flow = Box::new(self.alloc, machine)?;
                Ok(Doing::Flattening(flow))
            }
        }
    }

    fn open(&self, name: LogicalName) -> Doing
        ensures { doing_ready self.now.kept self.now.stop result ≡ goes (opens self.now.kept self.now.stop name self.now.kept.writer) }
    {
        match self.kept.writer {
            Some(_) => refuse(Why::AlreadyOpen),
            None => Doing::Opening(OpenWrite::new(name, self.kept.host, self.kept.cap)),
        }
    }

    fn write(&self, at: u64, content: Data) -> Result<Doing, NoMemory>
        requires { FitsData content }
        ensures { IfOk result (λ doing. doing_ready self.now.kept self.now.stop doing
            ≡ goes (writes self.now.kept self.now.stop at (bytes_of content) self.now.kept.writer)) }
    {
        let Some(handle) = self.kept.writer else {
            drop(content);
            return Ok(refuse(Why::NotOpen));
        };
        if handle.closing {
            drop(content);
            return Ok(refuse(Why::NotOpen));
        }
        let len = length(&content);
        if len == 0 {
            drop(content);
            return Ok(Doing::Known(Outcome::Wrote {
                at,
                len: 0,
                stamp: None,
            }));
        }
        let block = block(self.alloc, content)?;
        let flow = WriteFlow::new(handle, at, block);
        Ok(Doing::Writing { flow, at, len })
    }

    fn sync(&self) -> Doing
        ensures { doing_ready self.now.kept self.now.stop result ≡ goes (syncs self.now.kept self.now.stop self.now.kept.writer) }
    {
        match self.kept.writer {
            None => refuse(Why::NotOpen),
            Some(handle) => {
                if handle.closing {
                    refuse(Why::NotOpen)
                } else {
                    Doing::Syncing(SyncFlow::new(handle))
                }
            }
        }
    }

    fn close(&self) -> Doing
        ensures { doing_ready self.now.kept self.now.stop result ≡ goes (closes self.now.kept self.now.stop self.now.kept.writer) }
    {
        match self.kept.writer {
            None => refuse(Why::NotOpen),
            Some(handle) => Doing::Closing(CloseFlow::new(handle)),
        }
    }
}

impl Actor {
    fn open_reader(&self, name: LogicalName, workers: u32) -> Doing
        ensures { doing_ready self.now.kept self.now.stop result
            ≡ goes (opens_reader self.now.kept self.now.stop name workers self.now.kept.reader) }
    {
        match &self.kept.reader {
            Some(_) => refuse(Why::AlreadyOpen),
            None => Doing::Listing {
                flow: OpenRead::new(self.alloc, name),
                purpose: Purpose::Opens { workers },
            },
        }
    }

    fn read(&self, at: u64, len: u64) -> Result<Doing, NoMemory>
        requires { len ≤ 2 ^ 24 }
        ensures { IfOk result (λ doing. doing_ready self.now.kept self.now.stop doing
            ≡ goes (reads self.now.kept self.now.stop at len self.now.kept.reader)) }
    {
        let Some(reader) = &self.kept.reader else {
            return Ok(refuse(Why::NotOpen));
        };
        let flow = Reading::new(self.alloc, reader, at, len)?;
        Ok(Doing::Reading { flow, at })
    }

    fn verify(&self, at: u64, content: Data) -> Result<Doing, NoMemory>
        requires { FitsData content }
        ensures { IfOk result (λ doing. doing_ready self.now.kept self.now.stop doing
            ≡ goes (verifies self.now.kept self.now.stop at content self.now.kept.reader)) }
    {
        let Some(reader) = &self.kept.reader else {
            drop(content);
            return Ok(refuse(Why::NotOpen));
        };
        match Reading::new(self.alloc, reader, at, length(&content)) {
            Ok(flow) => Ok(Doing::Verifying { flow, at, content }),
            Err(why) => {
                drop(content);
                Err(why)
            }
        }
    }

    fn map(&self) -> Result<Doing, NoMemory>
        ensures { IfOk result (λ doing. doing_ready self.now.kept self.now.stop doing ≡ goes (maps self.now.kept self.now.kept.reader)) }
    {
        let Some(reader) = &self.kept.reader else {
            return Ok(refuse(Why::NotOpen));
        };
        let pieces = map_text(self.alloc, reader.pieces())?;
        Ok(Doing::Known(Outcome::Map { pieces }))
    }

    fn refresh(&mut self) -> Result<Doing, NoMemory>
        ensures goes { IfOk result (λ doing. doing_ready self.new.kept self.new.stop doing ≡ goes (refreshes self.old.kept self.old.stop self.old.kept.reader)) }
    {
        match self.kept.reader.take() {
            None => Ok(refuse(Why::NotOpen)),
            Some(reader) => {
                let machine = Refresh::new(self.alloc, reader.into_parts());
                let flow = Box::new(self.alloc, machine)?;
                Ok(Doing::Refreshing(flow))
            }
        }
    }

    fn close_reader(&mut self) -> Doing
        ensures goes { doing_ready self.new.kept self.new.stop result ≡ goes (closes_reader self.old.kept self.old.kept.reader) }
    {
        match self.kept.reader.take() {
            None => refuse(Why::NotOpen),
            Some(reader) => {
                drop(reader);
                Doing::Known(Outcome::ReaderClosed)
            }
        }
    }

    fn arm(&mut self, call: u64, bytes: u64) -> Doing
        ensures goes { doing_ready self.new.kept self.new.stop result ≡ goes (finishes (armed self.old.kept (record { call = call; bytes = bytes }))) }
    {
        self.kept.armed = Some(Stop { call, bytes });
        Doing::Known(Outcome::Armed)
    }
}
