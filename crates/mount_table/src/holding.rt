//! Whether a container may be held or truncated, and what comes of its hold and of its release.
ghost use Rattle.std.specs.Prelude.{◌≡◌, ℕ, ◌≤◌, ◌<◌, List, [], ◌∷◌, ◌++◌, IfOk, IfErr, IfSome, IfNone};
ghost use Rattle.plfs_types.specs.declared.limits.TheConstants.{MAX_SIZE, MAX_STAMP};
ghost use Rattle.container_layout.specs.declared.items.Item.TheVariants.{OpenHost};
ghost use Rattle.container_layout.specs.Paths.{IsIn};
ghost use Rattle.mount_model.specs.declared.row.Holder.{Holder};
ghost use Rattle.mount_model.specs.declared.reply.Refusal.TheVariants.{Busy};
ghost use Rattle.container_layout.specs.Paths.{openhosts as openhosts_name};
ghost use Rattle.mount_model.specs.Holding.{HoldOutcome, IsNoWriters, NotEmptyReply, truncate_check as truncate_refusal, truncate_stamp as truncate_stamp_of, release_outcome};
ghost use Rattle.mount_table.specs.Roll.{with_table};
ghost use Rattle.mount_table.specs.Admitting.{IsHolderAdmitted, IsTurnedAway};
ghost use Rattle.mount_table.specs.Settling.{IsSettled};

use crate::roster::Roster;
use crate::telling::otherwise;
use container_layout::{Item, openhosts, read};
use mount_model::{Holder, Refusal, Reply};
use plfs_types::{MAX_SIZE, MAX_STAMP, MAX_TIME, Name, NoMemory, Path};
use store_api::{Answer, Trouble};

/// The refusal that names the writer whose entry this is in the folder of who has a container open.
fn busy(name: &Name) -> Option<Refusal>
    ensures some { IfSome result (λ why. (host : ℕ) × (writer : ℕ) × IsIn openhosts_name name.now (OpenHost host writer) × (why ≡ Busy host writer)) }
    ensures none { IfNone result (IsNoWriters name.now) }
{
    let path = Path {
        folder: openhosts(),
        file: *name,
    };
    match read(&path) {
        Some(Item::OpenHost { host, writer }) => Some(Refusal::Busy { host, id: writer }),
        _ => None,
    }
}

/// The reply where this is the least name in that folder.
fn not_empty(least: Name) -> Reply
    ensures { NotEmptyReply least result }
{
    match busy(&least) {
        Some(why) => Reply::Refused(why),
        None => Reply::Damaged {
            folder: openhosts(),
            file: least,
        },
    }
}

/// Why no truncate to so many bytes is made above this stamp.
pub fn truncate_check(size: u64, top: u64) -> Option<Refusal>
    ensures same { result ≡ truncate_refusal size top }
    ensures fine { IfNone result ((size ≤ MAX_SIZE) × (top < MAX_STAMP)) }
{
    if size > MAX_SIZE {
        return Some(Refusal::TooFar);
    }
    if top >= MAX_STAMP {
        return Some(Refusal::StampsSpent);
    }
    None
}

/// The clock's time cut to 2^62, but above this stamp.
#[tactic(auto, unfolding(mount_model::specs::Holding::truncate_stamp))]
pub fn truncate_stamp(time: u64, top: u64) -> u64
    requires { top < MAX_STAMP }
    ensures same { result ≡ truncate_stamp_of time top }
    ensures later { top < result }
    ensures fits { result ≤ MAX_STAMP }
{
    time.min(MAX_TIME).max(top + 1)
}

impl Roster {
    /// Draws the next serial, and adds a holder of the room by its number at the end of the table.
    pub fn admit_holder(&mut self, caller: u64, room: u64) -> Result<Holder, Reply>
        ensures ok { IfOk result (λ h. IsHolderAdmitted caller room self.old h self.new) }
        ensures err { IfErr result (λ reply. IsTurnedAway room self.old reply self.new) }
    {
        let number = match self.draw(room) {
            Ok(number) => number,
            Err(why) => return Err(Reply::Refused(why)),
        };
        let holder = Holder {
            number,
            owner: caller,
            room,
        };
        match self.add_holder(holder) {
            Ok(()) => Ok(holder),
            Err(NoMemory) => Err(Reply::NoMemory),
        }
    }

    /// Settles the removal of the folder of who has the room open: the holder that was added last stays only where it
    /// was removed.
    pub fn held(&mut self, holder: Holder, told: Result<Answer, Trouble>) -> Reply
        ensures { (holders : List Holder) → self.old.table.holders ≡ holders ++ holder ∷ []
            → HoldOutcome holder (record self.old.table { holders = holders }) told result self.new.table × (self.new ≡ with_table self.new.table self.old) }
    {
        let at = Path {
            folder: openhosts(),
            file: Name::empty(),
        };
        let answer = match told {
            Ok(answer) => answer,
            Err(trouble) => {
                self.forget_last_holder();
                return otherwise(&at, Err(trouble));
            }
        };
        match answer {
            Answer::Made => Reply::Holding {
                holder: holder.number,
            },
            Answer::NoFolder => {
                self.forget_last_holder();
                Reply::Refused(Refusal::Held)
            }
            Answer::NotEmpty { least } => {
                self.forget_last_holder();
                not_empty(least)
            }
            other => {
                self.forget_last_holder();
                otherwise(&at, Ok(other))
            }
        }
    }

    /// Settles the making of the folder of who has the room open: the holder is gone where it was made or was there,
    /// and after a fault too.
    pub fn released(&mut self, holder: Holder, told: Result<Answer, Trouble>) -> Reply
        ensures { IsSettled (release_outcome holder self.old.table told) self.old result self.new }
    {
        let at = Path {
            folder: openhosts(),
            file: Name::empty(),
        };
        match told {
            Ok(Answer::Made | Answer::Old { .. }) => {
                self.let_go(holder.number);
                Reply::Done
            }
            Ok(answer) => otherwise(&at, Ok(answer)),
            Err(Trouble::Fault) => {
                self.let_go(holder.number);
                Reply::Fault
            }
            Err(Trouble::NoMemory) => Reply::NoMemory,
        }
    }
}
