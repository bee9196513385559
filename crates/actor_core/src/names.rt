//! The names of all files.
ghost use Rattle.std.specs.Prelude.{◌≡◌};
ghost use Rattle.mount_model.specs.Standing.{next_of, ready};
ghost use Rattle.actor_core.specs.Names.{logical_among, names_program, names_told};
ghost use Rattle.actor_core.specs.Naming.{names_standing, names_left};

use mount_model::{Call, Flow, Reply, Stuck, failure};
use plfs_types::{NameList, NoMemory};
use std::mem;

/// The machine that names all files by one call.
#[derive(Drop)]
pub enum NamesRead {
    /// The call is to be made.
    Asking,
    /// It was answered.
    Told(Result<NameList, Stuck>),
}

/// The logical names among these, in their order. It takes no memory.
fn logical(names: NameList) -> NameList
    ensures { result ≡ logical_among names }
{
    let mut names = names.into_vec();
    names.retain(|name| name.is_logical());
    NameList::from_vec(names)
}

/// The names that the reply tells.
fn told(reply: Reply) -> Result<NameList, Stuck>
    ensures { result ≡ names_told reply }
{
    match reply {
        Reply::Rooms(names) => Ok(logical(names)),
        other => {
            let why = failure(&other);
            drop(other);
            Err(why)
        }
    }
}

impl NamesRead {
    /// Before its call.
    pub fn new() -> NamesRead
        ensures { names_standing result ≡ ready names_program }
    {
        NamesRead::Asking
    }

    /// The call that is to be made, where there is one.
    fn call(&self) -> Option<Call>
        ensures { result ≡ next_of (names_standing self.now) }
    {
        match self {
            NamesRead::Asking => Some(Call::Rooms),
            NamesRead::Told(_) => None,
        }
    }
}

impl Flow for NamesRead {
    type Out = Result<NameList, Stuck>;

    ghost standing = { names_standing };

    ghost left = { names_left };

    fn next(&mut self) -> Result<Option<Call>, NoMemory> {
        Ok(self.call())
    }

    fn take(&mut self, reply: Reply) -> Result<(), NoMemory> {
        if let Reply::NoMemory = reply {
            drop(reply);
            return Err(NoMemory);
        }
        drop(mem::replace(self, NamesRead::Told(told(reply))));
        Ok(())
    }

    fn out(self) -> Result<NameList, Stuck> {
        match self {
            NamesRead::Told(result) => result,
            NamesRead::Asking => unreachable!(),
        }
    }
}
