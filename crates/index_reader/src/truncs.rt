//! Listing a container's truncates.
ghost use Rattle.std.specs.Prelude.{◌≡◌, ◌<◌, [], IfOk};
ghost use Rattle.mount_model.specs.Standing.{ready, next_of, rest_of, replied};
ghost use Rattle.index_reader.specs.Truncs.{truncs_listed, truncs_of, trunc_program, truncs_path as path_of_truncs};
ghost use Rattle.index_reader.specs.TruncStages.{list_left, list_calls, trunc_standing, trunc_left};

use container_layout::truncs;
use mount_model::{
    Call, Flow, Look, Reply, Stuck, damage, names_in, trouble, trunc_in, truncs_by_stamp,
};
use plfs_types::{Name, NoMemory, Path, TruncList};
use std::alloc::Global;

/// Lists a container's truncates: by rising stamp, at one stamp by rising size. The first name that is no truncate's is
/// damage, and so is a missing folder.
#[derive(Drop)]
pub struct TruncRead {
    alloc: Global,
    stage: Stage,
}

#[derive(Drop)]
pub(crate) enum Stage {
    Listing(u64),
    Ended(Result<TruncList, Stuck>),
}

fn truncs_path(name: Name) -> Path
    ensures { result ≡ path_of_truncs name }
{
    Path {
        folder: truncs(),
        file: name,
    }
}

/// The truncates that the names tell, as they are listed.
fn names_told(alloc: Global, names: &[Name]) -> Result<Result<TruncList, Stuck>, NoMemory>
    ensures { IfOk result (λ found. found ≡ truncs_listed names.now []) }
{
    let mut list = Vec::new(alloc);
    for name in names {
        let Some(t) = trunc_in(*name) else {
            return Ok(Err(damage(&truncs_path(*name), 0)));
        };
        list.push(t)?;
    }
    Ok(Ok(TruncList::from_vec(list)))
}

/// The truncates that the names tell, in order. They are sorted once.
#[tactic(auto, using(crate::proofs::Containers::TruncOrder::listed_sorted, crate::proofs::Containers::TruncOrder::listed_none))]
fn truncs_in(alloc: Global, names: &[Name]) -> Result<Result<TruncList, Stuck>, NoMemory>
    ensures { IfOk result (λ found. found ≡ truncs_of names.now []) }
{
    match names_told(alloc, names)? {
        Err(because) => Ok(Err(because)),
        Ok(list) => {
            let ordered = truncs_by_stamp(list)?;
            Ok(Ok(ordered))
        }
    }
}

impl TruncRead {
    /// Lists the truncates of this room.
    pub fn new(alloc: Global, room: u64) -> Self
        ensures starts { trunc_standing result ≡ ready (trunc_program room) }
        ensures left { trunc_left result ≡ 1 }
    {
        TruncRead {
            alloc,
            stage: Stage::Listing(room),
        }
    }

    /// The call that is to be made, where there is one.
    fn call(&self) -> Option<Call>
        ensures { result ≡ next_of (trunc_standing self.now) }
    {
        match &self.stage {
            Stage::Listing(room) => Some(Call::Look {
                room: *room,
                look: Look::List { folder: truncs() },
            }),
            Stage::Ended(_) => None,
        }
    }
}

/// What comes of the listing.
fn listed(alloc: Global, room: u64, reply: Reply) -> Result<Stage, NoMemory>
    ensures goes_on { IfOk result (λ stage. list_left stage ≡ replied (rest_of (ready (list_left (Stage.Listing room)))) reply) }
    ensures fewer { IfOk result (λ stage. list_calls stage < 1) }
{
    let why = trouble(&truncs_path(Name::empty()), &reply);
    let Some(names) = names_in(reply) else {
        return Ok(Stage::Ended(Err(why)));
    };
    let found = truncs_in(alloc, names.as_slice())?;
    Ok(Stage::Ended(found))
}

impl Flow for TruncRead {
    type Out = Result<TruncList, Stuck>;

    ghost standing = { trunc_standing };

    ghost left = { trunc_left };

    fn next(&mut self) -> Result<Option<Call>, NoMemory> {
        Ok(self.call())
    }

    fn take(&mut self, reply: Reply) -> Result<(), NoMemory> {
        if let Reply::NoMemory = reply {
            return Err(NoMemory);
        }
        if let Stage::Listing(room) = self.stage {
            self.stage = listed(self.alloc, room, reply)?;
        }
        Ok(())
    }

    fn out(self) -> Result<TruncList, Stuck> {
        match self.stage {
            Stage::Ended(result) => result,
            Stage::Listing(_) => unreachable!(),
        }
    }
}
