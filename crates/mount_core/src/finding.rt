//! Calls that find, make and name containers.
ghost use Rattle.std.specs.Prelude.{◌≡◌, codes};
ghost use Rattle.mount_model.specs.Finding.{Finds, MakesContainer, AreLogicalOf, RoomsReply, NamesRooms};
ghost use Rattle.mount_model.specs.Paths.{new_folders, new_files};
ghost use Rattle.store_api.specs.Step.{make_room};
ghost use Rattle.store_api.specs.Acts.{Acts};

use crate::mount::Mount;
use container_layout::{flats, metadata, openhosts, truncs};
use edge_io::Clock;
use mount_model::{Refusal, Reply};
use mount_table::{nowhere, otherwise};
use plfs_types::{LogicalName, Name, NameList};
use store_api::{Answer, Step, Store, Trouble};

/// The top file of a container.
pub(crate) fn access() -> Name
    ensures { result ≡ codes "access" }
{
    Name::from_bytes(b"access").unwrap()
}

/// The logical names among these, in their order. It takes no memory.
fn logical(names: NameList) -> NameList
    ensures { AreLogicalOf names result }
{
    let mut names = names.into_vec();
    names.retain(|name| name.is_logical());
    NameList::from_vec(names)
}

/// What is answered to what the store told of its rooms.
fn named(told: Result<Answer, Trouble>) -> Reply
    ensures { RoomsReply told result }
{
    match told {
        Ok(Answer::Names(names)) => Reply::Rooms(logical(names)),
        Ok(answer) => otherwise(&nowhere(), Ok(answer)),
        Err(trouble) => otherwise(&nowhere(), Err(trouble)),
    }
}

/// Makes the room of a new container.
fn add_room<S: Store>(store: &mut S, name: Name) -> Result<Answer, Trouble>
    ensures { Acts (make_room name new_folders new_files) (S.stored store.old) (S.stored store.new) result }
{
    store.act(&Step::MakeRoom {
        name,
        folders: &[openhosts(), metadata(), truncs(), flats()],
        files: &[access()],
    })
}

impl<S: Store + Drop, C: Clock + Drop> Mount<S, C> {
    /// Finds the container of this name.
    pub(crate) fn find(&mut self, name: &LogicalName) -> Reply
        ensures { Finds name.now self.old result self.new }
    {
        let told = self.store.act(&Step::FindRoom { name: name.name() });
        match told {
            Ok(Answer::Number { value }) => Reply::Room { room: value },
            Ok(Answer::Absent) => Reply::Refused(Refusal::NoRoom),
            Ok(answer) => otherwise(&nowhere(), Ok(answer)),
            Err(trouble) => otherwise(&nowhere(), Err(trouble)),
        }
    }

    /// Makes a container of this name, where there is none.
    pub(crate) fn make_container(&mut self, name: &LogicalName) -> Reply
        ensures { MakesContainer name.now self.old result self.new }
    {
        let told = add_room(&mut self.store, name.name());
        match told {
            Ok(Answer::Number { value }) => Reply::Room { room: value },
            Ok(Answer::Old { room }) => Reply::Room { room },
            Ok(answer) => otherwise(&nowhere(), Ok(answer)),
            Err(trouble) => otherwise(&nowhere(), Err(trouble)),
        }
    }

    /// Names all containers.
    pub(crate) fn rooms(&mut self) -> Reply
        ensures { NamesRooms self.old result self.new }
    {
        let told = self.store.act(&Step::Rooms);
        named(told)
    }
}
