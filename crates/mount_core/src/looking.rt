//! A look at a container: the reply is what the store answered, where that is an answer to such a step.
ghost use Rattle.std.specs.Prelude.{◌≡◌};
ghost use Rattle.store_api.specs.Step.{list_folder, length_of, read_at};
ghost use Rattle.mount_model.specs.Making.{MakesAct, says};
ghost use Rattle.mount_model.specs.Looking.{listing_reply, length_reply, read_reply, LooksAt};

use crate::mount::Mount;
use edge_io::Clock;
use mount_model::{Look, Refusal, Reply};
use mount_table::otherwise;
use plfs_types::{Name, Path};
use store_api::{Answer, Step, Store, Trouble};

/// The reply to what a listing of this folder told.
fn listed(folder: Name, told: Result<Answer, Trouble>) -> Reply
    ensures { result ≡ listing_reply folder told }
{
    let at = Path {
        folder,
        file: Name::empty(),
    };
    match told {
        Ok(Answer::Names(names)) => Reply::Looked(Answer::Names(names)),
        Ok(Answer::NoFolder) => Reply::Looked(Answer::NoFolder),
        Ok(answer) => otherwise(&at, Ok(answer)),
        Err(trouble) => otherwise(&at, Err(trouble)),
    }
}

/// The reply to what the length of the file at this path told.
fn measured(at: &Path, told: Result<Answer, Trouble>) -> Reply
    ensures { result ≡ length_reply at.now told }
{
    match told {
        Ok(Answer::Number { value }) => Reply::Looked(Answer::Number { value }),
        Ok(Answer::NoFolder) => Reply::Looked(Answer::NoFolder),
        Ok(Answer::Absent) => Reply::Looked(Answer::Absent),
        Ok(answer) => otherwise(at, Ok(answer)),
        Err(trouble) => otherwise(at, Err(trouble)),
    }
}

/// The reply to what a read of at most `len` bytes of the file at this path told.
fn read(at: &Path, len: u64, told: Result<Answer, Trouble>) -> Reply
    ensures { result ≡ read_reply at.now len told }
{
    match told {
        Ok(Answer::Bytes(bytes)) => {
            if bytes.as_slice().len() as u64 <= len {
                Reply::Looked(Answer::Bytes(bytes))
            } else {
                Reply::Damaged {
                    folder: at.folder,
                    file: at.file,
                }
            }
        }
        Ok(Answer::NoFolder) => Reply::Looked(Answer::NoFolder),
        Ok(Answer::Absent) => Reply::Looked(Answer::Absent),
        Ok(answer) => otherwise(at, Ok(answer)),
        Err(trouble) => otherwise(at, Err(trouble)),
    }
}

impl<S: Store + Drop, C: Clock + Drop> Mount<S, C> {
    /// Looks at the container.
    pub(crate) fn look(&mut self, room: u64, look: &Look) -> Reply
        ensures { LooksAt room look.now self.old result self.new }
    {
        if room == self.roster.marks() {
            return Reply::Refused(Refusal::NoRoom);
        }
        match *look {
            Look::Top => self.list(room, Name::empty()),
            Look::List { folder } => self.list(room, folder),
            Look::Length { path } => self.length(room, &path),
            Look::Read { path, at, len } => self.read(room, &path, at, len),
        }
    }

    fn list(&mut self, room: u64, folder: Name) -> Reply
        ensures { MakesAct (list_folder room folder) (λ told. says (listing_reply folder told) self.old.table) self.old result self.new }
    {
        let told = self.store.act(&Step::List { room, folder });
        listed(folder, told)
    }

    fn length(&mut self, room: u64, at: &Path) -> Reply
        ensures { MakesAct (length_of room at.now.folder at.now.file) (λ told. says (length_reply at.now told) self.old.table) self.old result self.new }
    {
        let told = self.store.act(&Step::Length {
            room,
            folder: at.folder,
            file: at.file,
        });
        measured(at, told)
    }

    fn read(&mut self, room: u64, path: &Path, at: u64, len: u64) -> Reply
        ensures { MakesAct (read_at room path.now.folder path.now.file at len) (λ told. says (read_reply path.now len told) self.old.table) self.old result self.new }
    {
        let told = self.store.act(&Step::ReadAt {
            room,
            folder: path.folder,
            file: path.file,
            at,
            len,
        });
        read(path, len, told)
    }
}
