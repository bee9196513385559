//! The declared actors, and the place of each by its name.
ghost use Rattle.std.specs.Prelude.{◌≡◌, ◌++◌, ◌∷◌, [], None, length, ◌<◌, OnOk, IfOk, IfSome};
ghost use Rattle.script_lang.specs.Names.{actor_place};

use crate::script::{ActorDecl, ActorList};
use crate::words::is_word;
use indexmap::IndexMap;
use plfs_types::NoMemory;
use std::alloc::{AllocError, Global};
use std::marker::Model;

// The declared actors in order, looked up by name. In contracts it is their list.
#[derive(Drop)]
pub(crate) struct Cast {
    table: IndexMap<Vec<u8>, ActorDecl>,
}

impl Model for Cast {
    ghost use Rattle.std.specs.Prelude.{◌≡◌, List, map};
    ghost use Rattle.indexmap.specs.IndexMap.{values};
    ghost use Rattle.script_lang.specs.declared.script.ActorDecl.{ActorDecl};

    ghost Value = { List ActorDecl };

    ghost view = { λ c. values c.table };

    ghost invariant = { λ c. map (λ e. e.0.items) c.table.entries ≡ map (λ e. e.1.name) c.table.entries };
}

// So many actors are sooner looked through than looked up.
const FEW: usize = 4;

// The place of the first actor of this name.
fn place_among(actors: &[ActorDecl], name: &[u8]) -> Option<usize>
    ensures place { result ≡ actor_place actors.now name.now }
    ensures within { IfSome result (λ place. place < length actors.now) }
{
    actors
        .iter()
        .position(|actor| is_word(name, actor.name.bytes()))
}

impl Cast {
    // No actors. It takes no memory.
    pub fn new(alloc: Global) -> Cast
        ensures { result ≡ [] }
    {
        Cast {
            table: IndexMap::new(alloc),
        }
    }

    // How many actors there are.
    pub fn len(&self) -> usize
        ensures { result ≡ length self.now }
    {
        self.table.len()
    }

    // The place of the actor of this name.
    pub fn place(&self, name: &[u8]) -> Option<u64>
        ensures place { result ≡ actor_place self.now name.now }
        ensures within { IfSome result (λ place. place < length self.now) }
    {
        if self.table.len() <= FEW {
            return match place_among(self.table.values().as_slice(), name) {
                Some(among) => Some(among as u64),
                None => None,
            };
        }
        match self.table.get_index_of(name) {
            Some(place) => Some(place as u64),
            None => None,
        }
    }

    // Adds an actor, whose name no other has.
    pub fn push(&mut self, alloc: Global, actor: ActorDecl) -> Result<(), NoMemory>
        requires { actor_place self.old actor.name ≡ None }
        ensures { OnOk result (self.new ≡ self.old ++ actor ∷ []) }
    {
        let name = Vec::from_slice(alloc, actor.name.bytes())?;
        let _ = self.table.insert(name, actor)?;
        Ok(())
    }

    fn into_values(self, alloc: Global) -> Result<Vec<ActorDecl>, AllocError>
        ensures { IfOk result (λ actors. actors.items ≡ self) }
    {
        self.table.into_values().collect(alloc)
    }

    // The list of the actors.
    pub fn into_list(self, alloc: Global) -> Result<ActorList, NoMemory>
        ensures { IfOk result (λ actors. actors ≡ self) }
    {
        Ok(ActorList::from_vec(self.into_values(alloc)?))
    }
}
