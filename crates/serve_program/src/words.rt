//! The words of `plfs_serve`, and the actors of its clients.
ghost use Rattle.std.specs.Prelude.{◌≡◌, ◌↔◌, ℕ, List, Option, IfNone, IfOk, IfSome, IsTrue, codes, option_map};
ghost use Rattle.serve_program.specs.Words.{IsHostSaid, IsServeCommand, actor_on, actors_on};

use frame_format::ACTORS;
use plfs_types::{Name, NoMemory, Word};
use program_ends::host_of;
use script_lang::{ActorDecl, ActorList};
use std::alloc::Global;

/// The usage line, which words outside the grammar print, with its line feed.
pub const USAGE: &[u8] = b"usage: plfs_serve ROOT [--at FOLDER] [HOST]\n";

/// Where requests come from, and of which host the writers of the clients are.
#[derive(Clone, Copy)]
pub struct ServeCommand<'a> {
    /// The folder by which processes come, or None where one program speaks on standard input.
    pub folder: Option<&'a Word>,
    /// The host of all writers.
    pub host: u32,
}

// Whether a folder follows behind the word.
fn is_at(word: &Word) -> bool
    ensures { IsTrue result ↔ (word.now ≡ codes "--at") }
{
    word.as_bytes() == b"--at".as_slice()
}

// The host that these words say, or None exactly where they say none.
fn host_said(words: &[Word]) -> Option<u32>
    ensures found { IfSome result (λ host. IsHostSaid words.now host) }
    ensures none { IfNone result ((host : ℕ) → IsHostSaid words.now host → ⊥) }
{
    match words {
        [] => Some(0),
        [word] => host_of(word),
        _ => None,
    }
}

impl<'a> ServeCommand<'a> {
    /// The command that the words behind ROOT are, or None exactly where they are none.
    pub fn read(words: &'a [Word]) -> Option<ServeCommand<'a>>
        ensures found { IfSome result (λ command. IsServeCommand words.now (option_map (λ folder. folder.now) command.folder) command.host) }
        ensures none { IfNone result ((folder : Option (List ℕ)) (host : ℕ) → IsServeCommand words.now folder host → ⊥) }
    {
        match words {
            [flag, folder, rest @ ..] => {
                if !is_at(flag) {
                    return None;
                }
                match host_said(rest) {
                    Some(host) => Some(ServeCommand {
                        folder: Some(folder),
                        host,
                    }),
                    None => None,
                }
            }
            _ => match host_said(words) {
                Some(host) => Some(ServeCommand { folder: None, host }),
                None => None,
            },
        }
    }
}

// An actor of this host.
fn actor_on(host: u32) -> ActorDecl
    ensures { result ≡ actor_on host }
{
    ActorDecl {
        host,
        cap: 64,
        name: Name::empty(),
    }
}

/// 256 actors of this host.
pub(crate) fn actors_on(alloc: Global, host: u32) -> Result<ActorList, NoMemory>
    ensures { IfOk result (λ actors. actors ≡ actors_on host) }
{
    let mut actors = ActorList::new(alloc);
    for _i in 0..ACTORS {
        actors.push(actor_on(host))?;
    }
    Ok(actors)
}
