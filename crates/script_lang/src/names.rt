//! Names in words: those of files, and those of actors.
ghost use Rattle.std.specs.Prelude.{◌≡◌, nat_le};
ghost use Rattle.std.specs.List.{list_all};
ghost use Rattle.script_lang.specs.Names.{file_name, is_lower_letter, is_actor_byte, is_keyword, is_actor_name};

use crate::trouble::Kind;
use crate::words::is_word;
use plfs_types::LogicalName;

// The name of a file that a word is.
pub(crate) fn file_name(word: &[u8]) -> Result<LogicalName, Kind>
    ensures { result ≡ file_name word.now }
{
    match LogicalName::read(word) {
        Some(name) => Ok(name),
        None => Err(Kind::Name),
    }
}

fn is_lower_letter(byte: u8) -> bool
    ensures { result ≡ is_lower_letter byte }
{
    b'a' <= byte && byte <= b'z'
}

fn is_actor_byte(byte: u8) -> bool
    ensures { result ≡ is_actor_byte byte }
{
    is_lower_letter(byte) || (b'0' <= byte && byte <= b'9')
}

fn is_keyword(word: &[u8]) -> bool
    ensures { result ≡ is_keyword word.now }
{
    is_word(word, b"actor") || is_word(word, b"phase") || is_word(word, b"turn")
}

fn are_actor_bytes(word: &[u8]) -> bool
    ensures { result ≡ list_all is_actor_byte word.now }
{
    word.iter().all(|byte| is_actor_byte(*byte))
}

// Whether the word is the name of an actor: 1 to 16 of a-z0-9, the first a letter, and no keyword.
pub(crate) fn is_actor_name(word: &[u8]) -> bool
    ensures { result ≡ is_actor_name word.now }
{
    word.len() <= 16
        && are_actor_bytes(word)
        && !word.is_empty()
        && is_lower_letter(word[0])
        && !is_keyword(word)
}
