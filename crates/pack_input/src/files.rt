//! The file that a line says.
ghost use Rattle.std.specs.Prelude.{◌≡◌};
ghost use Rattle.pack_input.specs.Reading.{is_dash as is_dash_of, content_of, judged as judged_of, file_of as file_of_words};
ghost use Rattle.plfs_types.specs.Parts.{words_of};

use crate::content::Content;
use crate::trouble::Kind;
use crate::words::{cut, has_empty_word};
use plfs_types::{LogicalName, Sequence, name_in};

/// A file by its name and its bytes.
#[derive(Drop)]
pub struct NamedFile<'a> {
    pub name: LogicalName,
    pub content: Content<'a>,
}

/// A list of files.
pub type FileList<'a> = Sequence<NamedFile<'a>>;

/// Whether the word is a dash.
fn is_dash(word: &[u8]) -> bool
    ensures { result ≡ is_dash_of word.now }
{
    match word {
        [byte] => *byte == b'-',
        _ => false,
    }
}

/// The bytes that a word says.
#[tactic(auto, using(crate::proofs::SaidBytes::no_digits))]
fn content(word: &[u8]) -> Option<Content<'_>>
    ensures { result ≡ content_of word.now }
{
    if is_dash(word) {
        return Content::of(&[]);
    }
    Content::of(word)
}

/// The file of these two words.
fn judged<'a>(name: &[u8], word: &'a [u8]) -> Result<NamedFile<'a>, Kind>
    ensures { result ≡ judged_of name.now word.now }
{
    let Some(name) = name_in(name) else {
        return Err(Kind::Name);
    };
    match content(word) {
        Some(content) => Ok(NamedFile { name, content }),
        None => Err(Kind::Data),
    }
}

/// The file that a line says, or the first kind of fault that it has.
pub(crate) fn file_of(line: &[u8]) -> Result<NamedFile<'_>, Kind>
    ensures { result ≡ file_of_words (words_of line.now) }
{
    if has_empty_word(line) {
        return Err(Kind::Spaces);
    }
    let (name, later) = cut(line, b' ');
    let Some(words) = later else {
        return Err(Kind::Count);
    };
    let (word, more) = cut(words, b' ');
    match more {
        Some(_) => Err(Kind::Count),
        None => judged(name, word),
    }
}
