//! What a statement does, by its word, and how many words it has.
ghost use Rattle.std.specs.Prelude.{◌≡◌, codes};
ghost use Rattle.script_lang.specs.Names.{is_word};
ghost use Rattle.script_lang.specs.Verbs.{writer_verb, reader_verb, asking_verb, changing_verb, verb_of, most_words, least_words, has_words};

use crate::words::is_word;

// What a statement does.
#[derive(Clone, Copy, PartialEq, Eq)]
pub(crate) enum Verb {
    Open,
    Write,
    Sync,
    Close,
    Ropen,
    Read,
    Verify,
    Map,
    Refresh,
    Rclose,
    Stat,
    Flatten,
    Recover,
    Trunc,
    Rename,
    Ls,
    Stop,
}

fn writer_verb(word: &[u8]) -> Option<Verb>
    ensures { result ≡ writer_verb word.now }
{
    if is_word(word, b"open") {
        return Some(Verb::Open);
    }
    if is_word(word, b"write") {
        return Some(Verb::Write);
    }
    if is_word(word, b"sync") {
        return Some(Verb::Sync);
    }
    if is_word(word, b"close") {
        return Some(Verb::Close);
    }
    None
}

fn reader_verb(word: &[u8]) -> Option<Verb>
    ensures { result ≡ reader_verb word.now }
{
    if is_word(word, b"ropen") {
        return Some(Verb::Ropen);
    }
    if is_word(word, b"read") {
        return Some(Verb::Read);
    }
    if is_word(word, b"verify") {
        return Some(Verb::Verify);
    }
    if is_word(word, b"map") {
        return Some(Verb::Map);
    }
    if is_word(word, b"refresh") {
        return Some(Verb::Refresh);
    }
    if is_word(word, b"rclose") {
        return Some(Verb::Rclose);
    }
    None
}

fn asking_verb(word: &[u8]) -> Option<Verb>
    ensures { result ≡ asking_verb word.now }
{
    if is_word(word, b"stat") {
        return Some(Verb::Stat);
    }
    if is_word(word, b"flatten") {
        return Some(Verb::Flatten);
    }
    if is_word(word, b"recover") {
        return Some(Verb::Recover);
    }
    if is_word(word, b"ls") {
        return Some(Verb::Ls);
    }
    None
}

fn changing_verb(word: &[u8]) -> Option<Verb>
    ensures { result ≡ changing_verb word.now }
{
    if is_word(word, b"trunc") {
        return Some(Verb::Trunc);
    }
    if is_word(word, b"rename") {
        return Some(Verb::Rename);
    }
    if is_word(word, b"stop") {
        return Some(Verb::Stop);
    }
    None
}

// What the statement of this word does.
pub(crate) fn verb_of(word: &[u8]) -> Option<Verb>
    ensures { result ≡ verb_of word.now }
{
    if let Some(verb) = writer_verb(word) {
        return Some(verb);
    }
    if let Some(verb) = reader_verb(word) {
        return Some(verb);
    }
    if let Some(verb) = asking_verb(word) {
        return Some(verb);
    }
    changing_verb(word)
}

fn most_words(verb: Verb) -> usize
    ensures { result ≡ most_words verb }
{
    match verb {
        Verb::Sync | Verb::Close | Verb::Map | Verb::Refresh | Verb::Rclose | Verb::Ls => 2,
        Verb::Open | Verb::Stat | Verb::Flatten | Verb::Recover => 3,
        _ => 4,
    }
}

fn least_words(verb: Verb) -> usize
    ensures { result ≡ least_words verb }
{
    match verb {
        Verb::Ropen => 3,
        _ => most_words(verb),
    }
}

// Whether a line of so many words is one of this statement.
pub(crate) fn has_words(verb: Verb, count: usize) -> bool
    ensures { result ≡ has_words verb count }
{
    least_words(verb) <= count && count <= most_words(verb)
}
