//! Lines and words: what stands between line feeds, and between spaces.
ghost use Rattle.std.specs.Prelude.{◌≡◌, ◌+◌, ◌<◌, ◌≤◌, ◌^◌, ◌==◌, ◌∷◌, true, false, nat_eq, length, Some, None, IfSome, option_map, position, MatchOption};
ghost use Rattle.std.specs.List.{list_any, starts_with};
ghost use Rattle.script_lang.specs.ActorNames.{is_word};
ghost use Rattle.plfs_types.specs.Parts.{parts_of, words_of, is_empty};
ghost use Rattle.plfs_types.specs.Parts.{parts_behind};
ghost use Rattle.script_lang.specs.Shown.{shown};
ghost use Rattle.script_lang.specs.Spoken.{spoken, one_word, IsNext};

// Whether the word is this text. Words are short, so they are compared byte by byte.
pub(crate) fn is_word(word: &[u8], text: &[u8]) -> bool
    ensures { result ≡ is_word word.now text.now }
{
    let Some((first, others)) = word.split_first() else {
        return text.is_empty();
    };
    let Some((wanted, later)) = text.split_first() else {
        return false;
    };
    *first == *wanted && is_word(others, later)
}

// Whether the word begins so.
pub(crate) fn begins_with(word: &[u8], front: &[u8]) -> bool
    ensures begins { result ≡ starts_with nat_eq word.now front.now }
    ensures long { result ≡ true → length front.now ≤ length word.now }
{
    let Some((wanted, later)) = front.split_first() else {
        return true;
    };
    let Some((first, others)) = word.split_first() else {
        return false;
    };
    *wanted == *first && begins_with(others, later)
}

// The place of the first such byte.
pub(crate) fn place_of_byte(bytes: &[u8], at: u8) -> Option<usize>
    ensures place { result ≡ position (λ b. b == at) bytes.now }
    ensures within { IfSome result (λ place. place < length bytes.now) }
{
    bytes.iter().position(|byte| *byte == at)
}

// What stands before the first such byte, and what stands behind it, or None where there is none.
pub(crate) fn cut(bytes: &[u8], at: u8) -> (&[u8], Option<&[u8]>)
    ensures parts { parts_of at bytes.now ≡ result.0.now ∷ parts_behind at (option_map (λ r. r.now) result.1) }
    ensures front { length result.0.now ≤ length bytes.now }
    ensures shorter { IfSome result.1 (λ rest. length rest.now < length bytes.now) }
{
    match place_of_byte(bytes, at) {
        Some(place) => (&bytes[..place], Some(&bytes[place + 1..])),
        None => (bytes, None),
    }
}

// How many words are left, or None exactly where one of them is empty.
fn count_words(left: Option<&[u8]>) -> Option<usize>
    requires { IfSome left (λ words. length words.now ≤ 2 ^ 20) }
    ensures counted { let words = parts_behind 32 (option_map (λ r. r.now) left.entry) in
        MatchOption result (list_any is_empty words ≡ true) (λ count. (list_any is_empty words ≡ false) × (count ≡ length words)) }
    ensures few { IfSome result (λ count. count ≤ 2 ^ 21) }
{
    let mut count = 0;
    let mut rest = left;
    while let Some(words) = rest {
        let (word, later) = cut(words, b' ');
        if word.is_empty() {
            return None;
        }
        count += 1;
        rest = later;
    }
    Some(count)
}

// The first of the words that are left, or nothing where none is, and the words behind it. None exactly where that
// word is empty.
fn next_word(left: Option<&[u8]>) -> Option<(&[u8], Option<&[u8]>)>
    requires { IfSome left (λ words. length words.now ≤ 2 ^ 20) }
    ensures short { IfSome result (λ next. length next.0.now ≤ 2 ^ 20) }
    ensures left { IfSome result (λ next. IfSome next.1 (λ words. length words.now ≤ 2 ^ 20)) }
    ensures next { MatchOption result (list_any is_empty (parts_behind 32 (option_map (λ r. r.now) left.entry)) ≡ true)
        (λ next. IsNext (parts_behind 32 (option_map (λ r. r.now) left.entry)) next.0.now (parts_behind 32 (option_map (λ r. r.now) next.1))) }
{
    let Some(words) = left else {
        return Some((&[], None));
    };
    let (word, later) = cut(words, b' ');
    if word.is_empty() {
        return None;
    }
    Some((word, later))
}

// The words of a line that its meaning stands on.
#[derive(Clone, Copy)]
pub(crate) struct Words<'a> {
    pub count: usize,
    pub first: &'a [u8],
    pub second: &'a [u8],
    pub third: &'a [u8],
    pub fourth: &'a [u8],
}

// 1 for a word that is there.
fn one_of(word: &[u8]) -> usize
    ensures { result ≡ one_word word.now }
{
    if word.is_empty() { 0 } else { 1 }
}

// The words of a line, or None exactly where one of them is empty.
pub(crate) fn split_words(line: &[u8]) -> Option<Words<'_>>
    requires { length line.now ≤ 2 ^ 20 }
    ensures words { MatchOption result (list_any is_empty (words_of line.now) ≡ true) (λ words.
        (list_any is_empty (words_of line.now) ≡ false) × (shown words ≡ spoken (words_of line.now))) }
    ensures short { IfSome result (λ words. length words.fourth.now ≤ 2 ^ 20) }
{
    let (first, left) = next_word(Some(line))?;
    let (second, left) = next_word(left)?;
    let (third, left) = next_word(left)?;
    let (fourth, left) = next_word(left)?;
    let later = count_words(left)?;
    Some(Words {
        count: one_of(first) + one_of(second) + one_of(third) + one_of(fourth) + later,
        first,
        second,
        third,
        fourth,
    })
}
