//! Numbers in words: decimal, without sign and without leading zeros.
ghost use Rattle.std.specs.Prelude.{◌≡◌, ◌<◌, ◌^◌, ℕ, Some, IfSome, IfOk, ◌≤◌};
ghost use Rattle.std.specs.Fmt.{decimal};
ghost use Rattle.script_lang.specs.Numbers.{digit_behind, value_of, numeral_of, number_within, number_or};

use crate::trouble::Kind;

// The number with one digit more, below 2^64.
fn digit_behind(number: u64, byte: u8) -> Option<u64>
    ensures { result ≡ digit_behind number byte }
{
    if !byte.is_ascii_digit() {
        return None;
    }
    number.checked_mul(10)?.checked_add(u64::from(byte - b'0'))
}

// The number that digits write, of those below 2^64.
fn value(digits: &[u8]) -> Option<u64>
    ensures { result ≡ value_of digits.now }
{
    let mut value = 0u64;
    for byte in digits {
        match digit_behind(value, *byte) {
            Some(longer) => value = longer,
            None => return None,
        }
    }
    Some(value)
}

fn numeral(word: &[u8]) -> Option<u64>
    ensures { result ≡ numeral_of word.now }
{
    if word.is_empty() || (word.len() > 1 && word[0] == b'0') {
        return None;
    }
    value(word)
}

// The number that a word writes, of those below 2^64.
fn number(word: &[u8]) -> Option<u64>
    ensures number { result ≡ numeral_of word.now }
    // These are the words that are printed of numbers, and no others.
    ensures written { IfSome result (λ n. word.now ≡ decimal n) }
    ensures read { (n : ℕ) → n < 2 ^ 64 → word.now ≡ decimal n → result ≡ Some n }
{
    numeral(word)
}

// The number that a word writes, from `least` to `most`.
pub(crate) fn number_in(word: &[u8], least: u64, most: u64) -> Result<u64, Kind>
    ensures number { result ≡ number_within least most word.now }
    ensures limits { IfOk result (λ n. (least ≤ n) × (n ≤ most)) }
{
    match number(word) {
        Some(value) if least <= value && value <= most => Ok(value),
        _ => Err(Kind::Number),
    }
}

// The same, or `other` where the word is left out.
pub(crate) fn number_or(word: &[u8], other: u64, least: u64, most: u64) -> Result<u64, Kind>
    requires least { least ≤ other }
    requires most { other ≤ most }
    ensures number { result ≡ number_or other least most word.now }
    ensures limits { IfOk result (λ n. (least ≤ n) × (n ≤ most)) }
{
    if word.is_empty() {
        return Ok(other);
    }
    number_in(word, least, most)
}
