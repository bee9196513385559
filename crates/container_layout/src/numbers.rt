//! Numbers in names: decimal, without sign or leading zeros.
ghost use Rattle.std.specs.Prelude.{◌≡◌, ℕ, ◌<◌, ◌^◌, ◌++◌, ◌↔◌, List, [], ◌∷◌, Some, IfSome, IfNone, IsTrue, position, ◌==◌};
ghost use Rattle.std.specs.Fmt.{decimal};
ghost use Rattle.container_layout.specs.Numbers.{BeginsPlain, IsNumber, AreNumbers};

use crate::text::Text;
use plfs_types::Name;
use std::str;

/// The number in decimal.
pub fn print_number(number: u64) -> Name
    ensures { result ≡ decimal number }
{
    let mut text = Text::new();
    text.push_number(number);
    text.name()
}

/// The number whose decimal form the name is, or None exactly where there is none below 2^64.
pub fn read_number(name: &Name) -> Option<u64>
    ensures found { IfSome result (IsNumber name.now) }
    ensures only { (number : ℕ) → IsNumber name.now number → result ≡ Some number }
{
    number(name.bytes())
}

// The number whose decimal form this is.
pub fn number(text: &[u8]) -> Option<u64>
    ensures found { IfSome result (IsNumber text.now) }
    ensures none { IfNone result ((number : ℕ) → ¬ (IsNumber text.now number)) }
{
    if !begins_plain(text) {
        return None;
    }
    let Ok(text) = str::from_utf8(text) else {
        return None;
    };
    match text.parse() {
        Ok(number) => Some(number),
        Err(_) => None,
    }
}

fn begins_plain(text: &[u8]) -> bool
    ensures { IsTrue result ↔ BeginsPlain text.now }
{
    match text {
        [b'+', ..] => false,
        [b'0', _, ..] => false,
        _ => true,
    }
}

// The number before the first dot, and what stands behind the dot.
pub fn number_and_rest(text: &[u8]) -> Option<(u64, &[u8])>
    ensures found { IfSome result (λ p. (p.0 < 2 ^ 64) × (text.now ≡ decimal p.0 ++ 46 ∷ p.1.now)) }
    ensures none { IfNone result ((number : ℕ) (rest : List ℕ) → number < 2 ^ 64 → ¬ (text.now ≡ decimal number ++ 46 ∷ rest)) }
{
    let dot = first_dot(text)?;
    let before = number(&text[..dot])?;
    Some((before, &text[dot + 1..]))
}

fn first_dot(text: &[u8]) -> Option<usize>
    ensures { result ≡ position (λ b. b == 46) text.now }
{
    text.iter().position(|byte| *byte == b'.')
}

// The two numbers whose dotted forms this is.
pub fn two_numbers(text: &[u8]) -> Option<(u64, u64)>
    ensures found { IfSome result (λ p. AreNumbers text.now (p.0 ∷ p.1 ∷ [])) }
    ensures none { IfNone result ((a b : ℕ) → ¬ (AreNumbers text.now (a ∷ b ∷ []))) }
{
    let (first, rest) = number_and_rest(text)?;
    let second = number(rest)?;
    Some((first, second))
}

// The same of five.
pub fn five_numbers(text: &[u8]) -> Option<(u64, u64, u64, u64, u64)>
    ensures found { IfSome result (λ p. AreNumbers text.now (p.0 ∷ p.1 ∷ p.2 ∷ p.3 ∷ p.4 ∷ [])) }
    ensures none { IfNone result ((a b c d e : ℕ) → ¬ (AreNumbers text.now (a ∷ b ∷ c ∷ d ∷ e ∷ []))) }
{
    let (first, rest) = number_and_rest(text)?;
    let (second, rest) = number_and_rest(rest)?;
    let (third, rest) = number_and_rest(rest)?;
    let (fourth, fifth) = two_numbers(rest)?;
    Some((first, second, third, fourth, fifth))
}
