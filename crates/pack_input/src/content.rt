//! A file's bytes, as the digits that say them.
ghost use Rattle.std.specs.Prelude.{◌≡◌, ◌+◌, ◌*◌, ◌%◌, ◌<◌, All, length, map, IfOk};
ghost use Rattle.std.specs.List.{list_all};
ghost use Rattle.pack_input.specs.Digits.{digits_of, joined_halves, worth_of};
ghost use Rattle.plfs_types.specs.Parts.{is_lower_digit as is_lower};

use plfs_types::{Bytes, NoMemory};
use std::alloc::Global;
use std::marker::Model;

/// A file's bytes. They are kept as the digits of the input, so that they take no memory of their own.
///
/// In contracts they are the plain list of the bytes.
#[derive(Drop)]
pub struct Content<'a> {
    digits: &'a [u8],
}

impl<'a> Model for Content<'a> {
    ghost use Rattle.std.specs.Prelude.{◌≡◌, ℕ, List, Some};
    ghost use Rattle.pack_input.specs.Digits.{digits_of, said_by};

    ghost Value = { List ℕ };

    ghost view = { λ c. said_by c.digits.now };

    ghost invariant = { λ c. digits_of c.digits.now ≡ Some (said_by c.digits.now) };
}

/// Whether the byte is one of 0-9 and a-f.
fn is_lower_digit(byte: u8) -> bool
    ensures { result ≡ is_lower byte }
{
    (b'0' <= byte && byte <= b'9') || (b'a' <= byte && byte <= b'f')
}

/// Whether all bytes are lower-case digits. It looks at each, so that it may take many at once.
fn are_lower_digits(word: &[u8]) -> bool
    ensures { result ≡ list_all is_lower word.now }
{
    let mut all = true;
    for byte in word {
        all = all & is_lower_digit(*byte);
    }
    all
}

/// What a lower-case digit is worth. It asks nothing of the byte, so that digits of any kind take the same time.
fn worth(digit: u8) -> u8
    ensures value { result ≡ worth_of digit }
    ensures small { result < 16 }
{
    (digit % 16 + 9 * (digit / 64)) % 16
}

/// Puts what each of these digits is worth. Each is taken alone, so that many may be taken at once.
fn put_worths(halves: &mut [u8], digits: &[u8])
    requires { length halves.old ≡ length digits.now }
    ensures { halves.new ≡ map worth_of digits.now }
{
    for place in 0..halves.len() {
        halves[place] = worth(digits[place]);
    }
}

/// The byte of two halves, the high one first. Since 4097 is 16 * 256 + 1, the product has it in its second byte. Two halves are
/// taken as one number, so that many may be taken at once.
fn joined(high: u8, low: u8) -> u8
    requires high { high < 16 }
    requires low { low < 16 }
    ensures { result ≡ high * 16 + low }
{
    let pair = u32::from(high) + 256 * u32::from(low);
    (pair * 4097 / 256 % 256) as u8
}

/// Puts the bytes of these halves, two a byte.
fn put_bytes(bytes: &mut [u8], halves: &[u8])
    requires small { All (λ half. half < 16) halves.now }
    requires pairs { length halves.now ≡ 2 * length bytes.old }
    ensures { bytes.new ≡ joined_halves halves.now }
{
    for place in 0..bytes.len() {
        bytes[place] = joined(halves[2 * place], halves[2 * place + 1]);
    }
}

/// What each of these digits is worth.
fn halves(alloc: Global, digits: &[u8]) -> Result<Vec<u8>, NoMemory>
    ensures { IfOk result (λ halves. halves.items ≡ map worth_of digits.now) }
{
    let mut halves = vec![in alloc; 0u8; digits.len()]?;
    put_worths(halves.as_mut_slice(), digits);
    Ok(halves)
}

/// The bytes of an even number of digits.
#[tactic(auto, using(crate::proofs::Worths::halves_small))]
fn decoded(alloc: Global, digits: &[u8]) -> Result<Vec<u8>, NoMemory>
    requires { length digits.now % 2 ≡ 0 }
    ensures { IfOk result (λ bytes. bytes.items ≡ joined_halves (map worth_of digits.now)) }
{
    let halves = halves(alloc, digits)?;
    let mut bytes = vec![in alloc; 0u8; digits.len() / 2]?;
    put_bytes(bytes.as_mut_slice(), halves.as_slice());
    Ok(bytes)
}

impl<'a> Content<'a> {
    /// The bytes of a word of lower-case digits, two a byte, or None where it isn't that.
    #[tactic(auto, using(crate::proofs::SaidBytes::lower_say, crate::proofs::Worths::odd_digits))]
    pub(crate) fn of(word: &'a [u8]) -> Option<Content<'a>>
        ensures { result ≡ digits_of word.now }
    {
        if word.len() % 2 != 0 || !are_lower_digits(word) {
            return None;
        }
        Some(Content { digits: word })
    }

    /// How many bytes there are.
    #[tactic(auto, using(crate::proofs::SaidBytes::half_as_long))]
    pub fn len(&self) -> usize
        ensures { result ≡ length self.now }
    {
        self.digits.len() / 2
    }

    /// The bytes.
    #[tactic(auto, using(crate::proofs::SaidBytes::joined_say, crate::proofs::SaidBytes::even_digits))]
    pub fn bytes(&self, alloc: Global) -> Result<Bytes, NoMemory>
        ensures { IfOk result (λ bytes. bytes ≡ self.now) }
    {
        let bytes = decoded(alloc, self.digits)?;
        Ok(Bytes::from_vec(bytes))
    }
}
