//! Text that grows.
ghost use Rattle.std.specs.Prelude.{◌≡◌, ◌≢◌, ◌++◌, [], Some, codes, decimal, encode_utf8, flat_map};
ghost use Rattle.test_lines.specs.Growing.{HasGrownBy};
ghost use Rattle.test_lines.specs.Filled.{filled};
ghost use Rattle.test_lines.specs.Shown.{shown, differing};

use itoa::Buffer;
use std::alloc::Global;
use std::marker::Model;

/// Text that grows. A line for which there was no memory is like no text.
#[derive(Drop)]
pub struct Line {
    text: String,
    is_cut: bool,
}

impl Model for Line {
    ghost use Rattle.std.specs.Prelude.{ℕ, List, Option, string_bytes};
    ghost use Rattle.test_lines.specs.Growing.{unless_cut};

    ghost Value = { Option (List ℕ) };

    ghost view = { λ line. unless_cut line.is_cut (string_bytes line.text) };
}

impl Line {
    /// A line without text.
    pub fn new(alloc: Global) -> Self
        ensures { result ≡ Some [] }
    {
        Line {
            text: String::new(alloc),
            is_cut: false,
        }
    }

    /// The text, or where the line is cut, one that says so.
    pub fn as_str(&self) -> &str
        ensures { result.now ≡ shown self.now }
    {
        if self.is_cut {
            "no memory for this line"
        } else {
            self.text.as_str()
        }
    }

    /// This text behind what the line has.
    #[tactic(auto, using(crate::proofs::Grown::grown))]
    pub fn push(&mut self, text: &str)
        ensures { HasGrownBy text.now self.old self.new }
    {
        if self.text.push_str(text).is_err() {
            self.is_cut = true;
        }
    }

    /// A word, and this number behind it.
    #[tactic(auto, using(crate::proofs::Grown::grown_twice))]
    pub fn say(&mut self, word: &str, number: u64)
        ensures { HasGrownBy (word.now ++ decimal number) self.old self.new }
    {
        self.push(word);
        self.push(Buffer::new().format(number));
    }

    /// A word, and these bytes behind it, each a letter.
    #[tactic(auto, using(crate::proofs::Grown::grown_twice, crate::proofs::Grown::grown_not))]
    pub fn letters(&mut self, word: &str, bytes: &[u8])
        ensures { HasGrownBy (word.now ++ flat_map encode_utf8 bytes.now) self.old self.new }
    {
        self.push(word);
        for byte in bytes {
            self.letter(*byte);
        }
    }

    // A byte as a letter.
    #[tactic(auto, using(crate::proofs::Grown::grown))]
    fn letter(&mut self, byte: u8)
        ensures { HasGrownBy (encode_utf8 byte) self.old self.new }
    {
        if self.text.push(char::from(byte)).is_err() {
            self.is_cut = true;
        }
    }

    /// The pattern, with one of the numbers in the place of each `%`.
    pub fn fill(&mut self, pattern: &str, numbers: &[u64])
        ensures { HasGrownBy (filled pattern.now numbers.now) self.old self.new }
    {
        let Some((before, behind)) = pattern.split_once('%') else {
            return self.push(pattern);
        };
        self.push(before);
        if let [first, others @ ..] = numbers {
            self.push(Buffer::new().format(*first));
            self.fill(behind, others);
        } else {
            self.fill(behind, numbers);
        }
    }

    /// Says what came of a deed, where that is other than what is wanted.
    pub fn expect(&mut self, deed: &str, told: &Line, want: &str)
        ensures wanted { shown told.now ≡ want.now → self.new ≡ self.old }
        ensures other { shown told.now ≢ want.now → HasGrownBy (differing deed.now (shown told.now)) self.old self.new }
    {
        if told.as_str() != want {
            self.push(deed);
            self.push(": ");
            self.push(told.as_str());
            self.push("\n");
        }
    }
}
