//! A text that is read from its front on.
ghost use Rattle.std.specs.Prelude.{negsuc, ◌-◌, ◌≡◌, ◌≢◌, ℕ, ◌+◌, ◌<◌, ◌≤◌, ◌^◌, ◌∷◌, ◌++◌, length, IfSome, IfNone, IsTrue, IsFalse, List};
ghost use Rattle.std.specs.Char.{is_ascii_digit};
ghost use Rattle.prof_spell.specs.Spelling.{Reads, IsStuck, Apart, first};
ghost use Rattle.prof_spell.specs.Pieces.{numbers, signed, literal, words, Among};

use crate::word::Word;
use std::marker::Model;

/// Why a reading ends early. At a fault the cursor stands at the first byte that can't stand there.
#[derive(Clone, Copy, Debug, PartialEq, Eq)]
pub enum Stop {
    Fault,
    NoMemory,
}

/// The number with a `-` before it.
fn negative(n: u64) -> i64
    requires some { 0 < n }
    requires fits { n ≤ 2 ^ 63 }
    ensures { result ≡ negsuc (n - 1) }
{
    -((n - 1) as i64) - 1
}

/// What is left of a text.
#[derive(Drop)]
pub struct Cursor<'t> {
    rest: &'t [u8],
}

impl<'t> Model for Cursor<'t> {
    ghost use Rattle.std.specs.Prelude.{ℕ, List};

    ghost Value = { List ℕ };

    ghost view = { λ c. c.rest.now };
}

impl<'t> Cursor<'t> {
    pub fn new(text: &'t [u8]) -> Self
        ensures { result ≡ text.now }
    {
        Cursor { rest: text }
    }

    /// How many bytes are left.
    pub fn len(&self) -> usize
        ensures { result ≡ length self.now }
    {
        self.rest.len()
    }

    /// Another one at the same place.
    pub fn ahead(&self) -> Self
        ensures { result ≡ self.now }
    {
        Cursor { rest: self.rest }
    }

    /// The first byte.
    pub fn peek(&self) -> Option<u8>
        ensures byte { result ≡ first self.now }
        ensures small { IfSome result (λ b. b < 256) }
    {
        match self.rest {
            [] => None,
            [byte, ..] => Some(*byte),
        }
    }

    /// Whether the byte comes first.
    pub fn begins(&self, byte: u8) -> bool
        ensures yes { IsTrue result → first self.now ≡ Some byte }
        ensures no { IsFalse result → first self.now ≢ Some byte }
    {
        self.peek() == Some(byte)
    }

    /// Passes over the first byte.
    pub fn pass(&mut self)
        requires { 0 < length self.old }
        ensures { (b : ℕ) → first self.old ≡ Some b → self.old ≡ b ∷ self.new }
    {
        self.rest = &self.rest[1..];
    }

    /// The digit that comes first.
    fn digit(&self) -> Option<u64>
        ensures some { IfSome result (λ d. (d < 10) × (first self.now ≡ Some (48 + d))) }
        ensures none { IfNone result (Apart is_ascii_digit self.now) }
    {
        match self.peek() {
            Some(byte) if byte.is_ascii_digit() => Some((byte - b'0') as u64),
            _ => None,
        }
    }

    /// A number without leading zeros, up to a greatest one.
    pub fn number(&mut self, most: u64) -> Result<u64, Stop>
        ensures { Reads (numbers most) self.old result self.new }
    {
        let mut n = match self.digit() {
            Some(digit) if digit <= most => digit,
            _ => return Err(Stop::Fault),
        };
        self.pass();
        'digits: while let Some(digit) = self.digit() {
            if n == 0 || digit > most || n > (most - digit) / 10 {
                return Err(Stop::Fault);
            }
            n = 10 * n + digit;
            self.pass();
        }
        Ok(n)
    }

    /// A number of 64 bits, with `-` before a negative one.
    pub fn signed(&mut self) -> Result<i64, Stop>
        ensures { Reads signed self.old result self.new }
    {
        if !self.takes(b'-') {
            return match self.number(i64::MAX as u64) {
                Ok(n) => Ok(n as i64),
                Err(stop) => Err(stop),
            };
        }
        if self.begins(b'0') {
            return Err(Stop::Fault);
        }
        match self.number(1 << 63) {
            Ok(n) => Ok(negative(n)),
            Err(stop) => Err(stop),
        }
    }

    /// Passes over the byte where it comes first, and says whether it did.
    pub fn takes(&mut self, byte: u8) -> bool
        ensures yes { IsTrue result → self.old ≡ byte ∷ self.new }
        ensures no { IsFalse result → (self.new ≡ self.old) × (first self.old ≢ Some byte) }
    {
        if self.begins(byte) {
            self.pass();
            return true;
        }
        false
    }

    /// Passes over as much of the word as comes, and says whether it is the whole.
    pub fn takes_word(&mut self, word: &str) -> bool
        ensures yes { IsTrue result → self.old ≡ word.now ++ self.new }
        ensures no { IsFalse result → IsStuck (literal word.now) self.old self.new }
    {
        'bytes: for byte in word.as_bytes() {
            if !self.takes(*byte) {
                return false;
            }
        }
        true
    }

    /// A fixed word.
    pub fn literal(&mut self, word: &str) -> Result<(), Stop>
        ensures { Reads (literal word.now) self.old result self.new }
    {
        if self.takes_word(word) {
            Ok(())
        } else {
            Err(Stop::Fault)
        }
    }

    /// The one of these words that comes.
    pub fn one_of<W: Word>(&mut self, list: &[W]) -> Result<W, Stop>
        requires { 0 < length list.now }
        ensures { Reads (words W.word (Among list.now)) self.old result self.new }
    {
        let mut farthest = self.ahead();
        'words: for word in list {
            let mut ahead = self.ahead();
            if ahead.takes_word(word.word()) {
                *self = ahead;
                return Ok(*word);
            }
            if ahead.len() < farthest.len() {
                farthest = ahead;
            }
        }
        *self = farthest;
        Err(Stop::Fault)
    }
}
