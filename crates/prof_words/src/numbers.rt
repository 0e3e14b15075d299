//! Numbers as words.
ghost use Rattle.std.specs.Prelude.{◌≡◌, [], ◌∷◌, ◌++◌, OnOk, OnErr};
ghost use Rattle.std.specs.Char.{is_ascii_digit};
ghost use Rattle.std.specs.List.{list_all};
ghost use Rattle.prof_words.specs.Numbers.{is_decimal, number_within, threads_of};
ghost use Rattle.prof_words.specs.Reading.{Reads};

use crate::order::WordRefusal;
use prof_io::NoMemory;
use std::alloc::Global;
use std::marker::Model;

/// Numbers of threads.
#[derive(Drop)]
pub struct Threads {
    numbers: Vec<u32>,
}

impl Model for Threads {
    ghost use Rattle.std.specs.Prelude.{ℕ, List};

    ghost Value = { List ℕ };

    ghost view = { λ t. t.numbers.items };
}

impl Threads {
    /// None yet. It takes no memory.
    pub fn new(alloc: Global) -> Self
        ensures { result ≡ [] }
    {
        Threads {
            numbers: Vec::new(alloc),
        }
    }

    pub fn push(&mut self, thread: u32) -> Result<(), NoMemory>
        ensures ok { OnOk result (self.new ≡ self.old ++ thread ∷ []) }
        ensures err { OnErr result (self.new ≡ self.old) }
    {
        self.numbers.push(thread)?;
        Ok(())
    }

    pub fn as_slice(&self) -> &[u32]
        ensures { result.now ≡ self.now }
    {
        self.numbers.as_slice()
    }
}

/// Whether all bytes are decimal digits.
fn are_digits(bytes: &[u8]) -> bool
    ensures { result ≡ list_all is_ascii_digit bytes.now }
{
    bytes.iter().all(|byte| byte.is_ascii_digit())
}

/// Whether the word is a number in decimal digits, without a zero before another digit.
fn is_decimal(word: &str) -> bool
    ensures { result ≡ is_decimal word.now }
{
    match word.as_bytes() {
        [] => false,
        [digit] => digit.is_ascii_digit(),
        digits => digits[0] != b'0' && are_digits(digits),
    }
}

/// The number that the word is, where it lies from a least to a greatest one.
pub fn number_within(word: &str, least: u32, most: u32) -> Option<u32>
    ensures { result ≡ number_within least most word.now }
{
    if !is_decimal(word) {
        return None;
    }
    match word.parse::<u32>() {
        Ok(number) if least <= number && number <= most => Some(number),
        _ => None,
    }
}

/// The numbers of threads that the word is, with a point between.
pub fn threads_of(alloc: Global, word: &str) -> Result<Threads, WordRefusal>
    ensures { Reads (threads_of word.now) result }
{
    let mut threads = Threads::new(alloc);
    for part in word.split('.') {
        let Some(thread) = number_within(part, 0, u32::MAX) else {
            return Err(WordRefusal::Usage);
        };
        match threads.push(thread) {
            Ok(()) => {}
            Err(_) => return Err(WordRefusal::NoMemory),
        }
    }
    Ok(threads)
}
