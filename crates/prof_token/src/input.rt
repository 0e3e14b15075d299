// A window over the bytes of a lent source.
ghost use Rattle.std.specs.Prelude.{◌≡◌, ◌+◌, ◌<◌, ◌≤◌, ◌-◌, List, [], length, take, IfOk, IfSome, OnOk, IsOk, Ok, None, vec_len};
ghost use Rattle.std.specs.Io.KnownBytes.{IsAtEnd};
ghost use Rattle.prof_io.specs.Causes.{HasCause};
ghost use Rattle.prof_io.specs.Outside.{seen};
ghost use Rattle.prof_token.specs.Ahead.{IsNext, IsSame, IsShown, Passes};
ghost use Rattle.prof_grammar.specs.Machine.{Part, finish};
ghost use Rattle.prof_token.specs.Goes.{Goes};
ghost use Rattle.prof_token.specs.Moves.{Moves, fault_of};

use crate::JsonFault;
use prof_io::{Failed, NoMemory, Source};
use std::alloc::Global;
use std::marker::Model;

/// How many bytes are taken at most before they are read.
const WINDOW: usize = 65_536;

/// The bytes that were taken from a source and not yet read, with the place of the first of them in the text.
#[derive(Drop)]
pub struct Input {
    window: Vec<u8>,
    from: usize,
    to: usize,
    place: u64,
    limit: u64,
}

impl Model for Input {
    ghost use Rattle.std.specs.Prelude.{◌≤◌, ◌<◌, slice_range, vec_len};
    ghost use Rattle.prof_token.specs.Ahead.{Ahead};

    ghost Value = { Ahead };

    ghost view = { λ i. record { bytes = slice_range i.window.items i.from i.to; place = i.place; limit = i.limit } };

    ghost invariant = { λ i. (0 < vec_len i.window) × (vec_len i.window ≤ 65536) × (i.from ≤ i.to) × (i.to ≤ vec_len i.window) × (i.place ≤ i.limit) };
}

/// A window that holds nothing yet.
fn empty_window(alloc: Global) -> Result<Vec<u8>, NoMemory>
    ensures { IfOk result (λ w. vec_len w ≡ 65536) }
{
    match vec![in alloc; 0; WINDOW] {
        Ok(window) => Ok(window),
        Err(_) => Err(NoMemory),
    }
}

impl Input {
    /// No byte was taken yet.
    pub fn new(alloc: Global, limit: u64) -> Result<Self, NoMemory>
        ensures { IfOk result (λ i. (i.bytes ≡ []) × (i.place ≡ 0) × (i.limit ≡ limit)) }
    {
        let window = empty_window(alloc)?;
        Ok(Input {
            window,
            from: 0,
            to: 0,
            place: 0,
            limit,
        })
    }

    /// Sees to it that a byte is ahead, unless the source has none left.
    fn fill<S: Source>(&mut self, src: &mut S) -> Result<(), Failed>
        ensures same { IsSame self.old (S.left src.old) self.new (S.left src.new) }
        ensures end { OnOk result (self.new.bytes ≡ [] → IsAtEnd (S.left src.new)) }
        ensures near { length self.new.bytes ≤ 65536 }
        ensures written { S.written src.new ≡ S.written src.old }
        ensures place { S.place src.new ≡ S.place src.old }
        ensures sure { S.sure src.old → IsOk result × S.sure src.new }
        ensures cause { HasCause (S.faults src.old) (S.faults src.new) result }
    {
        if self.from < self.to {
            return Ok(());
        }
        let count = src.read(&mut self.window)?;
        self.from = 0;
        self.to = count;
        Ok(())
    }

    /// Shows the next byte, or `None` where the source has none left.
    pub fn peek<S: Source>(&mut self, src: &mut S) -> Result<Option<u8>, JsonFault>
        ensures moves { Moves (fault_of result) self.old (seen S.Counted src.old) self.new (seen S.Counted src.new) }
        ensures same { IsSame self.old (S.left src.old) self.new (S.left src.new) }
        ensures shown { IfOk result (λ o. IsShown o self.new (S.left src.new)) }
        ensures exact { (ps : List Part) → Goes (fault_of result) self.old (S.left src.old) ps [] self.new (S.left src.new) ps }
    {
        if let Err(Failed) = self.fill(src) {
            return Err(JsonFault::ReadFault);
        }
        if self.from == self.to {
            return Ok(None);
        }
        if self.place == self.limit {
            return Err(JsonFault::TooLong);
        }
        Ok(Some(self.window[self.from]))
    }

    /// Shows the next byte, where the text can't end.
    pub fn need<S: Source>(&mut self, src: &mut S) -> Result<u8, JsonFault>
        ensures moves { Moves (fault_of result) self.old (seen S.Counted src.old) self.new (seen S.Counted src.new) }
        ensures same { IsSame self.old (S.left src.old) self.new (S.left src.new) }
        ensures byte { IfOk result (λ b. IsNext b self.new) }
        ensures exact { (ps : List Part) → finish ps ≡ None → Goes (fault_of result) self.old (S.left src.old) ps [] self.new (S.left src.new) ps }
    {
        match self.peek(src) {
            Err(fault) => Err(fault),
            Ok(None) => Err(self.wrong()),
            Ok(Some(byte)) => Ok(byte),
        }
    }

    /// The fault where the next byte can't stand where it stands.
    pub fn wrong(&self) -> JsonFault
        ensures { result ≡ JsonFault.NotJson self.now.place }
    {
        JsonFault::NotJson { at: self.place }
    }

    /// The fault where the next byte is a bracket too many.
    pub fn deep(&self) -> JsonFault
        ensures { result ≡ JsonFault.TooDeep self.now.place }
    {
        JsonFault::TooDeep { at: self.place }
    }

    /// The bytes ahead that stand below the limit.
    pub fn ahead(&self) -> &[u8]
        ensures { result.now ≡ take (self.now.limit - self.now.place) self.now.bytes }
    {
        let room = self.limit - self.place;
        let ahead = &self.window[self.from..self.to];
        if (ahead.len() as u64) < room {
            ahead
        } else {
            &ahead[..room as usize]
        }
    }

    /// Passes over bytes ahead.
    pub fn pass(&mut self, count: usize)
        requires here { count ≤ length self.old.bytes }
        requires within { self.old.place + count ≤ self.old.limit }
        ensures { Passes count self.old self.new }
    {
        self.from += count;
        self.place += count as u64;
    }
}
