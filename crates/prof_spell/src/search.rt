//! Searches, in which most bytes are escaped.
ghost use Rattle.std.specs.Prelude.{◌≡◌, ◌≢◌, ℕ, ◌+◌, ◌*◌, ◌<◌, ◌&&◌, IfSome, IfNone, IfOk, IfErr, IsTrue, IsFalse, IsUtf8, Some, true, false};
ghost use Rattle.std.specs.Fmt.{digit_glyph};
ghost use Rattle.prof_spell.specs.Spelling.{Reads, Apart, first};
ghost use Rattle.prof_spell.specs.Utf8.{is_between, opens};
ghost use Rattle.prof_spell.specs.Escapes.{is_unreserved, is_escaped_byte, is_escapable, escapes, percents, searches};

use crate::cursor::{Cursor, Stop};
use crate::utf8::Due;
use prof_io::{NoMemory, Text};
use std::alloc::Global;
use std::str;

/// Whether the byte stands for itself.
fn is_unreserved(byte: u8) -> bool
    ensures { result ≡ is_unreserved byte }
{
    byte.is_ascii_alphanumeric() || byte == b'-' || byte == b'_' || byte == b'.'
}

/// Whether the byte may come, escaped.
fn is_escapable(due: Due, byte: u8) -> bool
    ensures { result ≡ is_escapable due byte }
{
    due.allows(byte) && !is_unreserved(byte)
}

impl Cursor<'_> {
    /// The upper-case hexadecimal digit that comes first.
    fn nibble(&self) -> Option<u8>
        ensures some { IfSome result (λ d. (d < 16) × (first self.now ≡ Some (digit_glyph true d))) }
        ensures none { IfNone result ((d : ℕ) → d < 16 → first self.now ≢ Some (digit_glyph true d)) }
    {
        match self.peek() {
            Some(byte) if byte.is_ascii_digit() => Some(byte - b'0'),
            Some(byte) if b'A' <= byte && byte <= b'F' => Some(byte - b'A' + 10),
            _ => None,
        }
    }

    /// Whether a byte comes that goes on with a search.
    fn begins_escape(&self) -> bool
        ensures yes { IsTrue result → (b : ℕ) × (first self.now ≡ Some b) × (is_escaped_byte b ≡ true) }
        ensures no { IsFalse result → Apart is_escaped_byte self.now }
    {
        match self.peek() {
            Some(byte) => is_unreserved(byte) || byte == b'%',
            None => false,
        }
    }

    /// The byte that stands for itself, where one may come and does.
    fn unreserved(&self, due: Due) -> Option<u8>
        ensures some { IfSome result (λ b. (first self.now ≡ Some b) × (is_unreserved b ≡ true) × (b < 256)) }
        ensures between { IfSome result (λ b. is_between due ≡ true) }
        ensures none { IfNone result ((b : ℕ) → first self.now ≡ Some b → is_unreserved b ≡ true → is_between due ≡ false) }
    {
        match self.peek() {
            Some(byte) if due.is_between() && is_unreserved(byte) => Some(byte),
            _ => None,
        }
    }

    /// A byte that is escaped.
    fn percent(&mut self, due: Due) -> Result<u8, Stop>
        ensures { Reads (percents due) self.old result self.new }
    {
        if !self.takes(b'%') {
            return Err(Stop::Fault);
        }
        let high = match self.nibble() {
            Some(high) if due.opens(high) => high,
            _ => return Err(Stop::Fault),
        };
        self.pass();
        let low = match self.nibble() {
            Some(low) if is_escapable(due, 16 * high + low) => low,
            _ => return Err(Stop::Fault),
        };
        self.pass();
        Ok(16 * high + low)
    }

    /// A byte of a search.
    fn search_byte(&mut self, due: Due) -> Result<u8, Stop>
        ensures { Reads (escapes due) self.old result self.new }
    {
        match self.unreserved(due) {
            Some(byte) => {
                self.pass();
                Ok(byte)
            }
            None => self.percent(due),
        }
    }

    /// A search.
    pub fn search(&mut self, alloc: Global) -> Result<Text, Stop>
        ensures { Reads searches self.old result self.new }
    {
        let mut bytes = Vec::new(alloc);
        let mut due = Due::Character;
        'bytes: while !due.is_between() || self.begins_escape() {
            let byte = match self.search_byte(due) {
                Ok(byte) => byte,
                Err(stop) => return Err(stop),
            };
            match bytes.push(byte) {
                Ok(()) => {}
                Err(_) => return Err(Stop::NoMemory),
            }
            due = due.behind(byte);
        }
        text_of(alloc, bytes.as_slice())
    }
}

/// The text of these bytes.
pub(crate) fn text_of(alloc: Global, bytes: &[u8]) -> Result<Text, Stop>
    requires { IsUtf8 bytes.now }
    ensures text { IfOk result (λ text. text ≡ bytes.now) }
    ensures memory { IfErr result (λ stop. stop ≡ Stop.NoMemory) }
{
    let mut text = Text::new(alloc);
    let copied = match str::from_utf8(bytes) {
        Ok(letters) => text.push_str(letters),
        Err(_) => unreachable!(),
    };
    match copied {
        Ok(()) => Ok(text),
        Err(_) => Err(Stop::NoMemory),
    }
}
