//! Names, and texts of bytes that were read.
ghost use Rattle.std.specs.Prelude.{◌≡◌, ◌<◌, IfSome, IfNone, IfOk, IfErr, IsUtf8, Some, true};
ghost use Rattle.prof_spell.specs.Spelling.{Reads, Apart, first};
ghost use Rattle.prof_request.specs.Requests.{is_name_byte};
ghost use Rattle.prof_request.specs.Reading.{names, before_space};

use prof_io::Text;
use prof_spell::{Cursor, Stop};
use std::alloc::Global;
use std::str;

/// The greatest number of bytes of a name.
const NAME_LIMIT: usize = 64;

/// Whether the byte may stand in a name.
fn is_name_byte(byte: u8) -> bool
    ensures { result ≡ is_name_byte byte }
{
    byte.is_ascii_lowercase() || byte.is_ascii_digit() || byte == b'_' || byte == b'-'
}

/// The byte of a name that comes first.
fn name_byte(cursor: &Cursor<'_>) -> Option<u8>
    ensures some { IfSome result (λ b. (first cursor.now ≡ Some b) × (is_name_byte b ≡ true)) }
    ensures none { IfNone result (Apart is_name_byte cursor.now) }
{
    match cursor.peek() {
        Some(byte) if is_name_byte(byte) => Some(byte),
        _ => None,
    }
}

/// A name.
pub fn name(alloc: Global, cursor: &mut Cursor<'_>) -> Result<Text, Stop>
    ensures { Reads names cursor.old result cursor.new }
{
    let mut bytes = Vec::new(alloc);
    'bytes: while let Some(byte) = name_byte(cursor) {
        if bytes.len() >= NAME_LIMIT {
            return Err(Stop::Fault);
        }
        cursor.pass();
        match bytes.push(byte) {
            Ok(()) => {}
            Err(_) => return Err(Stop::NoMemory),
        }
    }
    if bytes.is_empty() {
        return Err(Stop::Fault);
    }
    text_of(alloc, bytes.as_slice())
}

/// A name, and the space behind it.
pub fn name_and_space(alloc: Global, cursor: &mut Cursor<'_>) -> Result<Text, Stop>
    ensures { Reads (before_space names) cursor.old result cursor.new }
{
    let name = match name(alloc, cursor) {
        Ok(name) => name,
        Err(stop) => return Err(stop),
    };
    match cursor.literal(" ") {
        Ok(()) => Ok(name),
        Err(stop) => Err(stop),
    }
}

/// The text of these bytes.
pub fn text_of(alloc: Global, bytes: &[u8]) -> Result<Text, Stop>
    requires { IsUtf8 bytes.now }
    ensures text { IfOk result (λ text. text ≡ bytes.now) }
    ensures memory { IfErr result (λ stop. stop ≡ Stop.NoMemory) }
{
    let mut text = Text::new(alloc);
    let copied = match str::from_utf8(bytes) {
        Ok(letters) => text.push_str(letters),
        Err(_) => unreachable!(),
    };
    match copied {
        Ok(()) => Ok(text),
        Err(_) => Err(Stop::NoMemory),
    }
}
