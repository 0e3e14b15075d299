//! Texts at the end of a line.
ghost use Rattle.std.specs.Prelude.{◌≡◌};
ghost use Rattle.prof_spell.specs.Spelling.{Reads};
ghost use Rattle.prof_request.specs.Reading.{may_stand, some_texts, rests};

use crate::naming::text_of;
use prof_io::Text;
use prof_spell::{Cursor, Due, Stop};
use std::alloc::Global;

/// Whether the byte may come, and doesn't end the line.
fn may_stand(due: Due, byte: u8) -> bool
    ensures { result ≡ may_stand due byte }
{
    due.allows(byte) && byte != b'\n'
}

/// A text of a byte or more, up to the end.
fn some_text(alloc: Global, cursor: &mut Cursor<'_>) -> Result<Text, Stop>
    ensures { Reads some_texts cursor.old result cursor.new }
{
    let mut bytes = Vec::new(alloc);
    let mut due = Due::Character;
    'bytes: while let Some(byte) = cursor.peek() {
        if !may_stand(due, byte) {
            return Err(Stop::Fault);
        }
        cursor.pass();
        match bytes.push(byte) {
            Ok(()) => {}
            Err(_) => return Err(Stop::NoMemory),
        }
        due = due.behind(byte);
    }
    if bytes.is_empty() || !due.is_between() {
        return Err(Stop::Fault);
    }
    text_of(alloc, bytes.as_slice())
}

/// The rest of a line: a text behind a space, or nothing.
pub fn rest(alloc: Global, cursor: &mut Cursor<'_>) -> Result<Text, Stop>
    ensures { Reads rests cursor.old result cursor.new }
{
    if cursor.takes(b' ') {
        return some_text(alloc, cursor);
    }
    if cursor.len() == 0 {
        Ok(Text::new(alloc))
    } else {
        Err(Stop::Fault)
    }
}
