//! The parts of texts, written.
ghost use Rattle.std.specs.Prelude.{◌≡◌, ◌++◌, OnOk, OnErr};
ghost use Rattle.std.specs.Fmt.{decimal, signed_decimal};
ghost use Rattle.prof_spell.specs.Escapes.{escaped};

use itoa::Buffer;
use percent_encoding::{AsciiSet, NON_ALPHANUMERIC, ascii_set, utf8_percent_encode};
use prof_io::{NoMemory, Text};

/// The bytes of ASCII that don't stand for themselves in a search.
const RESERVED: AsciiSet = ascii_set!(NON_ALPHANUMERIC.remove(b'-').remove(b'_').remove(b'.'));

/// Puts a number behind the text.
pub fn push_number(text: &mut Text, n: u64) -> Result<(), NoMemory>
    ensures ok { OnOk result (text.new ≡ text.old ++ decimal n) }
    ensures err { OnErr result (text.new ≡ text.old) }
{
    let mut buffer = Buffer::new();
    text.push_str(buffer.format(n))
}

/// Puts a number with its sign behind the text.
pub fn push_signed(text: &mut Text, n: i64) -> Result<(), NoMemory>
    ensures ok { OnOk result (text.new ≡ text.old ++ signed_decimal n) }
    ensures err { OnErr result (text.new ≡ text.old) }
{
    let mut buffer = Buffer::new();
    text.push_str(buffer.format(n))
}

/// Puts an escaped search behind the text. Where memory runs out, some of it may be there.
pub fn push_search(text: &mut Text, search: &str) -> Result<(), NoMemory>
    ensures { OnOk result (text.new ≡ text.old ++ escaped search.now) }
{
    'pieces: for piece in utf8_percent_encode(search, RESERVED) {
        text.push_str(piece)?;
    }
    Ok(())
}
