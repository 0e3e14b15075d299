//! Strings between quotation marks.
ghost use Rattle.std.specs.Prelude.{◌≡◌, ◌<◌, ◌≤◌, length, IsTrue};
ghost use Rattle.std.specs.List.{flat_map, prefix_len};
ghost use Rattle.prof_io.specs.Outside.{seen};
ghost use Rattle.prof_io.specs.Sinks.{Wrote};
ghost use Rattle.prof_writer.specs.Writing.{escape, is_escaped, is_plain, hex_digit, quoted};

use prof_io::{OutFault, Sink, copy_out};

/// Writes a string in quotation marks.
pub fn write_string<S: Sink>(out: &mut S, text: &str) -> Result<(), OutFault>
    ensures { Wrote (seen S.Counted out.old) (seen S.Counted out.new) result (quoted text.now) }
{
    copy_out(out, b"\"")?;
    write_escaped(out, text.as_bytes())?;
    copy_out(out, b"\"")
}

/// Writes the bytes of a string, escaped where they have to be. What needs no escape goes out in whole runs.
fn write_escaped<S: Sink>(out: &mut S, text: &[u8]) -> Result<(), OutFault>
    ensures { Wrote (seen S.Counted out.old) (seen S.Counted out.new) result (flat_map escape text.now) }
{
    let mut rest = text;
    loop {
        let len = plain_len(rest);
        copy_out(out, &rest[..len])?;
        if len == rest.len() {
            return Ok(());
        }
        write_escape(out, rest[len])?;
        rest = &rest[len + 1..];
    }
}

/// How many bytes at the front need no escape.
fn plain_len(text: &[u8]) -> usize
    ensures value { result ≡ prefix_len is_plain text.now }
    ensures within { result ≤ length text.now }
{
    for (i, byte) in text.iter().enumerate() {
        if is_escaped(*byte) {
            return i;
        }
    }
    text.len()
}

/// Whether the byte is escaped.
pub(crate) fn is_escaped(byte: u8) -> bool
    ensures { result ≡ is_escaped byte }
{
    byte < 32 || byte == b'"' || byte == b'\\'
}

fn write_escape<S: Sink>(out: &mut S, byte: u8) -> Result<(), OutFault>
    requires { IsTrue (is_escaped byte) }
    ensures { Wrote (seen S.Counted out.old) (seen S.Counted out.new) result (escape byte) }
{
    match byte {
        b'"' => copy_out(out, b"\\\""),
        b'\\' => copy_out(out, b"\\\\"),
        8 => copy_out(out, b"\\b"),
        b'\t' => copy_out(out, b"\\t"),
        b'\n' => copy_out(out, b"\\n"),
        12 => copy_out(out, b"\\f"),
        b'\r' => copy_out(out, b"\\r"),
        _ => copy_out(
            out,
            &[
                b'\\',
                b'u',
                b'0',
                b'0',
                hex_digit(byte / 16),
                hex_digit(byte % 16),
            ],
        ),
    }
}

/// A digit in base 16, in lower case.
fn hex_digit(n: u8) -> u8
    requires { n < 16 }
    ensures { result ≡ hex_digit n }
{
    if n < 10 { b'0' + n } else { b'a' + (n - 10) }
}
