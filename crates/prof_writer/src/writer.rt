//! Values written one after another.
ghost use Rattle.std.specs.Prelude.{◌≡◌, ◌≤◌, Bool, true, false, ◌++◌, codes};
ghost use Rattle.std.specs.Fmt.{signed_decimal};
ghost use Rattle.prof_time.specs.Spelling.{scaled_text};
ghost use Rattle.prof_io.specs.Outside.{seen};
ghost use Rattle.prof_io.specs.Sinks.{Wrote};
ghost use Rattle.prof_writer.specs.Writing.{comma_text, quoted, truth_text};

use crate::write_string;
use arrayvec::ArrayString;
use itoa::Buffer;
use prof_io::{OutFault, Sink, copy_out};
use prof_time::write_scaled;
use std::marker::Model;
use std::mem;

/// Writes a comma where one is due.
fn write_comma<S: Sink>(out: &mut S, is_due: bool) -> Result<(), OutFault>
    ensures { Wrote (seen S.Counted out.old) (seen S.Counted out.new) result (comma_text is_due) }
{
    if is_due { copy_out(out, b",") } else { Ok(()) }
}

/// Writes the parts of a JSON text into a sink, each behind a comma where one is due.
///
/// That the calls together make a JSON text is the caller's matter. Contracts see whether a comma is due: whether
/// the last call ended a value. No call takes memory.
#[derive(Clone, Copy, Debug, PartialEq, Eq)]
pub struct Writer {
    is_comma_due: bool,
}

impl Model for Writer {
    ghost Value = { Bool };

    ghost view = { λ w. w.is_comma_due };

    ghost inverse = { λ due. record { is_comma_due = due } };
}

impl Writer {
    /// A writer at the beginning of a text.
    pub fn new() -> Writer
        ensures { result ≡ false }
    {
        Writer {
            is_comma_due: false,
        }
    }

    /// Writes `{`.
    pub fn begin_object<S: Sink>(&mut self, out: &mut S) -> Result<(), OutFault>
        ensures writes { Wrote (seen S.Counted out.old) (seen S.Counted out.new) result (comma_text self.old ++ codes "{") }
        ensures due { self.new ≡ false }
    {
        self.put(out, b"{", false)
    }

    /// Writes `}`, never behind a comma.
    pub fn end_object<S: Sink>(&mut self, out: &mut S) -> Result<(), OutFault>
        ensures writes { Wrote (seen S.Counted out.old) (seen S.Counted out.new) result (codes "}") }
        ensures due { self.new ≡ true }
    {
        self.is_comma_due = true;
        copy_out(out, b"}")
    }

    /// Writes `[`.
    pub fn begin_array<S: Sink>(&mut self, out: &mut S) -> Result<(), OutFault>
        ensures writes { Wrote (seen S.Counted out.old) (seen S.Counted out.new) result (comma_text self.old ++ codes "[") }
        ensures due { self.new ≡ false }
    {
        self.put(out, b"[", false)
    }

    /// Writes `]`, never behind a comma.
    pub fn end_array<S: Sink>(&mut self, out: &mut S) -> Result<(), OutFault>
        ensures writes { Wrote (seen S.Counted out.old) (seen S.Counted out.new) result (codes "]") }
        ensures due { self.new ≡ true }
    {
        self.is_comma_due = true;
        copy_out(out, b"]")
    }

    /// Writes the name of a member and a colon. The member's value comes next.
    pub fn name<S: Sink>(&mut self, out: &mut S, text: &str) -> Result<(), OutFault>
        ensures writes { Wrote (seen S.Counted out.old) (seen S.Counted out.new) result (comma_text self.old ++ (quoted text.now ++ codes ":")) }
        ensures due { self.new ≡ false }
    {
        self.quote(out, text, false)?;
        copy_out(out, b":")
    }

    /// Writes a string.
    pub fn string<S: Sink>(&mut self, out: &mut S, text: &str) -> Result<(), OutFault>
        ensures writes { Wrote (seen S.Counted out.old) (seen S.Counted out.new) result (comma_text self.old ++ quoted text.now) }
        ensures due { self.new ≡ true }
    {
        self.quote(out, text, true)
    }

    /// Writes a whole number.
    pub fn whole<S: Sink>(&mut self, out: &mut S, n: i64) -> Result<(), OutFault>
        ensures writes { Wrote (seen S.Counted out.old) (seen S.Counted out.new) result (comma_text self.old ++ signed_decimal n) }
        ensures due { self.new ≡ true }
    {
        let mut buffer = Buffer::new();
        self.put(out, buffer.format(n).as_bytes(), true)
    }

    /// Writes a number of which ten to the power `decimals` are one.
    pub fn scaled<S: Sink>(&mut self, out: &mut S, n: i64, decimals: u32) -> Result<(), OutFault>
        requires { decimals ≤ 6 }
        ensures writes { Wrote (seen S.Counted out.old) (seen S.Counted out.new) result (comma_text self.old ++ scaled_text decimals n) }
        ensures due { self.new ≡ true }
    {
        let mut text = ArrayString::new();
        write_scaled(n, decimals, &mut text);
        self.put(out, text.as_str().as_bytes(), true)
    }

    /// Writes `true` or `false`.
    pub fn truth<S: Sink>(&mut self, out: &mut S, value: bool) -> Result<(), OutFault>
        ensures writes { Wrote (seen S.Counted out.old) (seen S.Counted out.new) result (comma_text self.old ++ truth_text value) }
        ensures due { self.new ≡ true }
    {
        if value {
            self.put(out, b"true", true)
        } else {
            self.put(out, b"false", true)
        }
    }

    /// Writes `null`.
    pub fn null<S: Sink>(&mut self, out: &mut S) -> Result<(), OutFault>
        ensures writes { Wrote (seen S.Counted out.old) (seen S.Counted out.new) result (comma_text self.old ++ codes "null") }
        ensures due { self.new ≡ true }
    {
        self.put(out, b"null", true)
    }

    /// Writes a comma where one is due, and the bytes; then a comma is due as `due` says.
    fn put<S: Sink>(&mut self, out: &mut S, bytes: &[u8], due: bool) -> Result<(), OutFault>
        ensures writes { Wrote (seen S.Counted out.old) (seen S.Counted out.new) result (comma_text self.old ++ bytes.now) }
        ensures due { self.new ≡ due }
    {
        let was_due = mem::replace(&mut self.is_comma_due, due);
        write_comma(out, was_due)?;
        copy_out(out, bytes)
    }

    /// The same of a string.
    fn quote<S: Sink>(&mut self, out: &mut S, text: &str, due: bool) -> Result<(), OutFault>
        ensures writes { Wrote (seen S.Counted out.old) (seen S.Counted out.new) result (comma_text self.old ++ quoted text.now) }
        ensures due { self.new ≡ due }
    {
        let was_due = mem::replace(&mut self.is_comma_due, due);
        write_comma(out, was_due)?;
        write_string(out, text)
    }
}
