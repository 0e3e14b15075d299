//! The page.
ghost use Rattle.std.specs.Prelude.{◌≡◌, ◌≤◌, [], OnOk, length};
ghost use Rattle.prof_io.specs.Outside.{seen};
ghost use Rattle.prof_io.specs.Sinks.{Wrote};
ghost use Rattle.prof_page.specs.Gathering.{Gathers};
ghost use Rattle.prof_writer.specs.Writing.{quoted};

use crate::line::Line;
use arrayvec::ArrayString;
use prof_io::{OutFault, Sink, copy_out};
use prof_writer::{push_unescaped, write_string};

/// How many bytes are put together.
const ROOM: usize = 65_536;

/// What is put together for the next write.
pub type Page = ArrayString<ROOM>;

/// Writes the page, which is empty then.
pub fn write_page<S: Sink>(out: &mut S, page: &mut Page) -> Result<(), OutFault>
    ensures written { Wrote (seen S.Counted out.old) (seen S.Counted out.new) result page.old.bytes }
    ensures empty { OnOk result (page.new.bytes ≡ []) }
{
    copy_out(out, page.as_str().as_bytes())?;
    page.clear();
    Ok(())
}

/// Adds a text to the page, which is written before, where the text doesn't fit.
pub fn add_text<S: Sink>(out: &mut S, page: &mut Page, text: &str) -> Result<(), OutFault>
    requires { length text.now ≤ ROOM }
    ensures { Gathers (seen S.Counted out.old) (seen S.Counted out.new) result
        page.old.bytes text.now page.new.bytes }
{
    if page.remaining_capacity() < text.len() {
        write_page(out, page)?;
    }
    page.push_str(text);
    Ok(())
}

/// The same of a line.
pub fn add_line<S: Sink>(out: &mut S, page: &mut Page, line: &Line) -> Result<(), OutFault>
    ensures { Gathers (seen S.Counted out.old) (seen S.Counted out.new) result
        page.old.bytes line.now.bytes page.new.bytes }
{
    add_text(out, page, line.as_str())
}

/// Adds a string in quotation marks. One that needs escapes, or that no page holds, goes out by itself.
pub fn add_string<S: Sink>(out: &mut S, page: &mut Page, text: &str) -> Result<(), OutFault>
    ensures { Gathers (seen S.Counted out.old) (seen S.Counted out.new) result
        page.old.bytes (quoted text.now) page.new.bytes }
{
    if push_unescaped(page, text) {
        return Ok(());
    }
    write_page(out, page)?;
    if push_unescaped(page, text) {
        return Ok(());
    }
    write_string(out, text)
}
