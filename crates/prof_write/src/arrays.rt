//! Arrays, and what stands before and in their items.
ghost use Rattle.std.specs.Prelude.{◌≡◌, ◌<◌, ◌≤◌, ◌++◌, List, false, length, map, nat_lt};
ghost use Rattle.prof_grammar.specs.Value.{Value};
ghost use Rattle.prof_io.specs.Outside.{seen};
ghost use Rattle.prof_page.specs.Gathering.{Gathers};
ghost use Rattle.prof_write.specs.Compact.{compact, compact_items, values_of};
ghost use Rattle.prof_writer.specs.Writing.{comma_text, quoted};

use prof_io::{OutFault, Sink, Text};
use prof_page::{Column, Page, add_column, add_string, add_text};

/// Adds a comma before an item that isn't the first of its list.
pub(crate) fn add_comma_before<S: Sink>(
    out: &mut S,
    page: &mut Page,
    place: usize,
) -> Result<(), OutFault>
    ensures { Gathers (seen S.Counted out.old) (seen S.Counted out.new) result page.old.bytes
        (comma_text (nat_lt 0 place)) page.new.bytes }
{
    if place > 0 {
        add_text(out, page, ",")
    } else {
        Ok(())
    }
}

/// Adds a text in quotation marks.
pub(crate) fn add_quoted<S: Sink>(out: &mut S, page: &mut Page, text: &Text) -> Result<(), OutFault>
    ensures { Gathers (seen S.Counted out.old) (seen S.Counted out.new) result page.old.bytes
        (quoted text.now) page.new.bytes }
{
    add_string(out, page, text.as_str())
}

/// Adds the text before an array, with its opening bracket, and the array of a column's cells.
pub(crate) fn add_array<S: Sink, C: Column>(
    out: &mut S,
    page: &mut Page,
    before: &str,
    column: &C,
) -> Result<(), OutFault>
    requires { length before.now ≤ 65536 }
    ensures { (values : List Value) → C.cells column.now ≡ map compact values →
        Gathers (seen S.Counted out.old) (seen S.Counted out.new) result
        page.old.bytes (before.now ++ compact_items false (values_of values)) page.new.bytes }
{
    add_text(out, page, before)?;
    add_column(out, page, column)?;
    add_text(out, page, "]")
}
