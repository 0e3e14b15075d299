//! Columns of JSON values, with a comma between.
ghost use Rattle.std.specs.Prelude.{◌≡◌, ◌<◌, ◌++◌, [], length, nat_lt, slice_index_or};
ghost use Rattle.std.specs.List.{join_with_byte};
ghost use Rattle.prof_io.specs.Outside.{seen};
ghost use Rattle.prof_page.specs.Gathering.{Gathers};
ghost use Rattle.prof_writer.specs.Writing.{comma_text};

use crate::line::Line;
use crate::page::{Page, add_line, add_text};
use prof_io::{OutFault, Sink};

/// The cells of a column, as texts.
pub trait Column {
    ghost use Rattle.std.specs.Prelude.{ℕ, List};

    ghost cells: { Self → List (List ℕ) };

    fn count(&self) -> u32
        ensures { result ≡ length (cells self.now) };

    /// Adds the cell of a row.
    fn add_cell<S: Sink>(&self, out: &mut S, page: &mut Page, row: u32) -> Result<(), OutFault>
        requires { row < length (cells self.now) }
        ensures { Gathers (seen S.Counted out.old) (seen S.Counted out.new) result
            page.old.bytes (slice_index_or (cells self.now) row []) page.new.bytes };
}

/// Adds a text, behind a comma where one is due.
pub fn add_item<S: Sink>(
    out: &mut S,
    page: &mut Page,
    is_comma_due: bool,
    item: &Line,
) -> Result<(), OutFault>
    ensures { Gathers (seen S.Counted out.old) (seen S.Counted out.new) result
        page.old.bytes (comma_text is_comma_due ++ item.now.bytes) page.new.bytes }
{
    add_comma(out, page, is_comma_due)?;
    add_line(out, page, item)
}

/// Adds a comma where one is due.
fn add_comma<S: Sink>(out: &mut S, page: &mut Page, is_due: bool) -> Result<(), OutFault>
    ensures { Gathers (seen S.Counted out.old) (seen S.Counted out.new) result
        page.old.bytes (comma_text is_due) page.new.bytes }
{
    if is_due {
        add_text(out, page, ",")
    } else {
        Ok(())
    }
}

/// Adds the cell of a row, behind a comma where it isn't the first.
fn add_cell<S: Sink, C: Column>(
    out: &mut S,
    page: &mut Page,
    column: &C,
    row: u32,
) -> Result<(), OutFault>
    requires { row < length (C.cells column.now) }
    ensures { Gathers (seen S.Counted out.old) (seen S.Counted out.new) result
        page.old.bytes (comma_text (nat_lt 0 row) ++ slice_index_or (C.cells column.now) row [])
        page.new.bytes }
{
    add_comma(out, page, 0 < row)?;
    column.add_cell(out, page, row)
}

/// Adds the cells of a column.
pub fn add_column<S: Sink, C: Column>(
    out: &mut S,
    page: &mut Page,
    column: &C,
) -> Result<(), OutFault>
    ensures { Gathers (seen S.Counted out.old) (seen S.Counted out.new) result
        page.old.bytes (join_with_byte 44 (C.cells column.now)) page.new.bytes }
{
    for row in 0..column.count() {
        add_cell(out, page, column, row)?;
    }
    Ok(())
}
