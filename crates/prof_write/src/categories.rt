//! The categories.
ghost use Rattle.std.specs.Prelude.{◌++◌, codes, nat_lt};
ghost use Rattle.std.specs.List.{enumerate_from, join_with_byte};
ghost use Rattle.prof_io.specs.Outside.{seen};
ghost use Rattle.prof_page.specs.Gathering.{Gathers};
ghost use Rattle.prof_write.specs.Cells.{category_value, color, texts_of_cells};
ghost use Rattle.prof_write.specs.Compact.{compact};
ghost use Rattle.prof_writer.specs.Writing.{comma_text, quoted};

use crate::arrays::{add_comma_before, add_quoted};
use prof_io::{OutFault, Sink, Text};
use prof_page::{Page, add_text};

/// Adds a category's color, and the end of its object.
fn add_color<S: Sink>(out: &mut S, page: &mut Page, is_default: bool) -> Result<(), OutFault>
    ensures { Gathers (seen S.Counted out.old) (seen S.Counted out.new) result page.old.bytes
        (codes ",\"color\":" ++ (quoted (color is_default) ++ codes "}")) page.new.bytes }
{
    if is_default {
        add_text(out, page, ",\"color\":\"grey\"}")
    } else {
        add_text(out, page, ",\"color\":\"blue\"}")
    }
}

/// Adds a category, behind a comma where it isn't the first.
fn add_category<S: Sink>(
    out: &mut S,
    page: &mut Page,
    place: usize,
    name: &Text,
    default: u32,
) -> Result<(), OutFault>
    ensures { Gathers (seen S.Counted out.old) (seen S.Counted out.new) result page.old.bytes
        (comma_text (nat_lt 0 place) ++ compact (category_value default (place, name.now)))
        page.new.bytes }
{
    add_comma_before(out, page, place)?;
    add_text(out, page, "{\"name\":")?;
    add_quoted(out, page, name)?;
    add_color(out, page, place == default as usize)
}

pub(crate) fn add_categories<S: Sink>(
    out: &mut S,
    page: &mut Page,
    names: &[Text],
    default: u32,
) -> Result<(), OutFault>
    ensures { Gathers (seen S.Counted out.old) (seen S.Counted out.new) result page.old.bytes
        (join_with_byte 44 (texts_of_cells (category_value default) (enumerate_from 0 names.now)))
        page.new.bytes }
{
    for (place, name) in names.iter().enumerate() {
        add_category(out, page, place, name, default)?;
    }
    Ok(())
}
