//! The texts of a marker.
ghost use Rattle.std.specs.Prelude.{◌++◌, codes, map, nat_lt};
ghost use Rattle.std.specs.Fmt.{decimal};
ghost use Rattle.std.specs.List.{join_with_byte};
ghost use Rattle.prof_io.specs.Outside.{seen};
ghost use Rattle.prof_page.specs.Gathering.{Gathers};
ghost use Rattle.prof_write.specs.Cells.{data_value, numbered};
ghost use Rattle.prof_write.specs.Compact.{compact};
ghost use Rattle.prof_write.specs.Members.{member_text};
ghost use Rattle.prof_writer.specs.Writing.{comma_text, quoted};

use crate::arrays::{add_comma_before, add_quoted};
use prof_io::{OutFault, Sink, Text};
use prof_page::{Page, add_string, add_text, number_line};

/// Adds a number in quotation marks.
fn add_number_name<S: Sink>(out: &mut S, page: &mut Page, number: usize) -> Result<(), OutFault>
    ensures { Gathers (seen S.Counted out.old) (seen S.Counted out.new) result page.old.bytes
        (quoted (decimal number)) page.new.bytes }
{
    add_string(out, page, number_line(number).as_str())
}

/// Adds a text under its number, behind a comma where it isn't the first.
fn add_member<S: Sink>(
    out: &mut S,
    page: &mut Page,
    place: usize,
    text: &Text,
) -> Result<(), OutFault>
    ensures { Gathers (seen S.Counted out.old) (seen S.Counted out.new) result page.old.bytes
        (comma_text (nat_lt 0 place) ++ (quoted (decimal place) ++ (codes ":" ++ quoted text.now)))
        page.new.bytes }
{
    add_comma_before(out, page, place)?;
    add_number_name(out, page, place)?;
    add_text(out, page, ":")?;
    add_quoted(out, page, text)
}

fn add_members<S: Sink>(out: &mut S, page: &mut Page, texts: &[Text]) -> Result<(), OutFault>
    ensures { Gathers (seen S.Counted out.old) (seen S.Counted out.new) result page.old.bytes
        (join_with_byte 44 (map member_text (numbered texts.now))) page.new.bytes }
{
    for (place, text) in texts.iter().enumerate() {
        add_member(out, page, place, text)?;
    }
    Ok(())
}

/// Adds the texts of a marker.
pub(crate) fn add_texts<S: Sink>(
    out: &mut S,
    page: &mut Page,
    texts: &[Text],
) -> Result<(), OutFault>
    ensures { Gathers (seen S.Counted out.old) (seen S.Counted out.new) result page.old.bytes
        (compact (data_value texts.now)) page.new.bytes }
{
    if texts.is_empty() {
        return add_text(out, page, "null");
    }
    add_text(out, page, "{")?;
    add_members(out, page, texts)?;
    add_text(out, page, "}")
}
