//! The stack rows of a thread, each of which is read once a column.
ghost use Rattle.std.specs.Prelude.{◌≡◌, ◌<◌, ◌≤◌, ◌+◌, ◌*◌, ◌++◌, [], false, length, codes, map, slice_index_or};
ghost use Rattle.std.specs.List.{join_with_byte};
ghost use Rattle.prof_io.specs.Outside.{seen};
ghost use Rattle.prof_page.specs.Gathering.{Gathers};
ghost use Rattle.prof_write.specs.Columns.{stack_cells};
ghost use Rattle.prof_write.specs.Compact.{compact, compact_items, values_of};
ghost use Rattle.prof_write.specs.Written.{stacks_value};

use crate::lines::maybe_index_line;
use prof_io::{OutFault, Sink, Steps};
use prof_page::{Line, Page, add_item, add_text, number_line};
use prof_tables::Thread;
use std::sync::ledger::Ledger;

/// A column of the stack rows.
#[derive(Clone, Copy, PartialEq, Eq, Debug)]
pub(crate) enum StackColumn {
    Frame,
    Prefix,
}

fn stack_line<L: Ledger>(
    thread: &Thread,
    column: StackColumn,
    row: u32,
    reads: &mut Steps<L>,
) -> Line
    requires { row < length thread.now.shared.stacks }
    ensures cell { result.bytes
        ≡ slice_index_or (map compact (stack_cells column thread.now.shared)) row [] }
    ensures one { reads.new ≡ reads.old + 1 }
{
    match column {
        StackColumn::Frame => number_line(thread.stack_frame(row, reads)),
        StackColumn::Prefix => maybe_index_line(thread.stacks().row(row, reads).prefix),
    }
}

/// Adds the cells of a column.
fn add_stack_cells<S: Sink, L: Ledger>(
    out: &mut S,
    page: &mut Page,
    thread: &Thread,
    column: StackColumn,
    reads: &mut Steps<L>,
) -> Result<(), OutFault>
    ensures text { Gathers (seen S.Counted out.old) (seen S.Counted out.new) result page.old.bytes
        (join_with_byte 44 (map compact (stack_cells column thread.now.shared))) page.new.bytes }
    ensures reads { reads.new ≤ reads.old + length thread.now.shared.stacks }
{
    thread.keeps();
    for row in 0..thread.stacks().count() {
        let line = stack_line(thread, column, row, reads);
        add_item(out, page, row > 0, &line)?;
    }
    Ok(())
}

/// Adds a column, and the text before it.
fn add_stack_column<S: Sink, L: Ledger>(
    out: &mut S,
    page: &mut Page,
    before: &str,
    thread: &Thread,
    column: StackColumn,
    reads: &mut Steps<L>,
) -> Result<(), OutFault>
    requires { length before.now ≤ 65536 }
    ensures text { Gathers (seen S.Counted out.old) (seen S.Counted out.new) result page.old.bytes
        (before.now ++ compact_items false (values_of (stack_cells column thread.now.shared)))
        page.new.bytes }
    ensures reads { reads.new ≤ reads.old + length thread.now.shared.stacks }
{
    add_text(out, page, before)?;
    add_stack_cells(out, page, thread, column, reads)?;
    add_text(out, page, "]")
}

/// Adds the stack rows.
pub(crate) fn add_stacks<S: Sink, L: Ledger>(
    out: &mut S,
    page: &mut Page,
    thread: &Thread,
    reads: &mut Steps<L>,
) -> Result<(), OutFault>
    ensures text { Gathers (seen S.Counted out.old) (seen S.Counted out.new) result page.old.bytes
        (codes ",\"stackTable\":" ++ compact (stacks_value thread.now.shared)) page.new.bytes }
    ensures reads { reads.new ≤ reads.old + 2 * length thread.now.shared.stacks }
{
    add_stack_column(
        out,
        page,
        ",\"stackTable\":{\"frame\":[",
        thread,
        StackColumn::Frame,
        reads,
    )?;
    add_stack_column(
        out,
        page,
        ",\"prefix\":[",
        thread,
        StackColumn::Prefix,
        reads,
    )?;
    add_text(out, page, "}")
}
