//! The frames of a thread.
ghost use Rattle.std.specs.Prelude.{◌≡◌, ◌<◌, ◌≤◌, ◌++◌, Some, false, length, codes, map, option_map, slice_get};
ghost use Rattle.prof_io.specs.Outside.{seen};
ghost use Rattle.prof_page.specs.Gathering.{Gathers};
ghost use Rattle.prof_tables.specs.declared.rows.FrameRow.{FrameRow};
ghost use Rattle.prof_write.specs.Cells.{texts_of_cells};
ghost use Rattle.prof_write.specs.Columns.{frame_cell};
ghost use Rattle.prof_write.specs.Compact.{compact, compact_items, values_of};
ghost use Rattle.prof_write.specs.Written.{frames_value};

use crate::arrays::add_array;
use crate::lines::maybe_index_line;
use prof_io::{OutFault, Sink};
use prof_page::{Column, Line, Page, add_line, add_text, number_line};
use prof_tables::Thread;

/// A column of the frames.
#[derive(Clone, Copy, PartialEq, Eq, Debug)]
pub(crate) enum FrameColumn {
    Func,
    Category,
}

/// A column of a thread's frames.
#[derive(Drop)]
struct Frames<'a> {
    thread: &'a Thread,
    column: FrameColumn,
}

impl Frames<'_> {
    fn line(&self, row: u32) -> Line
        requires { row < length self.now.thread.now.shared.frames }
        ensures { option_map (λ (f : FrameRow). compact (frame_cell self.now.column f))
            (slice_get self.now.thread.now.shared.frames row) ≡ Some result.bytes }
    {
        let frame = self.thread.frame(row);
        match self.column {
            FrameColumn::Func => number_line(frame.func),
            FrameColumn::Category => maybe_index_line(frame.category),
        }
    }
}

impl Column for Frames<'_> {
    ghost cells = { λ s. texts_of_cells (frame_cell s.column) s.thread.now.shared.frames };

    fn count(&self) -> u32 {
        self.thread.frame_count()
    }

    fn add_cell<S: Sink>(&self, out: &mut S, page: &mut Page, row: u32) -> Result<(), OutFault> {
        add_line(out, page, &self.line(row))
    }
}

/// Adds a column of the frames, and the text before it.
fn add_frame_column<S: Sink>(
    out: &mut S,
    page: &mut Page,
    before: &str,
    thread: &Thread,
    column: FrameColumn,
) -> Result<(), OutFault>
    requires { length before.now ≤ 65536 }
    ensures { Gathers (seen S.Counted out.old) (seen S.Counted out.new) result page.old.bytes
        (before.now ++ compact_items false (values_of (map (frame_cell column) thread.now.shared.frames)))
        page.new.bytes }
{
    add_array(out, page, before, &Frames { thread, column })
}

/// Adds the frames.
pub(crate) fn add_frames<S: Sink>(
    out: &mut S,
    page: &mut Page,
    thread: &Thread,
) -> Result<(), OutFault>
    ensures { Gathers (seen S.Counted out.old) (seen S.Counted out.new) result page.old.bytes
        (codes ",\"frameTable\":" ++ compact (frames_value thread.now.shared)) page.new.bytes }
{
    add_frame_column(
        out,
        page,
        ",\"frameTable\":{\"func\":[",
        thread,
        FrameColumn::Func,
    )?;
    add_frame_column(out, page, ",\"category\":[", thread, FrameColumn::Category)?;
    add_text(out, page, "}")
}
