//! The markers of a thread.
ghost use Rattle.std.specs.Prelude.{◌≡◌, ◌<◌, ◌≤◌, ◌++◌, Some, false, length, codes, map, option_map, slice_get};
ghost use Rattle.prof_io.specs.Outside.{seen};
ghost use Rattle.prof_page.specs.Gathering.{Gathers};
ghost use Rattle.prof_tables.specs.declared.markers.RawMarker.{RawMarker};
ghost use Rattle.prof_write.specs.Cells.{texts_of_cells};
ghost use Rattle.prof_write.specs.Columns.{data_cell, marker_cell};
ghost use Rattle.prof_write.specs.Compact.{compact, compact_items, values_of};
ghost use Rattle.prof_write.specs.Written.{markers_value};

use crate::arrays::add_array;
use crate::lines::maybe_time_line;
use crate::marker_texts::add_texts;
use prof_io::{OutFault, Sink};
use prof_page::{Column, Line, Page, add_line, add_text, number_line};
use prof_tables::Thread;

/// A column of the markers, but for their texts.
#[derive(Clone, Copy, PartialEq, Eq, Debug)]
pub(crate) enum MarkerColumn {
    Phase,
    Name,
    StartTime,
    EndTime,
}

/// A column of a thread's markers.
#[derive(Drop)]
struct Markers<'a> {
    thread: &'a Thread,
    column: MarkerColumn,
}

impl Markers<'_> {
    fn line(&self, row: u32) -> Line
        requires { row < length self.now.thread.now.markers.rows }
        ensures { option_map (λ (m : RawMarker). compact (marker_cell self.now.column m))
            (slice_get self.now.thread.now.markers.rows row) ≡ Some result.bytes }
    {
        let marker = self.thread.markers().rows[row as usize];
        match self.column {
            MarkerColumn::Phase => number_line(marker.phase),
            MarkerColumn::Name => number_line(marker.name),
            MarkerColumn::StartTime => maybe_time_line(marker.start),
            MarkerColumn::EndTime => maybe_time_line(marker.end),
        }
    }
}

impl Column for Markers<'_> {
    ghost cells = { λ s. texts_of_cells (marker_cell s.column) s.thread.now.markers.rows };

    fn count(&self) -> u32 {
        self.thread.markers().rows.len() as u32
    }

    fn add_cell<S: Sink>(&self, out: &mut S, page: &mut Page, row: u32) -> Result<(), OutFault> {
        add_line(out, page, &self.line(row))
    }
}

/// The texts of a thread's markers.
#[derive(Drop)]
struct Details<'a> {
    thread: &'a Thread,
}

impl Column for Details<'_> {
    ghost cells = { λ s. texts_of_cells
        (data_cell s.thread.now.markers.texts) s.thread.now.markers.rows };

    fn count(&self) -> u32 {
        self.thread.markers().rows.len() as u32
    }

    fn add_cell<S: Sink>(&self, out: &mut S, page: &mut Page, row: u32) -> Result<(), OutFault> {
        let markers = self.thread.markers();
        let (start, end) = markers.rows[row as usize].texts;
        add_texts(out, page, &markers.texts[start as usize..end as usize])
    }
}

/// Adds a column of the markers, and the text before it.
fn add_marker_column<S: Sink>(
    out: &mut S,
    page: &mut Page,
    before: &str,
    thread: &Thread,
    column: MarkerColumn,
) -> Result<(), OutFault>
    requires { length before.now ≤ 65536 }
    ensures { Gathers (seen S.Counted out.old) (seen S.Counted out.new) result page.old.bytes
        (before.now ++ compact_items false (values_of (map (marker_cell column) thread.now.markers.rows)))
        page.new.bytes }
{
    add_array(out, page, before, &Markers { thread, column })
}

/// Adds the texts of the markers, and the text before them.
fn add_details<S: Sink>(
    out: &mut S,
    page: &mut Page,
    before: &str,
    thread: &Thread,
) -> Result<(), OutFault>
    requires { length before.now ≤ 65536 }
    ensures { Gathers (seen S.Counted out.old) (seen S.Counted out.new) result page.old.bytes
        (before.now ++ compact_items false (values_of
        (map (data_cell thread.now.markers.texts) thread.now.markers.rows))) page.new.bytes }
{
    add_array(out, page, before, &Details { thread })
}

/// Adds the markers.
pub(crate) fn add_markers<S: Sink>(
    out: &mut S,
    page: &mut Page,
    thread: &Thread,
) -> Result<(), OutFault>
    ensures { Gathers (seen S.Counted out.old) (seen S.Counted out.new) result page.old.bytes
        (codes ",\"markers\":" ++ compact (markers_value thread.now.markers)) page.new.bytes }
{
    add_marker_column(
        out,
        page,
        ",\"markers\":{\"phase\":[",
        thread,
        MarkerColumn::Phase,
    )?;
    add_marker_column(out, page, ",\"name\":[", thread, MarkerColumn::Name)?;
    add_marker_column(
        out,
        page,
        ",\"startTime\":[",
        thread,
        MarkerColumn::StartTime,
    )?;
    add_marker_column(out, page, ",\"endTime\":[", thread, MarkerColumn::EndTime)?;
    add_details(out, page, ",\"data\":[", thread)?;
    add_text(out, page, "}")
}
