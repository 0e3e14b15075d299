//! The samples of a thread.
ghost use Rattle.std.specs.Prelude.{◌≡◌, ◌<◌, ◌≤◌, ◌++◌, Some, false, length, codes, map, option_map, slice_get};
ghost use Rattle.prof_io.specs.Outside.{seen};
ghost use Rattle.prof_page.specs.Gathering.{Gathers};
ghost use Rattle.prof_tables.specs.declared.rows.SampleRow.{SampleRow};
ghost use Rattle.prof_write.specs.Cells.{texts_of_cells, weight_type};
ghost use Rattle.prof_write.specs.Columns.{sample_cell};
ghost use Rattle.prof_write.specs.Compact.{compact, compact_items, values_of};
ghost use Rattle.prof_write.specs.Written.{samples_value};
ghost use Rattle.prof_writer.specs.Writing.{quoted};

use crate::arrays::add_array;
use crate::lines::{maybe_index_line, time_line, weight_line};
use prof_io::{OutFault, Sink};
use prof_page::{Column, Line, Page, add_line, add_text};
use prof_raw::Unit;
use prof_tables::Thread;

/// A column of the samples.
#[derive(Clone, Copy, PartialEq, Eq, Debug)]
pub(crate) enum SampleColumn {
    Stack,
    Time,
    Weight,
}

/// A column of a thread's samples.
#[derive(Drop)]
struct Samples<'a> {
    thread: &'a Thread,
    column: SampleColumn,
}

impl Samples<'_> {
    fn line(&self, row: u32) -> Line
        requires { row < length self.now.thread.now.samples }
        ensures { option_map
            (λ (s : SampleRow). compact (sample_cell self.now.thread.now.unit self.now.column s))
            (slice_get self.now.thread.now.samples row) ≡ Some result.bytes }
    {
        let sample = self.thread.sample(row);
        match self.column {
            SampleColumn::Stack => maybe_index_line(sample.stack),
            SampleColumn::Time => time_line(sample.time),
            SampleColumn::Weight => weight_line(self.thread.unit(), sample.weight),
        }
    }
}

impl Column for Samples<'_> {
    ghost cells = { λ s. texts_of_cells (sample_cell s.thread.now.unit s.column) s.thread.now.samples };

    fn count(&self) -> u32 {
        self.thread.sample_count()
    }

    fn add_cell<S: Sink>(&self, out: &mut S, page: &mut Page, row: u32) -> Result<(), OutFault> {
        add_line(out, page, &self.line(row))
    }
}

/// Adds a column of the samples, and the text before it.
fn add_sample_column<S: Sink>(
    out: &mut S,
    page: &mut Page,
    before: &str,
    thread: &Thread,
    column: SampleColumn,
) -> Result<(), OutFault>
    requires { length before.now ≤ 65536 }
    ensures { Gathers (seen S.Counted out.old) (seen S.Counted out.new) result page.old.bytes
        (before.now
        ++ compact_items false (values_of (map (sample_cell thread.now.unit column) thread.now.samples)))
        page.new.bytes }
{
    add_array(out, page, before, &Samples { thread, column })
}

/// Adds what the weights count.
fn add_weight_type<S: Sink>(out: &mut S, page: &mut Page, thread: &Thread) -> Result<(), OutFault>
    ensures { Gathers (seen S.Counted out.old) (seen S.Counted out.new) result page.old.bytes
        (codes ",\"weightType\":" ++ quoted (weight_type thread.now.unit)) page.new.bytes }
{
    match thread.unit() {
        Unit::Samples => add_text(out, page, ",\"weightType\":\"samples\""),
        Unit::Bytes => add_text(out, page, ",\"weightType\":\"bytes\""),
        Unit::Ns => add_text(out, page, ",\"weightType\":\"tracing-ms\""),
    }
}

/// Adds the samples.
pub(crate) fn add_samples<S: Sink>(
    out: &mut S,
    page: &mut Page,
    thread: &Thread,
) -> Result<(), OutFault>
    ensures { Gathers (seen S.Counted out.old) (seen S.Counted out.new) result page.old.bytes
        (codes ",\"samples\":" ++ compact (samples_value thread.now)) page.new.bytes }
{
    add_sample_column(
        out,
        page,
        ",\"samples\":{\"stack\":[",
        thread,
        SampleColumn::Stack,
    )?;
    add_sample_column(out, page, ",\"time\":[", thread, SampleColumn::Time)?;
    add_weight_type(out, page, thread)?;
    add_sample_column(out, page, ",\"weight\":[", thread, SampleColumn::Weight)?;
    add_text(out, page, "}")
}
