//! The strings, the resources and the functions of a thread.
ghost use Rattle.std.specs.Prelude.{◌≡◌, ◌<◌, ◌≤◌, ◌++◌, Some, false, length, codes, map, option_map, slice_get};
ghost use Rattle.prof_grammar.specs.Value.{string};
ghost use Rattle.prof_io.specs.Outside.{seen};
ghost use Rattle.prof_page.specs.Gathering.{Gathers};
ghost use Rattle.prof_tables.specs.Threads.{Func};
ghost use Rattle.prof_write.specs.Cells.{index, texts_of_cells};
ghost use Rattle.prof_write.specs.Columns.{func_cell};
ghost use Rattle.prof_write.specs.Compact.{compact, compact_items, values_of};
ghost use Rattle.prof_write.specs.Written.{funcs_value, resources_value};

use crate::arrays::add_array;
use crate::lines::{maybe_index_line, resource_line, truth_line};
use prof_io::{OutFault, Sink};
use prof_page::{Column, Line, Page, add_line, add_string, add_text, number_line};
use prof_tables::Thread;

/// The strings.
#[derive(Drop)]
pub(crate) struct Strings<'a> {
    pub(crate) thread: &'a Thread,
}

impl Column for Strings<'_> {
    ghost cells = { λ s. texts_of_cells string s.thread.now.shared.strings };

    fn count(&self) -> u32 {
        self.thread.strings().count()
    }

    fn add_cell<S: Sink>(&self, out: &mut S, page: &mut Page, row: u32) -> Result<(), OutFault> {
        match self.thread.strings().get(row) {
            Some(text) => add_string(out, page, text),
            None => unreachable!(),
        }
    }
}

/// The places of the resources' names.
#[derive(Drop)]
struct Resources<'a> {
    thread: &'a Thread,
}

impl Column for Resources<'_> {
    ghost cells = { λ s. texts_of_cells index s.thread.now.shared.resources };

    fn count(&self) -> u32 {
        self.thread.resource_count()
    }

    fn add_cell<S: Sink>(&self, out: &mut S, page: &mut Page, row: u32) -> Result<(), OutFault> {
        add_line(out, page, &number_line(self.thread.resource_string(row)))
    }
}

/// Adds the resources.
pub(crate) fn add_resources<S: Sink>(
    out: &mut S,
    page: &mut Page,
    thread: &Thread,
) -> Result<(), OutFault>
    ensures { Gathers (seen S.Counted out.old) (seen S.Counted out.new) result page.old.bytes
        (codes ",\"resourceTable\":" ++ compact (resources_value thread.now.shared)) page.new.bytes }
{
    add_array(
        out,
        page,
        ",\"resourceTable\":{\"name\":[",
        &Resources { thread },
    )?;
    add_text(out, page, "}")
}

/// A column of the functions.
#[derive(Clone, Copy, PartialEq, Eq, Debug)]
pub(crate) enum FuncColumn {
    Name,
    IsJs,
    RelevantForJs,
    Resource,
    FileName,
}

/// A column of a thread's functions.
#[derive(Drop)]
struct Funcs<'a> {
    thread: &'a Thread,
    column: FuncColumn,
}

impl Funcs<'_> {
    fn line(&self, row: u32) -> Line
        requires { row < length self.now.thread.now.shared.funcs }
        ensures { option_map (λ (f : Func). compact (func_cell self.now.column f))
            (slice_get self.now.thread.now.shared.funcs row) ≡ Some result.bytes }
    {
        match self.column {
            FuncColumn::Name => number_line(self.thread.func_strings(row).name),
            FuncColumn::IsJs => truth_line(self.thread.is_js(row)),
            FuncColumn::RelevantForJs => truth_line(self.thread.relevant_for_js(row)),
            FuncColumn::Resource => resource_line(self.thread.func_resource(row)),
            FuncColumn::FileName => maybe_index_line(self.thread.func_strings(row).file),
        }
    }
}

impl Column for Funcs<'_> {
    ghost cells = { λ s. texts_of_cells (func_cell s.column) s.thread.now.shared.funcs };

    fn count(&self) -> u32 {
        self.thread.func_count()
    }

    fn add_cell<S: Sink>(&self, out: &mut S, page: &mut Page, row: u32) -> Result<(), OutFault> {
        add_line(out, page, &self.line(row))
    }
}

/// Adds a column of the functions, and the text before it.
fn add_func_column<S: Sink>(
    out: &mut S,
    page: &mut Page,
    before: &str,
    thread: &Thread,
    column: FuncColumn,
) -> Result<(), OutFault>
    requires { length before.now ≤ 65536 }
    ensures { Gathers (seen S.Counted out.old) (seen S.Counted out.new) result page.old.bytes
        (before.now ++ compact_items false (values_of (map (func_cell column) thread.now.shared.funcs))) page.new.bytes }
{
    add_array(out, page, before, &Funcs { thread, column })
}

/// Adds the functions.
pub(crate) fn add_funcs<S: Sink>(
    out: &mut S,
    page: &mut Page,
    thread: &Thread,
) -> Result<(), OutFault>
    ensures { Gathers (seen S.Counted out.old) (seen S.Counted out.new) result page.old.bytes
        (codes ",\"funcTable\":" ++ compact (funcs_value thread.now.shared)) page.new.bytes }
{
    add_func_column(
        out,
        page,
        ",\"funcTable\":{\"name\":[",
        thread,
        FuncColumn::Name,
    )?;
    add_func_column(out, page, ",\"isJS\":[", thread, FuncColumn::IsJs)?;
    add_func_column(
        out,
        page,
        ",\"relevantForJS\":[",
        thread,
        FuncColumn::RelevantForJs,
    )?;
    add_func_column(out, page, ",\"resource\":[", thread, FuncColumn::Resource)?;
    add_func_column(out, page, ",\"fileName\":[", thread, FuncColumn::FileName)?;
    add_text(out, page, "}")
}
