//! The checks of a Gecko thread, in the written order.
ghost use Rattle.std.specs.Prelude.{◌≡◌, length, IfOk};
ghost use Rattle.prof_raw.specs.Checks.{Passes};
ghost use Rattle.prof_gecko.specs.Checks.{table_broken, frames_broken, stacks_broken, columns_broken, over, limits_broken};

use crate::columns::{FrameColumns, StackColumns, ThreadColumns};
use crate::gathered::TableFault;
use prof_gecko_names::FuncLists;
use prof_raw::{
    Broken, CellKind, Column, MOST_FUNCS, MOST_ROWS, MOST_STRINGS, Place, Size, Table,
    check_markers, check_samples, counted_fault, first_column, needed_column, optional_column,
    pass, size_fault,
};

/// Checks a table, its schema and its data.
fn check_table(thread: Option<u32>, table: Table, fault: Option<TableFault>) -> Result<(), Broken>
    ensures { Passes result (table_broken thread table fault) }
{
    match fault {
        Some(TableFault { column, fault }) => pass(Place::at(thread, table, column), Some(fault)),
        None => Ok(()),
    }
}

/// Checks `frameTable`, and gives its number of rows.
#[tactic(auto, unfolding(crate::specs::Checks::frames_broken))]
fn check_frames(
    thread: Option<u32>,
    strings: u32,
    categories: u32,
    frames: &FrameColumns,
) -> Result<u32, Broken>
    ensures passes { Passes result (frames_broken thread strings categories frames.now) }
    ensures rows { IfOk result (λ rows. rows ≡ length frames.now.location.cells) }
{
    let table = Table::FrameTable;
    check_table(thread, table, frames.fault)?;
    let location = Place::at(thread, table, Column::Location);
    let index = CellKind::Index(strings);
    let rows = first_column(location, MOST_ROWS, index, &frames.location)?;
    let relevant = Place::at(thread, table, Column::RelevantForJs);
    optional_column(relevant, rows, CellKind::Truth, &frames.relevant_for_js)?;
    let category = Place::at(thread, table, Column::Category);
    let index = CellKind::MaybeIndex(categories);
    optional_column(category, rows, index, &frames.category)?;
    Ok(rows)
}

/// Checks `stackTable` over so many frames, and gives its number of rows.
#[tactic(auto, unfolding(crate::specs::Checks::stacks_broken))]
fn check_stacks(thread: Option<u32>, frames: u32, stacks: &StackColumns) -> Result<u32, Broken>
    ensures passes { Passes result (stacks_broken thread frames stacks.now) }
    ensures rows { IfOk result (λ rows. rows ≡ length stacks.now.frame.cells) }
{
    let table = Table::StackTable;
    check_table(thread, table, stacks.fault)?;
    let frame = Place::at(thread, table, Column::Frame);
    let rows = first_column(frame, MOST_ROWS, CellKind::Index(frames), &stacks.frame)?;
    let prefix = Place::at(thread, table, Column::Prefix);
    needed_column(prefix, rows, CellKind::Prefix, &stacks.prefix)?;
    Ok(rows)
}

/// Checks the columns of a thread.
#[tactic(auto, unfolding(crate::specs::Checks::columns_broken))]
pub(crate) fn check_columns(
    thread: Option<u32>,
    categories: u32,
    columns: &ThreadColumns,
) -> Result<(), Broken>
    ensures { Passes result (columns_broken thread categories columns.now) }
{
    let strings = columns.strings.count();
    let list = Place::at(thread, Table::StringTable, Column::List);
    pass(
        list,
        counted_fault(MOST_STRINGS, strings, columns.string_fault),
    )?;
    let frames = check_frames(thread, strings, categories, &columns.frames)?;
    let stacks = check_stacks(thread, frames, &columns.stacks)?;
    check_table(thread, Table::Samples, columns.samples_fault)?;
    check_samples(thread, stacks, &columns.own)?;
    if columns.own.has_markers {
        check_table(thread, Table::Markers, columns.markers_fault)?;
    }
    check_markers(thread, strings, &columns.own)
}

/// Holds a derived list against its limit.
fn check_limit(place: Place, most: u32, count: usize) -> Result<(), Broken>
    ensures { Passes result (over place.thread place.table place.column most count) }
{
    pass(place, size_fault(Size::AtMost(most), count))
}

/// Holds the derived strings, resources and functions against their limits.
#[tactic(auto, unfolding(crate::specs::Checks::limits_broken))]
pub(crate) fn check_limits(thread: Option<u32>, lists: &FuncLists) -> Result<(), Broken>
    ensures { Passes result (limits_broken thread lists.now) }
{
    let strings = Place::at(thread, Table::StringTable, Column::List);
    check_limit(strings, MOST_STRINGS, lists.strings.count() as usize)?;
    let resources = Place::at(thread, Table::ResourceTable, Column::Name);
    check_limit(resources, MOST_FUNCS, lists.resources.len())?;
    let funcs = Place::at(thread, Table::FuncTable, Column::Name);
    check_limit(funcs, MOST_FUNCS, lists.funcs.len())
}
