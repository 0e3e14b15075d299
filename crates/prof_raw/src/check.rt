//! The checks of the tables, in the written order.
ghost use Rattle.std.specs.Prelude.{◌≡◌, ◌<◌, ◌^◌, length};
ghost use Rattle.prof_raw.specs.Checks.{Passes, resource_count, strings_broken, resources_broken, funcs_broken, frames_broken, stacks_broken, shared_broken, unit_fault, samples_broken, markers_broken, own_broken};

use crate::column::{CellKind, counted_fault, whole_fault};
use crate::limits::{MOST_FUNCS, MOST_ROWS, MOST_SAMPLES, MOST_STRINGS};
use crate::moment::{Moment, time_column, time_fault};
use crate::place::{Place, first_column, needed_column, optional_column, pass, table_length};
use crate::raw::{RawOwn, RawShared, Unit};
use crate::rule::{Broken, Column, ListFault, Rule, Table};

/// Checks the string list: as a whole, then its number of strings, then each string.
#[tactic(auto, unfolding(crate::specs::Checks::strings_broken))]
pub fn check_strings(thread: Option<u32>, raw: &RawShared) -> Result<(), Broken>
    ensures { Passes result (strings_broken thread raw.now) }
{
    let fault = counted_fault(MOST_STRINGS, raw.strings.count(), raw.string_fault);
    pass(Place::at(thread, Table::StringArray, Column::List), fault)
}

/// Checks `resourceTable`, where it is there.
#[tactic(auto, unfolding(crate::specs::Checks::resources_broken))]
pub fn check_resources(thread: Option<u32>, raw: &RawShared) -> Result<(), Broken>
    ensures { Passes result (resources_broken thread raw.now) }
{
    if !raw.has_resources {
        return Ok(());
    }
    let table = Table::ResourceTable;
    let strings = raw.strings.count();
    let name = Place::at(thread, table, Column::Name);
    let rows = first_column(
        name,
        MOST_FUNCS,
        CellKind::Index(strings),
        &raw.resource_name,
    )?;
    table_length(thread, table, rows, raw.resource_length)
}

/// Checks `funcTable`.
#[tactic(auto, unfolding(crate::specs::Checks::funcs_broken))]
pub fn check_funcs(thread: Option<u32>, raw: &RawShared) -> Result<(), Broken>
    requires { resource_count raw.now < 2 ^ 32 }
    ensures { Passes result (funcs_broken thread raw.now) }
{
    let table = Table::FuncTable;
    let strings = raw.strings.count();
    let resources = raw.resource_count();
    let name = Place::at(thread, table, Column::Name);
    let rows = first_column(name, MOST_FUNCS, CellKind::Index(strings), &raw.func_name)?;
    let is_js = Place::at(thread, table, Column::IsJs);
    optional_column(is_js, rows, CellKind::Truth, &raw.func_is_js)?;
    let relevant = Place::at(thread, table, Column::RelevantForJs);
    optional_column(relevant, rows, CellKind::Truth, &raw.func_relevant_for_js)?;
    let resource = Place::at(thread, table, Column::Resource);
    optional_column(
        resource,
        rows,
        CellKind::MinusOrIndex(resources),
        &raw.func_resource,
    )?;
    let file = Place::at(thread, table, Column::FileName);
    optional_column(
        file,
        rows,
        CellKind::MaybeIndex(strings),
        &raw.func_file_name,
    )?;
    table_length(thread, table, rows, raw.func_length)
}

/// Checks `frameTable`.
#[tactic(auto, unfolding(crate::specs::Checks::frames_broken))]
pub fn check_frames(thread: Option<u32>, categories: u32, raw: &RawShared) -> Result<(), Broken>
    requires { length raw.now.func_name.cells < 2 ^ 32 }
    ensures { Passes result (frames_broken thread categories raw.now) }
{
    let table = Table::FrameTable;
    let funcs = raw.func_name.values.len() as u32;
    let func = Place::at(thread, table, Column::Func);
    let rows = first_column(func, MOST_ROWS, CellKind::Index(funcs), &raw.frame_func)?;
    let category = Place::at(thread, table, Column::Category);
    optional_column(
        category,
        rows,
        CellKind::MaybeIndex(categories),
        &raw.frame_category,
    )?;
    table_length(thread, table, rows, raw.frame_length)
}

/// Checks `stackTable`.
#[tactic(auto, unfolding(crate::specs::Checks::stacks_broken))]
pub fn check_stacks(thread: Option<u32>, raw: &RawShared) -> Result<(), Broken>
    requires { length raw.now.frame_func.cells < 2 ^ 32 }
    ensures { Passes result (stacks_broken thread raw.now) }
{
    let table = Table::StackTable;
    let frames = raw.frame_func.values.len() as u32;
    let frame = Place::at(thread, table, Column::Frame);
    let rows = first_column(frame, MOST_ROWS, CellKind::Index(frames), &raw.stack_frame)?;
    let prefix = Place::at(thread, table, Column::Prefix);
    needed_column(prefix, rows, CellKind::Prefix, &raw.stack_prefix)?;
    table_length(thread, table, rows, raw.stack_length)
}

/// Checks the tables that threads may share.
#[tactic(auto, unfolding(crate::specs::Checks::shared_broken, crate::specs::Checks::resources_broken, crate::specs::Checks::funcs_broken, crate::specs::Checks::frames_broken))]
pub fn check_shared(thread: Option<u32>, categories: u32, raw: &RawShared) -> Result<(), Broken>
    ensures { Passes result (shared_broken thread categories raw.now) }
{
    check_strings(thread, raw)?;
    check_resources(thread, raw)?;
    check_funcs(thread, raw)?;
    check_frames(thread, categories, raw)?;
    check_stacks(thread, raw)
}

/// A weight type that isn't known.
fn unit_fault(unit: Option<Unit>) -> Option<ListFault>
    ensures { result ≡ unit_fault unit }
{
    match unit {
        Some(_) => None,
        None => Some(whole_fault(Rule::WeightType)),
    }
}

/// Checks `samples`, over that many stack rows.
#[tactic(auto, unfolding(crate::specs::Checks::samples_broken))]
pub fn check_samples(thread: Option<u32>, stacks: u32, raw: &RawOwn) -> Result<(), Broken>
    ensures { Passes result (samples_broken thread stacks raw.now) }
{
    let table = Table::Samples;
    let stack = Place::at(thread, table, Column::Stack);
    let rows = first_column(
        stack,
        MOST_SAMPLES,
        CellKind::MaybeIndex(stacks),
        &raw.sample_stack,
    )?;
    let time = Place::at(
        thread,
        table,
        time_column(raw.sample_time.state, raw.deltas),
    );
    pass(time, time_fault(raw.deltas, rows, &raw.sample_time))?;
    let unit = Place::at(thread, table, Column::WeightType);
    pass(unit, unit_fault(raw.unit))?;
    let weight = Place::at(thread, table, Column::Weight);
    optional_column(weight, rows, CellKind::Number, &raw.sample_weight)?;
    table_length(thread, table, rows, raw.sample_length)
}

/// Checks `markers`, where they are there, over that many strings.
#[tactic(auto, unfolding(crate::specs::Checks::markers_broken))]
pub fn check_markers(thread: Option<u32>, strings: u32, raw: &RawOwn) -> Result<(), Broken>
    ensures { Passes result (markers_broken thread strings raw.now) }
{
    if !raw.has_markers {
        return Ok(());
    }
    let table = Table::Markers;
    let phase = Place::at(thread, table, Column::Phase);
    let rows = first_column(phase, MOST_ROWS, CellKind::Phase, &raw.marker_phase)?;
    let name = Place::at(thread, table, Column::Name);
    needed_column(name, rows, CellKind::Index(strings), &raw.marker_name)?;
    let start = Place::at(thread, table, Column::StartTime);
    pass(
        start,
        Moment::Start.fault(rows, &raw.marker_phase, &raw.marker_start),
    )?;
    let end = Place::at(thread, table, Column::EndTime);
    pass(
        end,
        Moment::End.fault(rows, &raw.marker_phase, &raw.marker_end),
    )?;
    let data = Place::at(thread, table, Column::Data);
    optional_column(data, rows, CellKind::Any, &raw.marker_data)?;
    table_length(thread, table, rows, raw.marker_length)
}

/// Checks a thread's own tables, over that many strings and stack rows.
#[tactic(auto, unfolding(crate::specs::Checks::own_broken))]
pub fn check_own(thread: Option<u32>, strings: u32, stacks: u32, raw: &RawOwn) -> Result<(), Broken>
    ensures { Passes result (own_broken thread strings stacks raw.now) }
{
    check_samples(thread, stacks, raw)?;
    check_markers(thread, strings, raw)
}
