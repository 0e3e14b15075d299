//! Raw tables of what was gathered.
ghost use Rattle.std.specs.Prelude.{◌≡◌, List, ℕ, false, Option, Some, None, [], IfOk, length, codes, unwrap_or, string_bytes};
ghost use Rattle.prof_raw.specs.declared.limits.TheConstants.{MOST_FUNCS, MOST_ROWS, MOST_SAMPLES};
ghost use Rattle.std.specs.Option.{option_map};
ghost use Rattle.prof_grammar.specs.Value.{Value, Members, last_named};
ghost use Rattle.prof_layout.specs.declared.reading.Reading.TheVariants as reading;
ghost use Rattle.prof_layout.specs.Columns.{capped, column_of, read_cell};
ghost use Rattle.prof_layout.specs.Lists as layout_texts;
ghost use Rattle.prof_layout.specs.Tables as layout;
ghost use Rattle.prof_layout.specs.Kept as kept;
ghost use Rattle.prof_gather.specs.Taking.{IsFoundIn};
ghost use Rattle.prof_column.specs.Kept.{IsTextList, string_of};
ghost use Rattle.prof_members.specs.Gathered.{AreResourceColumns, AreFuncColumns, AreFrameColumns, AreStackColumns, AreSampleColumns, AreMarkerColumns, AreShared, AreWeights};
ghost use Rattle.prof_read.specs.Raw.{AreResources, AreFuncs, AreFrames, AreStacks, AreSamples, AreMarkers, HoldsStrings};
ghost use Rattle.prof_raw.specs.declared.rule.ListFault.{ListFault};
ghost use Rattle.prof_column.specs.declared.list.TextList.{TextList};
ghost use Rattle.prof_members.specs.Ranges.{AreRanges};

use prof_column::{TextList, empty_column};
use prof_gather::Found;
use prof_io::{NoMemory, Text};
use prof_members::{
    FrameTable, FuncTable, MarkerData, MarkerTable, ResourceTable, SampleTable, SharedTables,
    StackTable, Weights,
};
use prof_raw::{ListFault, RawColumn, RawOwn, RawShared, State, Strings, Unit};
use std::alloc::Global;
use std::rc::Rc;

/// The columns of a table: none where it is absent, and where it is no object its first column says so.
fn resource_columns(alloc: Global, table: Found<ResourceTable>) -> (bool, ResourceTable)
    ensures { (table_ : Option Value) → IsFoundIn AreResourceColumns table_ table → AreResources table_ result }
{
    match table {
        Found::Object(table) => (true, table),
        Found::Absent | Found::Null => (false, ResourceTable::none(alloc)),
        Found::Other => {
            let mut table = ResourceTable::none(alloc);
            table.name = empty_column(alloc, State::NotArray);
            (true, table)
        }
    }
}

fn func_columns(alloc: Global, table: Found<FuncTable>) -> FuncTable
    ensures { (table_ : Option Value) → IsFoundIn AreFuncColumns table_ table → AreFuncs table_ result }
{
    match table {
        Found::Object(table) => table,
        Found::Absent => FuncTable::none(alloc),
        Found::Null | Found::Other => {
            let mut table = FuncTable::none(alloc);
            table.name = empty_column(alloc, State::NotArray);
            table
        }
    }
}

fn frame_columns(alloc: Global, table: Found<FrameTable>) -> FrameTable
    ensures { (table_ : Option Value) → IsFoundIn AreFrameColumns table_ table → AreFrames table_ result }
{
    match table {
        Found::Object(table) => table,
        Found::Absent => FrameTable::none(alloc),
        Found::Null | Found::Other => {
            let mut table = FrameTable::none(alloc);
            table.func = empty_column(alloc, State::NotArray);
            table
        }
    }
}

fn stack_columns(alloc: Global, table: Found<StackTable>) -> StackTable
    ensures { (table_ : Option Value) → IsFoundIn AreStackColumns table_ table → AreStacks table_ result }
{
    match table {
        Found::Object(table) => table,
        Found::Absent => StackTable::none(alloc),
        Found::Null | Found::Other => {
            let mut table = StackTable::none(alloc);
            table.frame = empty_column(alloc, State::NotArray);
            table
        }
    }
}

fn sample_columns(alloc: Global, table: Found<SampleTable>) -> SampleTable
    ensures { (table_ : Option Value) → IsFoundIn AreSampleColumns table_ table → AreSamples table_ result }
{
    match table {
        Found::Object(table) => table,
        Found::Absent => SampleTable::none(alloc),
        Found::Null | Found::Other => {
            let mut table = SampleTable::none(alloc);
            table.stack = empty_column(alloc, State::NotArray);
            table
        }
    }
}

/// The columns of the markers, and whether there are any.
fn marker_columns(alloc: Global, table: Found<MarkerTable>) -> (bool, MarkerTable)
    ensures { (table_ : Option Value) → IsFoundIn AreMarkerColumns table_ table → AreMarkers table_ result }
{
    match table {
        Found::Object(table) => {
            let there = table.phase.state != State::Absent;
            (there, table)
        }
        Found::Absent | Found::Null | Found::Other => (false, MarkerTable::none(alloc)),
    }
}

/// The times of the samples, and whether they are deltas: where both are there the times count.
fn time_column(time: RawColumn, deltas: RawColumn) -> (RawColumn, bool)
    ensures { (table : Option Value) → time ≡ capped MOST_SAMPLES (layout.optional_cells reading.Time table (codes "time")) → deltas ≡ capped MOST_SAMPLES (layout.optional_cells reading.Time table (codes "timeDeltas"))
        → (result.0 ≡ capped MOST_SAMPLES (layout.time_cells table)) × (result.1 ≡ layout.has_deltas table) }
{
    if time.state == State::Absent && deltas.state != State::Absent {
        (deltas, true)
    } else {
        (time, false)
    }
}

fn weight_column(weights: Weights, unit: Option<Unit>) -> RawColumn
    ensures { (member : Option Value) → AreWeights member weights → result ≡ capped MOST_SAMPLES (column_of (read_cell (layout.weight_reading unit)) false member) }
{
    let Weights { counts, times } = weights;
    match unit {
        Some(Unit::Ns) => times,
        Some(Unit::Samples) | Some(Unit::Bytes) | None => counts,
    }
}

/// A list of strings, and the first rule that it breaks.
#[derive(Drop)]
pub struct HeldStrings {
    pub strings: Rc<Strings>,
    pub fault: Option<ListFault>,
}

pub fn held_strings(alloc: Global, list: TextList) -> Result<HeldStrings, NoMemory>
    ensures { IfOk result (λ held. (member : Option Value) → IsTextList member list → HoldsStrings (layout_texts.texts_of member) (layout.strings_fault member) held) }
{
    let fault = list.fault();
    let TextList { texts, .. } = list;
    let strings = Strings::of(alloc, texts)?;
    let strings = Rc::new(alloc, strings)?;
    Ok(HeldStrings { strings, fault })
}

/// The raw tables that threads may share, over this list of strings; the list that was gathered plays no part.
pub fn tables_over(alloc: Global, tables: SharedTables, strings: HeldStrings) -> RawShared
    ensures { (ms : Members) (own : TextList) (texts : List (List ℕ)) (fault : Option ListFault)
        → AreShared ms (record tables { strings = own }) → HoldsStrings texts fault strings
        → result ≡ kept.kept_shared (layout.shared_over texts fault (Value.object ms)) }
{
    let SharedTables {
        strings: _gathered,
        resources,
        funcs,
        frames,
        stacks,
    } = tables;
    let HeldStrings { strings, fault } = strings;
    let (has_resources, resources) = resource_columns(alloc, resources);
    let funcs = func_columns(alloc, funcs);
    let frames = frame_columns(alloc, frames);
    let stacks = stack_columns(alloc, stacks);
    RawShared {
        strings,
        string_fault: fault,
        has_resources,
        resource_name: resources.name,
        resource_length: resources.length,
        func_name: funcs.name,
        func_is_js: funcs.is_js,
        func_relevant_for_js: funcs.relevant_for_js,
        func_resource: funcs.resource,
        func_file_name: funcs.file_name,
        func_length: funcs.length,
        frame_func: frames.func,
        frame_category: frames.category,
        frame_length: frames.length,
        stack_frame: stacks.frame,
        stack_prefix: stacks.prefix,
        stack_length: stacks.length,
    }
}

/// The raw tables that threads share, of what was gathered of them.
pub fn raw_shared(alloc: Global, mut tables: SharedTables) -> Result<RawShared, NoMemory>
    ensures { IfOk result (λ raw. (ms : Members) → AreShared ms tables → raw ≡ kept.kept_shared (layout.raw_shared (Value.object ms))) }
{
    let gathered = std::mem::replace(&mut tables.strings, TextList::absent(alloc));
    let strings = held_strings(alloc, gathered)?;
    Ok(tables_over(alloc, tables, strings))
}

/// The raw columns of a thread's own tables.
pub fn raw_own(
    alloc: Global,
    name: Option<String>,
    samples: Found<SampleTable>,
    markers: Found<MarkerTable>,
) -> Result<RawOwn, NoMemory>
    ensures ranges { IfOk result (λ raw. AreRanges (length raw.marker_texts) raw.marker_ranges) }
    ensures own { IfOk result (λ raw. (ms : Members) → option_map string_bytes name ≡ string_of (last_named (codes "name") ms)
        → IsFoundIn AreSampleColumns (last_named (codes "samples") ms) samples
        → IsFoundIn AreMarkerColumns (last_named (codes "markers") ms) markers
        → raw ≡ kept.kept_own (Value.object ms)) }
{
    let name = thread_name(alloc, name)?;
    let SampleTable {
        stack,
        time,
        time_deltas,
        unit,
        weights,
        length: sample_length,
    } = sample_columns(alloc, samples);
    let (sample_time, deltas) = time_column(time, time_deltas);
    let sample_weight = weight_column(weights, unit);
    let (has_markers, markers) = marker_columns(alloc, markers);
    let MarkerData {
        column: marker_data,
        texts: marker_texts,
        ranges: marker_ranges,
    } = markers.data;
    Ok(RawOwn {
        name,
        sample_stack: stack,
        sample_time,
        deltas,
        unit,
        sample_weight,
        sample_length,
        has_markers,
        marker_phase: markers.phase,
        marker_name: markers.name,
        marker_start: markers.start_time,
        marker_end: markers.end_time,
        marker_data,
        marker_length: markers.length,
        marker_texts,
        marker_ranges,
    })
}

/// The name of a thread, which is empty where it is no string.
fn thread_name(alloc: Global, name: Option<String>) -> Result<Text, NoMemory>
    ensures { IfOk result (λ text. text ≡ unwrap_or (option_map string_bytes name) []) }
{
    let mut text = Text::new(alloc);
    if let Some(name) = name {
        text.push_str(name.as_str())?;
    }
    Ok(text)
}
