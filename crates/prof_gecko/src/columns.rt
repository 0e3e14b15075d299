//! The columns of a Gecko thread by their names.
ghost use Rattle.std.specs.Prelude.{◌≡◌, ◌≢◌, ℕ, slice_index_or, IfOk};
ghost use Rattle.prof_gecko.specs.Gathered.{no_column};
ghost use Rattle.prof_gecko.specs.Columns.{frame_cells, stack_cells, moved_column, parts_of, shift_of};

use crate::gathered::{GeckoTable, GeckoThread, TableFault};
use crate::shift::Shift;
use prof_io::Text;
use prof_raw::{CellList, ListFault, RawColumn, RawOwn, State, Strings, TableLength, Unit};
use std::alloc::{AllocError, Global};
use std::marker::Model;
use std::rc::Rc;

/// The columns of frames.
#[derive(Drop)]
pub(crate) struct FrameColumns {
    pub(crate) fault: Option<TableFault>,
    pub(crate) location: RawColumn,
    pub(crate) relevant_for_js: RawColumn,
    pub(crate) category: RawColumn,
}

impl Model for FrameColumns {
    ghost use Rattle.prof_gecko.specs.Columns.{FrameCells};

    ghost Value = { FrameCells };

    ghost view = { λ f. record {
      fault = f.fault;
      location = f.location;
      relevant_for_js = f.relevant_for_js;
      category = f.category;
    } };
}

/// The columns of stack rows.
#[derive(Drop)]
pub(crate) struct StackColumns {
    pub(crate) fault: Option<TableFault>,
    pub(crate) frame: RawColumn,
    pub(crate) prefix: RawColumn,
}

impl Model for StackColumns {
    ghost use Rattle.prof_gecko.specs.Columns.{StackCells};

    ghost Value = { StackCells };

    ghost view = { λ s. record { fault = s.fault; frame = s.frame; prefix = s.prefix } };
}

/// All columns of a thread, with its times moved.
#[derive(Drop)]
pub(crate) struct ThreadColumns {
    pub(crate) strings: Rc<Strings>,
    pub(crate) string_fault: Option<ListFault>,
    pub(crate) frames: FrameColumns,
    pub(crate) stacks: StackColumns,
    pub(crate) samples_fault: Option<TableFault>,
    pub(crate) markers_fault: Option<TableFault>,
    pub(crate) own: RawOwn,
}

impl Model for ThreadColumns {
    ghost use Rattle.prof_gecko.specs.Columns.{ThreadParts};

    ghost Value = { ThreadParts };

    ghost view = { λ t. record {
      strings = t.strings.value;
      string_fault = t.string_fault;
      frames = t.frames;
      stacks = t.stacks;
      samples_fault = t.samples_fault;
      markers_fault = t.markers_fault;
      own = t.own;
    } };
}

/// A column that isn't there.
fn no_column(alloc: Global) -> RawColumn
    ensures { result ≡ no_column }
{
    RawColumn {
        state: State::Absent,
        values: CellList::new(alloc),
        bad: None,
    }
}

/// Takes the column of a number out of a table.
fn take_column(alloc: Global, columns: &mut Vec<RawColumn>, i: usize) -> RawColumn
    ensures taken { result ≡ slice_index_or columns.old.items i no_column }
    ensures others { (k : ℕ) → k ≢ i →
        slice_index_or columns.new.items k no_column ≡ slice_index_or columns.old.items k no_column }
{
    let absent = no_column(alloc);
    if i < columns.len() {
        std::mem::replace(&mut columns[i], absent)
    } else {
        absent
    }
}

impl FrameColumns {
    fn of(alloc: Global, table: GeckoTable) -> Self
        ensures { result ≡ frame_cells table }
    {
        let mut columns = table.columns;
        let location = take_column(alloc, &mut columns, 0);
        let relevant_for_js = take_column(alloc, &mut columns, 1);
        let category = take_column(alloc, &mut columns, 2);
        FrameColumns {
            fault: table.fault,
            location,
            relevant_for_js,
            category,
        }
    }
}

impl StackColumns {
    fn of(alloc: Global, table: GeckoTable) -> Self
        ensures { result ≡ stack_cells table }
    {
        let mut columns = table.columns;
        let frame = take_column(alloc, &mut columns, 0);
        let prefix = take_column(alloc, &mut columns, 1);
        StackColumns {
            fault: table.fault,
            frame,
            prefix,
        }
    }
}

/// The columns of samples.
#[derive(Drop)]
struct SampleColumns {
    stack: RawColumn,
    time: RawColumn,
}

impl SampleColumns {
    fn of(alloc: Global, shift: Shift, mut columns: Vec<RawColumn>) -> Result<Self, AllocError>
        ensures stack { IfOk result (λ c. c.stack ≡ slice_index_or columns.items 0 no_column) }
        ensures time { IfOk result (λ c. c.time
            ≡ moved_column (shift_of shift) (slice_index_or columns.items 1 no_column)) }
    {
        let stack = take_column(alloc, &mut columns, 0);
        let time = take_column(alloc, &mut columns, 1);
        let time = shift.moved_column(alloc, time)?;
        Ok(SampleColumns { stack, time })
    }
}

/// The columns of markers.
#[derive(Drop)]
struct MarkerColumns {
    phase: RawColumn,
    name: RawColumn,
    start: RawColumn,
    end: RawColumn,
    details: RawColumn,
}

impl MarkerColumns {
    fn of(alloc: Global, shift: Shift, mut columns: Vec<RawColumn>) -> Result<Self, AllocError>
        ensures phase { IfOk result (λ c. c.phase ≡ slice_index_or columns.items 0 no_column) }
        ensures name { IfOk result (λ c. c.name ≡ slice_index_or columns.items 1 no_column) }
        ensures start { IfOk result (λ c. c.start
            ≡ moved_column (shift_of shift) (slice_index_or columns.items 2 no_column)) }
        ensures end { IfOk result (λ c. c.end
            ≡ moved_column (shift_of shift) (slice_index_or columns.items 3 no_column)) }
        ensures details { IfOk result (λ c. c.details
            ≡ slice_index_or columns.items 4 no_column) }
    {
        let phase = take_column(alloc, &mut columns, 0);
        let name = take_column(alloc, &mut columns, 1);
        let start = take_column(alloc, &mut columns, 2);
        let end = take_column(alloc, &mut columns, 3);
        let details = take_column(alloc, &mut columns, 4);
        let start = shift.moved_column(alloc, start)?;
        let end = shift.moved_column(alloc, end)?;
        Ok(MarkerColumns {
            phase,
            name,
            start,
            end,
            details,
        })
    }
}

impl ThreadColumns {
    /// The columns of a thread, whose times are moved.
    #[tactic(auto, unfolding(crate::specs::Columns::parts_of))]
    pub(crate) fn of(alloc: Global, shift: Shift, thread: GeckoThread) -> Result<Self, AllocError>
        ensures { IfOk result (λ columns. columns ≡ parts_of (shift_of shift) thread) }
    {
        let GeckoThread {
            name,
            strings,
            string_fault,
            frame,
            stack,
            samples,
            has_markers,
            markers,
            marker_texts,
            marker_ranges,
        } = thread;
        let samples_fault = samples.fault;
        let markers_fault = markers.fault;
        let samples = SampleColumns::of(alloc, shift, samples.columns)?;
        let markers = MarkerColumns::of(alloc, shift, markers.columns)?;
        let own = RawOwn {
            name,
            sample_stack: samples.stack,
            sample_time: samples.time,
            deltas: false,
            unit: Some(Unit::Samples),
            sample_weight: no_column(alloc),
            sample_length: TableLength::Unsaid,
            has_markers,
            marker_phase: markers.phase,
            marker_name: markers.name,
            marker_start: markers.start,
            marker_end: markers.end,
            marker_data: markers.details,
            marker_length: TableLength::Unsaid,
            marker_texts,
            marker_ranges,
        };
        Ok(ThreadColumns {
            strings,
            string_fault,
            frames: FrameColumns::of(alloc, frame),
            stacks: StackColumns::of(alloc, stack),
            samples_fault,
            markers_fault,
            own,
        })
    }
}
