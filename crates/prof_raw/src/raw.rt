//! The columns of tables as they are gathered, before any check.
ghost use Rattle.std.specs.Prelude.{◌≡◌, ◌<◌, ◌^◌};
ghost use Rattle.prof_raw.specs.Checks.{resource_count};

use crate::cell_list::CellList;
use crate::rule::{BadCell, ListFault};
use crate::strings::Strings;
use prof_io::Text;
use std::marker::Model;
use std::rc::Rc;

/// Whether a column was there, and as an array.
#[derive(Clone, Copy, PartialEq, Eq, Debug)]
pub enum State {
    Absent,
    NotArray,
    Array,
}

/// A column as it was gathered. A truth value stands as 1 or 0, and null as None. `bad` is the first cell of a kind or a
/// range that no number of `values` stands for, and such a cell is None there. A whole number that fits no i64 stands as
/// the i64 of its sign that is farthest from 0.
#[derive(Drop)]
pub struct RawColumn {
    pub state: State,
    pub values: CellList,
    pub bad: Option<BadCell>,
}

impl Model for RawColumn {
    ghost use Rattle.prof_raw.specs.Cells.{Cells};

    ghost Value = { Cells };

    ghost view = { λ c. record { state = c.state; cells = c.values; bad = c.bad } };
}

/// The member `length` of a table: absent or no number, a whole number, or another number.
#[derive(Clone, Copy, PartialEq, Eq, Debug)]
pub enum TableLength {
    Unsaid,
    Whole(i128),
    Other,
}

/// What the weights of a thread's samples count.
#[derive(Clone, Copy, PartialEq, Eq, Debug)]
pub enum Unit {
    Samples,
    Bytes,
    /// Nanoseconds.
    Ns,
}

/// What is gathered of the tables that threads may share. A table that is no object has the state NotArray in its first
/// column.
#[derive(Drop)]
pub struct RawShared {
    pub strings: Rc<Strings>,
    pub string_fault: Option<ListFault>,
    pub has_resources: bool,
    pub resource_name: RawColumn,
    pub resource_length: TableLength,
    pub func_name: RawColumn,
    pub func_is_js: RawColumn,
    pub func_relevant_for_js: RawColumn,
    pub func_resource: RawColumn,
    pub func_file_name: RawColumn,
    pub func_length: TableLength,
    pub frame_func: RawColumn,
    pub frame_category: RawColumn,
    pub frame_length: TableLength,
    pub stack_frame: RawColumn,
    pub stack_prefix: RawColumn,
    pub stack_length: TableLength,
}

impl Model for RawShared {
    ghost use Rattle.prof_raw.specs.Cells.{SharedCells};

    ghost Value = { SharedCells };

    ghost view = { λ s. record {
      strings = s.strings.value;
      string_fault = s.string_fault;
      has_resources = s.has_resources;
      resource_name = s.resource_name;
      resource_length = s.resource_length;
      func_name = s.func_name;
      func_is_js = s.func_is_js;
      func_relevant_for_js = s.func_relevant_for_js;
      func_resource = s.func_resource;
      func_file_name = s.func_file_name;
      func_length = s.func_length;
      frame_func = s.frame_func;
      frame_category = s.frame_category;
      frame_length = s.frame_length;
      stack_frame = s.stack_frame;
      stack_prefix = s.stack_prefix;
      stack_length = s.stack_length;
    } };
}

impl RawShared {
    /// The number of resources.
    pub fn resource_count(&self) -> u32
        requires { resource_count self.now < 2 ^ 32 }
        ensures { result ≡ resource_count self.now }
    {
        if self.has_resources {
            self.resource_name.values.len() as u32
        } else {
            0
        }
    }
}

/// What is gathered of a thread's own tables. `deltas` says that `sample_time` holds the cells of `timeDeltas`, a `unit`
/// of None is a weight type that isn't known, and every cell of `marker_data` is None. A marker's texts are its range of
/// `marker_texts`; a row without a range has none.
#[derive(Drop)]
pub struct RawOwn {
    pub name: Text,
    pub sample_stack: RawColumn,
    pub sample_time: RawColumn,
    pub deltas: bool,
    pub unit: Option<Unit>,
    pub sample_weight: RawColumn,
    pub sample_length: TableLength,
    pub has_markers: bool,
    pub marker_phase: RawColumn,
    pub marker_name: RawColumn,
    pub marker_start: RawColumn,
    pub marker_end: RawColumn,
    pub marker_data: RawColumn,
    pub marker_length: TableLength,
    pub marker_texts: Vec<Text>,
    pub marker_ranges: Vec<(u32, u32)>,
}

impl Model for RawOwn {
    ghost use Rattle.prof_raw.specs.Cells.{OwnCells};

    ghost Value = { OwnCells };

    ghost view = { λ s. record {
      name = s.name;
      sample_stack = s.sample_stack;
      sample_time = s.sample_time;
      deltas = s.deltas;
      unit = s.unit;
      sample_weight = s.sample_weight;
      sample_length = s.sample_length;
      has_markers = s.has_markers;
      marker_phase = s.marker_phase;
      marker_name = s.marker_name;
      marker_start = s.marker_start;
      marker_end = s.marker_end;
      marker_data = s.marker_data;
      marker_length = s.marker_length;
      marker_texts = s.marker_texts.items;
      marker_ranges = s.marker_ranges.items;
    } };
}
