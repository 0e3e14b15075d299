//! The columns of a thread that has all its tables, as one value.
ghost use Rattle.std.specs.Prelude.{◌≡◌};

use crate::raw::{RawColumn, RawOwn, RawShared, TableLength, Unit};
use crate::rule::ListFault;
use crate::strings::Strings;
use prof_io::Text;
use std::marker::Model;
use std::rc::Rc;

/// What is gathered of a thread that has all its tables: the fields of `RawShared` and of `RawOwn`, which say more.
#[derive(Drop)]
pub struct RawThread {
    pub name: Text,
    pub strings: Rc<Strings>,
    pub string_fault: Option<ListFault>,
    pub has_resources: bool,
    pub resource_name: RawColumn,
    pub resource_length: TableLength,
    pub func_name: RawColumn,
    pub func_is_js: RawColumn,
    pub func_relevant_for_js: RawColumn,
    pub func_resource: RawColumn,
    pub func_file_name: RawColumn,
    pub func_length: TableLength,
    pub frame_func: RawColumn,
    pub frame_category: RawColumn,
    pub frame_length: TableLength,
    pub stack_frame: RawColumn,
    pub stack_prefix: RawColumn,
    pub stack_length: TableLength,
    pub sample_stack: RawColumn,
    pub sample_time: RawColumn,
    pub deltas: bool,
    pub unit: Option<Unit>,
    pub sample_weight: RawColumn,
    pub sample_length: TableLength,
    pub has_markers: bool,
    pub marker_phase: RawColumn,
    pub marker_name: RawColumn,
    pub marker_start: RawColumn,
    pub marker_end: RawColumn,
    pub marker_data: RawColumn,
    pub marker_length: TableLength,
    pub marker_texts: Vec<Text>,
    pub marker_ranges: Vec<(u32, u32)>,
}

impl Model for RawThread {
    ghost use Rattle.prof_raw.specs.Cells.{ThreadCells};

    ghost Value = { ThreadCells };

    ghost view = { λ s. record {
      shared = record {
        strings = s.strings.value;
        string_fault = s.string_fault;
        has_resources = s.has_resources;
        resource_name = s.resource_name;
        resource_length = s.resource_length;
        func_name = s.func_name;
        func_is_js = s.func_is_js;
        func_relevant_for_js = s.func_relevant_for_js;
        func_resource = s.func_resource;
        func_file_name = s.func_file_name;
        func_length = s.func_length;
        frame_func = s.frame_func;
        frame_category = s.frame_category;
        frame_length = s.frame_length;
        stack_frame = s.stack_frame;
        stack_prefix = s.stack_prefix;
        stack_length = s.stack_length;
      };
      own = record {
        name = s.name;
        sample_stack = s.sample_stack;
        sample_time = s.sample_time;
        deltas = s.deltas;
        unit = s.unit;
        sample_weight = s.sample_weight;
        sample_length = s.sample_length;
        has_markers = s.has_markers;
        marker_phase = s.marker_phase;
        marker_name = s.marker_name;
        marker_start = s.marker_start;
        marker_end = s.marker_end;
        marker_data = s.marker_data;
        marker_length = s.marker_length;
        marker_texts = s.marker_texts.items;
        marker_ranges = s.marker_ranges.items;
      };
    } };
}

impl RawThread {
    /// The tables that threads may share, and the thread's own part.
    pub fn parts(self) -> (RawShared, RawOwn)
        ensures shared { result.0 ≡ self.shared }
        ensures own { result.1 ≡ self.own }
    {
        let shared = RawShared {
            strings: self.strings,
            string_fault: self.string_fault,
            has_resources: self.has_resources,
            resource_name: self.resource_name,
            resource_length: self.resource_length,
            func_name: self.func_name,
            func_is_js: self.func_is_js,
            func_relevant_for_js: self.func_relevant_for_js,
            func_resource: self.func_resource,
            func_file_name: self.func_file_name,
            func_length: self.func_length,
            frame_func: self.frame_func,
            frame_category: self.frame_category,
            frame_length: self.frame_length,
            stack_frame: self.stack_frame,
            stack_prefix: self.stack_prefix,
            stack_length: self.stack_length,
        };
        let own = RawOwn {
            name: self.name,
            sample_stack: self.sample_stack,
            sample_time: self.sample_time,
            deltas: self.deltas,
            unit: self.unit,
            sample_weight: self.sample_weight,
            sample_length: self.sample_length,
            has_markers: self.has_markers,
            marker_phase: self.marker_phase,
            marker_name: self.marker_name,
            marker_start: self.marker_start,
            marker_end: self.marker_end,
            marker_data: self.marker_data,
            marker_length: self.marker_length,
            marker_texts: self.marker_texts,
            marker_ranges: self.marker_ranges,
        };
        (shared, own)
    }
}
