//! The columns in their order, and the texts around them.
ghost use Rattle.std.specs.Prelude.{◌≡◌, ◌<◌, ◌≤◌, length};
ghost use Rattle.prof_demo.specs.Generated.{head_text};
ghost use Rattle.prof_demo.specs.Rest.{cell_text, closing, next, rows};

use crate::columns::{Cell, ROWS, SAMPLES, frame_cell, prefix_cell, stack_cell, time_cell};

/// A column of the profile.
#[derive(Clone, Copy, Debug, PartialEq, Eq)]
pub enum Part {
    Frames,
    Prefixes,
    Stacks,
    Times,
}

impl Part {
    pub fn rows(self) -> u32
        ensures { result ≡ rows self }
    {
        match self {
            Part::Frames | Part::Prefixes => ROWS,
            Part::Stacks | Part::Times => SAMPLES,
        }
    }

    /// The cell of a row, in the profile that the number makes.
    pub fn cell(self, number: u32, row: u32) -> Cell
        ensures { result.bytes ≡ cell_text number self row }
    {
        match self {
            Part::Frames => frame_cell(row),
            Part::Prefixes => prefix_cell(row),
            Part::Stacks => stack_cell(number, row),
            Part::Times => time_cell(row),
        }
    }

    /// The text between the column and the next, or the end.
    pub fn closing(self) -> &'static str
        ensures text { result.now ≡ closing self }
        ensures some { 0 < length result.now }
        ensures short { length result.now ≤ 32 }
    {
        match self {
            Part::Frames => "],\"prefix\":[",
            Part::Prefixes => "]},\"samples\":{\"stack\":[",
            Part::Stacks => "],\"time\":[",
            Part::Times => "]}}]}",
        }
    }

    pub fn next(self) -> Option<Part>
        ensures { result ≡ next self }
    {
        match self {
            Part::Frames => Some(Part::Prefixes),
            Part::Prefixes => Some(Part::Stacks),
            Part::Stacks => Some(Part::Times),
            Part::Times => None,
        }
    }
}
