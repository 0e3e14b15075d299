//! The columns of the profile that is made.
ghost use Rattle.std.specs.Prelude.{◌≡◌};
ghost use Rattle.std.specs.Fmt.{decimal};
ghost use Rattle.prof_demo.specs.Generated.{frame_text, frames, prefix_text, prefixes, stack_text, stacks, time_text, times};

use arrayvec::ArrayString;
use itoa::Buffer;
use prof_io::{OutFault, Sink};
use prof_page::{Column, Page, add_text};
use prof_time::write_scaled;

/// How many stack rows and samples the thread has.
pub const ROWS: u32 = 60_000;

pub const SAMPLES: u32 = 200_000;

/// How many functions it has, each with a frame.
const FUNCS: u32 = 8;

/// The nanoseconds between two samples.
const STEP: u64 = 1_000;

/// The text of a cell.
pub type Cell = ArrayString<32>;

fn number_cell(number: u64) -> Cell
    ensures { result.bytes ≡ decimal number }
{
    let mut cell = Cell::new();
    let mut buffer = Buffer::new();
    cell.push_str(buffer.format(number));
    cell
}

pub fn frame_cell(row: u32) -> Cell
    ensures { result.bytes ≡ frame_text row }
{
    number_cell((row % FUNCS) as u64)
}

pub fn prefix_cell(row: u32) -> Cell
    ensures { result.bytes ≡ prefix_text row }
{
    if row > 0 {
        return number_cell((row - 1) as u64);
    }
    let mut cell = Cell::new();
    cell.push_str("null");
    cell
}

pub fn stack_cell(number: u32, row: u32) -> Cell
    ensures { result.bytes ≡ stack_text number row }
{
    number_cell((row as u64 + number as u64) % ROWS as u64)
}

pub fn time_cell(row: u32) -> Cell
    ensures { result.bytes ≡ time_text row }
{
    let time = STEP * row as u64;
    let mut cell = Cell::new();
    write_scaled(time as i64, 6, &mut cell);
    cell
}

/// The frame of each stack row: one function after another, over and over.
#[derive(Drop)]
pub struct Frames;

impl Column for Frames {
    ghost cells = { λ _. frames };

    fn count(&self) -> u32 {
        ROWS
    }

    fn add_cell<S: Sink>(&self, out: &mut S, page: &mut Page, row: u32) -> Result<(), OutFault> {
        let cell = frame_cell(row);
        add_text(out, page, cell.as_str())
    }
}

/// The prefix of each stack row: the row before it.
#[derive(Drop)]
pub struct Prefixes;

impl Column for Prefixes {
    ghost cells = { λ _. prefixes };

    fn count(&self) -> u32 {
        ROWS
    }

    fn add_cell<S: Sink>(&self, out: &mut S, page: &mut Page, row: u32) -> Result<(), OutFault> {
        let cell = prefix_cell(row);
        add_text(out, page, cell.as_str())
    }
}

/// The stack of each sample: one row after another, from that of the number on, over and over.
#[derive(Drop)]
pub struct SampleStacks {
    pub number: u32,
}

impl Column for SampleStacks {
    ghost cells = { λ s. stacks s.number };

    fn count(&self) -> u32 {
        SAMPLES
    }

    fn add_cell<S: Sink>(&self, out: &mut S, page: &mut Page, row: u32) -> Result<(), OutFault> {
        let cell = stack_cell(self.number, row);
        add_text(out, page, cell.as_str())
    }
}

/// The time of each sample, in milliseconds.
#[derive(Drop)]
pub struct Times;

impl Column for Times {
    ghost cells = { λ _. times };

    fn count(&self) -> u32 {
        SAMPLES
    }

    fn add_cell<S: Sink>(&self, out: &mut S, page: &mut Page, row: u32) -> Result<(), OutFault> {
        let cell = time_cell(row);
        add_text(out, page, cell.as_str())
    }
}
