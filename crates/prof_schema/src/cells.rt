//! The cells of rows: what is kept of them, and how a column reads them.
ghost use Rattle.std.specs.Prelude.{◌≡◌, ℕ, ℤ, List, false, None, Some};
ghost use Rattle.prof_gather.specs.Feeding.{IsBegun};
ghost use Rattle.prof_gather.specs.Taking.{Begins};
ghost use Rattle.prof_grammar.specs.Value.{Value};
ghost use Rattle.prof_layout.specs.Columns.{clamped, cell_value, read_cell};
ghost use Rattle.prof_layout.specs.Lists.{is_object};
ghost use Rattle.prof_layout.specs.Numbers.{whole_of, scaled_of};
ghost use Rattle.prof_schema.specs.Placed.{read_placed};
ghost use Rattle.prof_schema.specs.RowCells.{cell_kept, IsPlain};

use crate::reading::PlacedReading;
use prof_column::{Cell, cell};
use prof_gather::{Feed, Start};
use prof_io::Source;
use prof_json::Event;
use prof_layout::Reading;
use prof_raw::{GREATEST, Rule};

/// How many nanoseconds a millisecond has.
const NANOSECONDS: u64 = 1_000_000;

/// What is kept of a cell, so that each column can read it.
#[derive(Clone, Copy)]
pub enum RowCell {
    Null,
    True,
    /// False, a string or an array.
    Other,
    /// A whole number: the nearest of 64 bits.
    Whole(i64),
    /// Another number of milliseconds, in nanoseconds.
    Scaled(i64),
    /// Another number, which is out of the range of times.
    Far,
    /// An object: the range of its texts.
    Texts(u32, u32),
}

/// The number or null that a reading makes of the number that has begun.
fn number_as<R: Source, W: Start>(feed: &Feed<R, W>, reading: Reading) -> Option<i64>
    requires { IsBegun Event.Number feed.now }
    ensures { (v : Value) → Begins feed.now v → result ≡ cell_value (read_cell reading v) }
{
    match cell(feed, reading, Event::Number) {
        Ok(value) => value,
        Err(_) => None,
    }
}

/// What is kept of the number that has begun.
fn number_cell<R: Source, W: Start>(feed: &Feed<R, W>) -> RowCell
    requires { IsBegun Event.Number feed.now }
    ensures { (v : Value) → Begins feed.now v → (start : ℕ) → result ≡ cell_kept start v }
{
    if let Some(whole) = number_as(feed, Reading::Index) {
        return RowCell::Whole(whole);
    }
    match number_as(feed, Reading::Time) {
        Some(time) => RowCell::Scaled(time),
        None => RowCell::Far,
    }
}

/// What is kept of the value that this event has begun, which is no object.
pub fn plain_cell<R: Source, W: Start>(feed: &Feed<R, W>, first: Event) -> RowCell
    requires { IsBegun first feed.now }
    ensures { (v : Value) → Begins feed.now v → is_object v ≡ false → (start : ℕ)
        → result ≡ cell_kept start v }
{
    match first {
        Event::Number => number_cell(feed),
        Event::Null => RowCell::Null,
        Event::True => RowCell::True,
        _ => RowCell::Other,
    }
}

fn null_as(reading: PlacedReading) -> Cell
    ensures { result ≡ read_placed reading Value.null }
{
    match reading {
        PlacedReading::MaybeIndex | PlacedReading::MaybeTime | PlacedReading::Any => Ok(None),
        PlacedReading::True => Ok(Some(0)),
        PlacedReading::Index | PlacedReading::Phase | PlacedReading::Time => Err(Rule::WrongKind),
    }
}

/// The cell of a value that is neither null nor a number.
fn plain_as(reading: PlacedReading, truth: bool) -> Cell
    ensures { (v : Value) → IsPlain truth v → result ≡ read_placed reading v }
{
    match reading {
        PlacedReading::True => Ok(Some(if truth { 1 } else { 0 })),
        PlacedReading::Any => Ok(None),
        _ => Err(Rule::WrongKind),
    }
}

/// The time of a whole number of milliseconds.
fn whole_time(whole: i64) -> Cell
    ensures { (text : List ℕ) (n : ℤ) → whole_of text ≡ Some n → whole ≡ clamped n
        → result ≡ read_placed PlacedReading.Time (Value.number text) }
{
    if whole.unsigned_abs() > GREATEST / NANOSECONDS {
        return Err(Rule::NumberRange);
    }
    Ok(Some(whole * NANOSECONDS as i64))
}

/// The cell of a whole number.
fn whole_as(reading: PlacedReading, whole: i64) -> Cell
    ensures { (text : List ℕ) (n : ℤ) → whole_of text ≡ Some n → whole ≡ clamped n
        → result ≡ read_placed reading (Value.number text) }
{
    match reading {
        PlacedReading::Index | PlacedReading::MaybeIndex | PlacedReading::Phase => Ok(Some(whole)),
        PlacedReading::Time | PlacedReading::MaybeTime => whole_time(whole),
        PlacedReading::True => Ok(Some(0)),
        PlacedReading::Any => Ok(None),
    }
}

/// The cell of a number that isn't whole, by what it is as a time.
fn fraction_as(reading: PlacedReading, time: Cell) -> Cell
    ensures { (text : List ℕ) → whole_of text ≡ None
        → time ≡ read_placed PlacedReading.Time (Value.number text)
        → result ≡ read_placed reading (Value.number text) }
{
    match reading {
        PlacedReading::Index | PlacedReading::MaybeIndex => Err(Rule::IndexOut),
        PlacedReading::Phase => Err(Rule::Phase),
        PlacedReading::Time | PlacedReading::MaybeTime => time,
        PlacedReading::True => Ok(Some(0)),
        PlacedReading::Any => Ok(None),
    }
}

impl RowCell {
    /// The cell as a column reads it.
    pub fn read(self, reading: PlacedReading) -> Cell
        ensures { (start : ℕ) (v : Value) → self ≡ cell_kept start v
            → result ≡ read_placed reading v }
    {
        match self {
            RowCell::Null => null_as(reading),
            RowCell::True => plain_as(reading, true),
            RowCell::Other | RowCell::Texts(_, _) => plain_as(reading, false),
            RowCell::Whole(whole) => whole_as(reading, whole),
            RowCell::Scaled(time) => fraction_as(reading, Ok(Some(time))),
            RowCell::Far => fraction_as(reading, Err(Rule::NumberRange)),
        }
    }
}
