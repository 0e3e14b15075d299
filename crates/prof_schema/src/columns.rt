//! The columns of placed tables, out of their rows.
ghost use Rattle.std.specs.Prelude.{◌≡◌, ◌++◌, ◌∷◌, [], Option, Some, IfOk, OnOk, length};
ghost use Rattle.prof_grammar.specs.Value.{Value};
ghost use Rattle.prof_layout.specs.Columns.{capped};
ghost use Rattle.prof_layout.specs.Lists.{items_of};
ghost use Rattle.prof_layout.specs.Markers.{all_texts, ranges_from};
ghost use Rattle.prof_column.specs.Kept.{kept_items};
ghost use Rattle.prof_schema.specs.Gathered.{AreRows};
ghost use Rattle.prof_schema.specs.Placed.{placed_cells, read_placed, details_at};

use crate::fields::count_of;
use crate::reading::PlacedReading;
use crate::rows::Rows;
use prof_column::{add_cell, empty_column};
use prof_io::{NoMemory, Text};
use prof_raw::{RawColumn, State};
use std::alloc::Global;

/// The column at a place of each row, which is absent where there is no place. At most one cell more than the rows' limit
/// is kept.
pub fn placed_column(
    alloc: Global,
    rows: &Rows,
    place: Option<u8>,
    reading: PlacedReading,
) -> Result<RawColumn, NoMemory>
    ensures { IfOk result (λ c. (member : Option Value) → AreRows rows.now.most member rows.now
        → c ≡ capped rows.now.most (placed_cells (read_placed reading) place (items_of member))) }
{
    match place {
        None => Ok(empty_column(alloc, State::Absent)),
        Some(place) => column_at(alloc, rows, place, reading),
    }
}

fn column_at(
    alloc: Global,
    rows: &Rows,
    place: u8,
    reading: PlacedReading,
) -> Result<RawColumn, NoMemory>
    ensures { IfOk result (λ c. (member : Option Value) → AreRows rows.now.most member rows.now
        → c ≡ capped rows.now.most
        (placed_cells (read_placed reading) (Some place) (items_of member))) }
{
    let mut column = empty_column(alloc, State::Array);
    let mut start = 0;
    for end in &rows.ends {
        let cell = rows.cell(start, *end, place);
        add_cell(&mut column, rows.most, cell.read(reading))?;
        start = *end;
    }
    Ok(column)
}

/// The texts of the markers' details, and the range of each row in them.
#[derive(Drop)]
pub struct PlacedTexts {
    pub texts: Vec<Text>,
    pub ranges: Vec<(u32, u32)>,
}

/// The texts of the objects at a place of each row that was kept.
pub fn placed_texts(alloc: Global, rows: &Rows, place: Option<u8>) -> Result<PlacedTexts, NoMemory>
    ensures texts { IfOk result (λ t. (member : Option Value)
        → AreRows rows.now.most member rows.now
        → t.texts.items ≡ all_texts (details_at place (kept_items rows.now.most member))) }
    ensures ranges { IfOk result (λ t. (member : Option Value)
        → AreRows rows.now.most member rows.now
        → t.ranges.items ≡ ranges_from 0 (details_at place (kept_items rows.now.most member))) }
{
    let mut placed = PlacedTexts {
        texts: Vec::new(alloc),
        ranges: Vec::new(alloc),
    };
    let Some(place) = place else {
        return Ok(placed);
    };
    let mut start = 0;
    for end in &rows.ends {
        let cell = rows.cell(start, *end, place);
        placed.add_row(alloc, rows.texts_of(cell))?;
        start = *end;
    }
    Ok(placed)
}

impl PlacedTexts {
    /// Adds a row with these texts.
    fn add_row(&mut self, alloc: Global, texts: &[Text]) -> Result<(), NoMemory>
        ensures texts { OnOk result (self.new.texts.items ≡ self.old.texts.items ++ texts.now) }
        ensures ranges { OnOk result (self.new.ranges.items ≡ self.old.ranges.items
            ++ (length self.old.texts.items, length self.new.texts.items) ∷ []) }
    {
        let start = count_of(self.texts.len())?;
        add_copies(alloc, &mut self.texts, texts)?;
        let end = count_of(self.texts.len())?;
        self.ranges.push((start, end))?;
        Ok(())
    }
}

/// Adds copies of texts behind the others.
fn add_copies(alloc: Global, texts: &mut Vec<Text>, more: &[Text]) -> Result<(), NoMemory>
    ensures { OnOk result (texts.new.items ≡ texts.old.items ++ more.now) }
{
    for text in more {
        texts.push(text.copy(alloc)?)?;
    }
    Ok(())
}
