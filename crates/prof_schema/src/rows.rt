//! The rows of a table, gathered as they stand.
ghost use Rattle.std.specs.Prelude.{◌≡◌, ◌+◌, ◌<◌, ◌≤◌, ◌++◌, ◌∷◌, [], ℕ, List, None, Some, false, IfOk, OnOk, IfErr, length, nat_le, if◌then◌else◌};
ghost use Rattle.std.specs.Option.{option_or};
ghost use Rattle.prof_gather.specs.Feeding.{IsWithin, Passes, Refuses, in_member};
ghost use Rattle.prof_gather.specs.Taking.{Reads, IsTaken};
ghost use Rattle.prof_grammar.specs.Value.{Value};
ghost use Rattle.prof_layout.specs.Markers.{data_texts};
ghost use Rattle.prof_schema.specs.Gathered.{AreCellsOf, AreKept, AreRows, AreRowsOf, IsCellOf};
ghost use Rattle.prof_schema.specs.Placed.{cell_of, is_array};
ghost use Rattle.prof_schema.specs.RowCells.{row_cells, all_cells};

use crate::cells::RowCell;
use crate::fields::count_of;
use crate::row::RowCells;
use prof_column::state_of;
use prof_gather::{Feed, FromItems, GatherRefusal, Kind, Start, array, array_behind};
use prof_io::{NoMemory, Source, Text};
use prof_json::Event;
use prof_raw::State;
use std::alloc::Global;

/// How many cells of a row are kept: places are below it.
const MOST_PLACES: u32 = 256;

/// The rows of a table: the cells of the first ones, at most one more than `most`, with the place where each row ends.
/// All rows are counted, and `bad` is the first of them that is no array.
#[derive(Drop)]
pub struct Rows {
    pub state: State,
    pub most: u32,
    pub kept: RowCells,
    pub ends: Vec<u32>,
    pub count: u32,
    pub bad: Option<u32>,
}

impl Rows {
    /// No rows, of which at most one more than `most` will be kept.
    pub fn absent(alloc: Global, most: u32) -> Self
        ensures rows { AreRows most None result }
        ensures count { result.count ≡ 0 }
    {
        Rows {
            state: State::Absent,
            most,
            kept: RowCells::none(alloc),
            ends: Vec::new(alloc),
            count: 0,
            bad: None,
        }
    }

    /// Before a row: none of its cells is kept where more than the most rows are.
    fn begin_row(&mut self)
        ensures begun { self.new ≡ record self.old {
          kept = record self.old.kept { left = self.new.kept.left };
        } }
        ensures wanted { length self.old.ends.items ≤ self.old.most → self.new.kept.left ≡ 256 }
        ensures full { self.old.most < length self.old.ends.items → self.new.kept.left ≡ 0 }
    {
        self.kept.left = if self.ends.len() > self.most as usize {
            0
        } else {
            MOST_PLACES
        };
    }

    /// Behind a row, whose cells were kept: counts it, and says whether it is one.
    fn end_row(&mut self, is_row: bool) -> Result<(), NoMemory>
        ensures same { (self.new.state ≡ self.old.state) × (self.new.most ≡ self.old.most) }
        ensures kept { self.new.kept ≡ self.old.kept }
        ensures count { OnOk result (self.new.count ≡ self.old.count + 1) }
        ensures bad { OnOk result (self.new.bad
            ≡ option_or self.old.bad (if is_row then None else Some self.old.count)) }
        ensures ends { OnOk result (self.new.ends.items
            ≡ (if nat_le (length self.old.ends.items) self.old.most
            then self.old.ends.items ++ length self.old.kept.cells.items ∷ []
            else self.old.ends.items)) }
    {
        if !is_row {
            self.bad = self.bad.or(Some(self.count));
        }
        let count = count_of(self.count as usize + 1)?;
        self.count = count;
        if self.ends.len() <= self.most as usize {
            let end = count_of(self.kept.cells.len())?;
            self.ends.push(end)?;
        }
        Ok(())
    }

    /// Counts an item that is no array.
    pub fn add_other(&mut self) -> Result<(), NoMemory>
        ensures { OnOk result ((v : Value) → is_array v ≡ false → (first : Rows) (vs : List Value)
            → AreRowsOf first vs self.old → AreRowsOf first (vs ++ v ∷ []) self.new) }
    {
        self.end_row(false)?;
        Ok(())
    }

    /// What is kept of a row's cell at a place, by where the row's cells begin and end. What is missing is null.
    pub(crate) fn cell(&self, start: u32, end: u32, place: u8) -> RowCell
        ensures { (front back : List Value) (v : Value) → AreKept (front ++ v ∷ back) self.now
            → start ≡ length (all_cells front)
            → end ≡ length (all_cells front) + length (row_cells v)
            → IsCellOf self.now.kept.texts.items (cell_of place v) result }
    {
        let at = start as usize + place as usize;
        if at >= (end as usize).min(self.kept.cells.len()) {
            return RowCell::Null;
        }
        self.kept.cells[at]
    }

    /// The texts of a cell.
    pub(crate) fn texts_of(&self, cell: RowCell) -> &[Text]
        ensures { (v : Value) → IsCellOf self.now.kept.texts.items v cell
            → result.now ≡ data_texts v }
    {
        match cell {
            RowCell::Texts(start, end) => match self.kept.texts.get(start as usize..end as usize) {
                Some(texts) => texts,
                None => &[],
            },
            _ => &[],
        }
    }
}

/// Whether an item whose cells were taken is a row.
fn is_row(kind: Kind) -> bool
    ensures { (v : Value) (first last : RowCells)
        → IsTaken (λ a vs b. AreCellsOf a vs b) v first kind last → result ≡ is_array v }
{
    match kind {
        Kind::Array => true,
        _ => false,
    }
}

impl FromItems for Rows {
    ghost use Rattle.prof_schema.specs.Gathered.{AreRowsOf};

    ghost is = { λ first vs r. AreRowsOf first vs r };

    fn take_item<R: Source, W: Start>(
        &mut self,
        alloc: Global,
        feed: &mut Feed<R, W>,
        first: Event,
    ) -> Result<(), GatherRefusal> {
        self.begin_row();
        let kind = array_behind(alloc, feed, first, &mut self.kept)?;
        self.end_row(is_row(kind))?;
        Ok(())
    }
}

/// Reads a member's value as the rows of a table, of which at most one more than `most` is kept.
pub fn read_rows<R: Source, W: Start>(
    alloc: Global,
    feed: &mut Feed<R, W>,
    most: u32,
) -> Result<Rows, GatherRefusal>
    requires { IsWithin in_member feed.old }
    ensures ok { OnOk result (Passes feed.old feed.new) }
    ensures rows { IfOk result (λ r. (v : Value) × Reads feed.old feed.new v
        × AreRows most (Some v) r) }
    ensures err { IfErr result (λ r. Refuses r feed.new) }
{
    let mut rows = Rows::absent(alloc, most);
    let kind = array(alloc, feed, &mut rows)?;
    rows.state = state_of(kind, true);
    Ok(rows)
}
