//! The cells of one row, gathered behind those of the rows before.
ghost use Rattle.std.specs.Prelude.{◌≡◌, ◌+◌, ◌<◌, ◌∷◌, ◌++◌, [], ℕ, List, OnOk, length};
ghost use Rattle.prof_grammar.specs.Value.{Value, Members};
ghost use Rattle.prof_layout.specs.Markers.{data_texts};
ghost use Rattle.prof_schema.specs.Fields.{field_texts};
ghost use Rattle.prof_schema.specs.Gathered.{AreCellsOf};
ghost use Rattle.prof_schema.specs.RowCells.{cell_kept};

use crate::cells::{RowCell, plain_cell};
use crate::fields::MarkerFields;
use prof_gather::{Feed, FromItems, GatherRefusal, Start, members, skip_behind};
use prof_io::{NoMemory, Source, Text};
use prof_json::Event;
use std::alloc::Global;

/// Cells row by row, the texts of those that are objects, and how many cells of the present row are still kept.
#[derive(Drop)]
pub struct RowCells {
    pub cells: Vec<RowCell>,
    pub texts: Vec<Text>,
    pub left: u32,
}

impl RowCells {
    /// No cell, before the first row.
    pub fn none(alloc: Global) -> Self
        ensures cells { result.cells.items ≡ [] }
        ensures texts { result.texts.items ≡ [] }
    {
        RowCells {
            cells: Vec::new(alloc),
            texts: Vec::new(alloc),
            left: 0,
        }
    }

    /// Adds what is kept of a cell without texts.
    fn add_plain(&mut self, cell: RowCell) -> Result<(), NoMemory>
        requires { 0 < self.old.left }
        ensures { OnOk result ((v : Value) → data_texts v ≡ []
            → ((start : ℕ) → cell ≡ cell_kept start v)
            → (first : RowCells) (vs : List Value) → AreCellsOf first vs self.old
            → AreCellsOf first (vs ++ v ∷ []) self.new) }
    {
        self.cells.push(cell)?;
        self.left -= 1;
        Ok(())
    }

    /// Adds what is kept of an object, whose fields these are.
    fn add_fields(&mut self, alloc: Global, fields: &MarkerFields) -> Result<(), NoMemory>
        requires { 0 < self.old.left }
        ensures { OnOk result ((ms : Members)
            → data_texts (Value.object ms) ≡ field_texts fields.now
            → (first : RowCells) (vs : List Value) → AreCellsOf first vs self.old
            → AreCellsOf first (vs ++ Value.object ms ∷ []) self.new) }
    {
        let (start, end) = fields.add_texts(alloc, &mut self.texts)?;
        self.cells.push(RowCell::Texts(start, end))?;
        self.left -= 1;
        Ok(())
    }
}

impl FromItems for RowCells {
    ghost use Rattle.prof_schema.specs.Gathered.{AreCellsOf};

    ghost is = { λ first vs c. AreCellsOf first vs c };

    fn take_item<R: Source, W: Start>(
        &mut self,
        alloc: Global,
        feed: &mut Feed<R, W>,
        first: Event,
    ) -> Result<(), GatherRefusal> {
        if self.left == 0 {
            return skip_behind(alloc, feed, first);
        }
        match first {
            Event::ObjectStart => {
                let fields = members(alloc, feed, MarkerFields::none(alloc))?;
                self.add_fields(alloc, &fields)?;
                Ok(())
            }
            _ => {
                let cell = plain_cell(feed, first);
                skip_behind(alloc, feed, first)?;
                self.add_plain(cell)?;
                Ok(())
            }
        }
    }
}
