//! Columns, gathered out of members' values.
ghost use Rattle.std.specs.Prelude.{◌≡◌, ◌≤◌, ◌∷◌, ◌++◌, [], List, Some, None, OnOk, IfOk, IfErr};
ghost use Rattle.prof_grammar.specs.Value.{Value};
ghost use Rattle.prof_layout.specs.Columns.{Cell as RawCell};
ghost use Rattle.prof_layout.specs.Tables.{said_by};
ghost use Rattle.prof_gather.specs.Taking.{Reads};
ghost use Rattle.prof_column.specs.Kept.{kept_column};
ghost use Rattle.prof_column.specs.Columns.{kept_by, state_for, IsGatheredOf};
ghost use Rattle.prof_gather.specs.Feeding.{IsWithin, IsBegun, Passes, Finishes, Refuses, in_member};

use crate::cells::{Cell, cell};
use prof_gather::{Feed, FromItems, GatherRefusal, Kind, Start, array, skip_behind};
use prof_io::{NoMemory, Source};
use prof_json::Event;
use prof_layout::Reading;
use prof_raw::{BadCell, CellList, RawColumn, State, TableLength};
use prof_time::read_exact;
use std::alloc::Global;

/// A column without cells.
pub fn empty_column(alloc: Global, state: State) -> RawColumn
    ensures { result ≡ record { state = state; cells = []; bad = None } }
{
    RawColumn {
        state,
        values: CellList::new(alloc),
        bad: None,
    }
}

/// Adds a cell, unless the column has more than the most rows already.
pub fn add_cell(column: &mut RawColumn, most: u32, cell: Cell) -> Result<(), NoMemory>
    ensures { OnOk result ((read : Value → RawCell) (vs : List Value) (v : Value) → cell ≡ read v → column.old ≡ kept_by read most vs → column.new ≡ kept_by read most (vs ++ v ∷ [])) }
{
    if column.values.len() > most as usize {
        return Ok(());
    }
    match cell {
        Ok(value) => column.values.push(value)?,
        Err(rule) => {
            if column.bad.is_none() {
                let row = column.values.len() as u32;
                column.bad = Some(BadCell { row, rule });
            }
            column.values.push(None)?;
        }
    }
    Ok(())
}

/// The state of a column by its member's value. An optional column that is null counts as absent.
pub fn state_of(kind: Kind, needed: bool) -> State
    ensures { result ≡ state_for needed kind }
{
    match kind {
        Kind::Array => State::Array,
        Kind::Null if !needed => State::Absent,
        Kind::Null | Kind::Other => State::NotArray,
    }
}

/// A column that is gathered.
#[derive(Drop)]
struct Gathered {
    column: RawColumn,
    reading: Reading,
    most: u32,
}

impl FromItems for Gathered {
    ghost use Rattle.prof_column.specs.Columns.{IsGatheredOf};

    ghost is = { λ first vs g. IsGatheredOf first vs g };

    fn take_item<R: Source, W: Start>(
        &mut self,
        alloc: Global,
        feed: &mut Feed<R, W>,
        first: Event,
    ) -> Result<(), GatherRefusal> {
        let cell = cell(feed, self.reading, first);
        skip_behind(alloc, feed, first)?;
        add_cell(&mut self.column, self.most, cell)?;
        Ok(())
    }
}

/// Reads a member's value as a column, of which at most one cell more than `most` is kept.
pub fn column<R: Source, W: Start>(
    alloc: Global,
    feed: &mut Feed<R, W>,
    reading: Reading,
    needed: bool,
    most: u32,
) -> Result<RawColumn, GatherRefusal>
    requires { IsWithin in_member feed.old }
    ensures ok { OnOk result (Passes feed.old feed.new) }
    ensures column { IfOk result (λ c. (v : Value) × Reads feed.old feed.new v × (c ≡ kept_column most reading needed (Some v))) }
    ensures err { IfErr result (λ r. Refuses r feed.new) }
{
    let mut gathered = Gathered {
        column: empty_column(alloc, State::Array),
        reading,
        most,
    };
    let kind = array(alloc, feed, &mut gathered)?;
    let Gathered { mut column, .. } = gathered;
    column.state = state_of(kind, needed);
    Ok(column)
}

/// Reads a member's value as the length of a table.
pub fn table_length<R: Source, W: Start>(
    alloc: Global,
    feed: &mut Feed<R, W>,
) -> Result<TableLength, GatherRefusal>
    requires { IsWithin in_member feed.old }
    ensures ok { OnOk result (Passes feed.old feed.new) }
    ensures length { IfOk result (λ l. (v : Value) × Reads feed.old feed.new v × (l ≡ said_by (Some v))) }
    ensures err { IfErr result (λ r. Refuses r feed.new) }
{
    let first = feed.next(alloc)?;
    match first {
        Event::Number => match read_exact(feed.number_text()) {
            Some(n) => Ok(TableLength::Whole(n)),
            None => Ok(TableLength::Other),
        },
        _ => {
            skip_behind(alloc, feed, first)?;
            Ok(TableLength::Unsaid)
        }
    }
}
