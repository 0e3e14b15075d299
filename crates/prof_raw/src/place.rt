//! Checks of columns at their places.
ghost use Rattle.std.specs.Prelude.{◌≡◌, length, Some, IfOk};
ghost use Rattle.prof_raw.specs.Checks.{Passes, named, first_column, needed_column, optional_column, length_fault, table_length};

use crate::column::{CellKind, Size, column_fault, whole_fault};
use crate::raw::{RawColumn, TableLength};
use crate::rule::{Broken, Column, ListFault, Rule, Table};

/// Where a column stands: in a thread, or in none where threads share its table.
#[derive(Clone, Copy, PartialEq, Eq, Debug)]
pub struct Place {
    pub thread: Option<u32>,
    pub table: Table,
    pub column: Column,
}

impl Place {
    /// This column of this table.
    pub fn at(thread: Option<u32>, table: Table, column: Column) -> Self
        ensures { result ≡ record { thread = thread; table = table; column = column } }
    {
        Place {
            thread,
            table,
            column,
        }
    }

    fn broken(self, fault: ListFault) -> Broken
        ensures { Some result ≡ named self.thread self.table self.column (Some fault) }
    {
        Broken {
            rule: fault.rule,
            thread: self.thread,
            table: self.table,
            column: self.column,
            row: fault.row,
        }
    }
}

/// Passes where there is no fault, and names it at its place.
pub fn pass(place: Place, fault: Option<ListFault>) -> Result<(), Broken>
    ensures { Passes result (named place.thread place.table place.column fault) }
{
    match fault {
        Some(fault) => Err(place.broken(fault)),
        None => Ok(()),
    }
}

/// Checks the first column of a table, and gives its number of rows.
pub fn first_column(
    place: Place,
    most: u32,
    kind: CellKind,
    column: &RawColumn,
) -> Result<u32, Broken>
    ensures passes { Passes result
        (first_column place.thread place.table place.column most kind column.now) }
    ensures rows { IfOk result (λ rows. rows ≡ length column.now.cells) }
{
    pass(place, column_fault(true, Size::AtMost(most), kind, column))?;
    Ok(column.values.len() as u32)
}

/// Checks another column of a table of so many rows, which is needed.
pub fn needed_column(
    place: Place,
    rows: u32,
    kind: CellKind,
    column: &RawColumn,
) -> Result<(), Broken>
    ensures { Passes result
        (needed_column place.thread place.table place.column rows kind column.now) }
{
    pass(place, column_fault(true, Size::Same(rows), kind, column))
}

/// Checks another column of a table of so many rows, which may be absent.
pub fn optional_column(
    place: Place,
    rows: u32,
    kind: CellKind,
    column: &RawColumn,
) -> Result<(), Broken>
    ensures { Passes result
        (optional_column place.thread place.table place.column rows kind column.now) }
{
    pass(place, column_fault(false, Size::Same(rows), kind, column))
}

/// What a member `length` breaks.
fn length_fault(rows: u32, said: TableLength) -> Option<ListFault>
    ensures { result ≡ length_fault rows said }
{
    match said {
        TableLength::Unsaid => None,
        TableLength::Whole(n) => {
            if n == i128::from(rows) {
                None
            } else {
                Some(whole_fault(Rule::LengthDiffers))
            }
        }
        TableLength::Other => Some(whole_fault(Rule::LengthDiffers)),
    }
}

/// Checks the member `length` of a table of so many rows.
pub fn table_length(
    thread: Option<u32>,
    table: Table,
    rows: u32,
    said: TableLength,
) -> Result<(), Broken>
    ensures { Passes result (table_length thread table rows said) }
{
    pass(
        Place::at(thread, table, Column::Length),
        length_fault(rows, said),
    )
}
