//! What the cells of checked columns stand for.
ghost use Rattle.std.specs.Prelude.{◌≡◌, ◌<◌, Some, None, IfSome};
ghost use Rattle.prof_raw.specs.Cells.{cell, cell_at};
ghost use Rattle.prof_raw.specs.Rules.{cell_rule, minus_or_index_rule};
ghost use Rattle.prof_raw.specs.CellValues.{index_of, index_or_none, truth_of, weight_in};

use crate::cell_list::CellList;
use crate::column::CellKind;
use crate::raw::{RawColumn, State};

/// The cell of a row, and null past the end.
pub fn cell_at(cells: &CellList, row: usize) -> Option<i64>
    ensures { result ≡ cell_at cells.now row }
{
    cells.get(row)
}

/// The cell of a row, and null where the column is absent.
pub fn cell(column: &RawColumn, row: usize) -> Option<i64>
    ensures { result ≡ cell column.now row }
{
    match column.state {
        State::Array => cell_at(&column.values, row),
        State::Absent | State::NotArray => None,
    }
}

/// The index that a cell is, and 0 where it is none.
pub fn index_of(cell: Option<i64>) -> u64
    ensures { result ≡ index_of cell }
{
    match cell {
        Some(n) => { if 0 <= n { n as u64 } else { 0 } }
        None => 0,
    }
}

/// The index that a cell is.
pub fn index(limit: u32, cell: Option<i64>) -> u32
    requires { cell_rule (CellKind.Index limit) 0 cell ≡ None }
    ensures value { result ≡ index_of cell }
    ensures below { result < limit }
{
    match cell {
        Some(n) => {
            if 0 <= n && n < i64::from(limit) {
                n as u32
            } else {
                unreachable!()
            }
        }
        None => unreachable!(),
    }
}

/// The index that a cell is, and none where it is null.
pub fn maybe_index(limit: u32, cell: Option<i64>) -> Option<u32>
    requires { cell_rule (CellKind.MaybeIndex limit) 0 cell ≡ None }
    ensures value { result ≡ index_or_none cell }
    ensures below { IfSome result (λ n. n < limit) }
{
    match cell {
        Some(n) => {
            if 0 <= n && n < i64::from(limit) {
                Some(n as u32)
            } else {
                unreachable!()
            }
        }
        None => None,
    }
}

/// The index that a cell is, and none where it is -1 or null.
pub fn minus_or_index(limit: u32, cell: Option<i64>) -> Option<u32>
    requires { IfSome cell (λ n. minus_or_index_rule limit n ≡ None) }
    ensures value { result ≡ index_or_none cell }
    ensures below { IfSome result (λ n. n < limit) }
{
    match cell {
        Some(n) => {
            if n < 0 {
                None
            } else if n < i64::from(limit) {
                Some(n as u32)
            } else {
                unreachable!()
            }
        }
        None => None,
    }
}

/// Whether a cell is true; null is false.
pub fn truth(cell: Option<i64>) -> bool
    ensures { result ≡ truth_of cell }
{
    match cell {
        Some(n) => n != 0,
        None => false,
    }
}

/// The prefix that a cell is, and none where it is null.
pub fn prefix(row: u32, cell: Option<i64>) -> Option<u32>
    requires { cell_rule CellKind.Prefix row cell ≡ None }
    ensures value { result ≡ index_or_none cell }
    ensures below { IfSome result (λ n. n < row) }
{
    match cell {
        Some(n) => {
            if 0 <= n && n < i64::from(row) {
                Some(n as u32)
            } else {
                unreachable!()
            }
        }
        None => None,
    }
}

/// The phase that a cell is.
pub fn phase(cell: Option<i64>) -> u8
    requires { cell_rule CellKind.Phase 0 cell ≡ None }
    ensures value { result ≡ index_of cell }
    ensures below { result < 4 }
{
    match cell {
        Some(n) => {
            if 0 <= n && n < 4 {
                n as u8
            } else {
                unreachable!()
            }
        }
        None => unreachable!(),
    }
}

/// The weight of a row, and 1 without a column.
pub fn weight(column: &RawColumn, row: usize) -> i64
    ensures { result ≡ weight_in column.now.state column.now.cells row }
{
    match column.state {
        State::Array => match cell_at(&column.values, row) {
            Some(n) => n,
            None => 0,
        },
        State::Absent | State::NotArray => 1,
    }
}
