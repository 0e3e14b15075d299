//! What a column breaks.
ghost use Rattle.std.specs.Prelude.{◌≡◌, ◌<◌, ◌^◌, length, ℕ, Some, None};
ghost use Rattle.std.specs.Option.{option_map};
ghost use Rattle.prof_raw.specs.Rules.{index_rule, minus_or_index_rule, prefix_rule, range_rule, phase_rule, cell_rule, row_rule, first_row, size_rule, whole_fault, at_row, state_fault, column_fault, counted_fault};

use crate::cell_list::CellList;
use crate::limits::GREATEST;
use crate::raw::{RawColumn, State};
use crate::rule::{BadCell, ListFault, Rule};

/// What the cells of a column may be.
#[derive(Clone, Copy, PartialEq, Eq, Debug)]
pub enum CellKind {
    /// An index below this limit.
    Index(u32),
    /// The same, or null.
    MaybeIndex(u32),
    /// An index below this limit, or -1.
    MinusOrIndex(u32),
    /// A truth value or null.
    Truth,
    /// Anything, which stands as null.
    Any,
    /// Null, or a row before its own.
    Prefix,
    /// A time or a weight.
    Number,
    /// The same, or null.
    MaybeNumber,
    /// The phase of a marker.
    Phase,
}

/// How many rows a column may have.
#[derive(Clone, Copy, PartialEq, Eq, Debug)]
pub enum Size {
    /// So many at most, as the first column of a table.
    AtMost(u32),
    /// As many as the first column of its table.
    Same(u32),
}

fn index_rule(limit: u32, n: i64) -> Option<Rule>
    ensures { result ≡ index_rule limit n }
{
    if 0 <= n && n < i64::from(limit) {
        None
    } else {
        Some(Rule::IndexOut)
    }
}

fn minus_or_index_rule(limit: u32, n: i64) -> Option<Rule>
    ensures { result ≡ minus_or_index_rule limit n }
{
    if n == -1 { None } else { index_rule(limit, n) }
}

fn prefix_rule(row: u32, n: i64) -> Option<Rule>
    ensures { result ≡ prefix_rule row n }
{
    if n < 0 {
        Some(Rule::IndexOut)
    } else if n < i64::from(row) {
        None
    } else {
        Some(Rule::PrefixOrder)
    }
}

pub(crate) fn range_rule(n: i64) -> Option<Rule>
    ensures { result ≡ range_rule n }
{
    if n.unsigned_abs() <= GREATEST {
        None
    } else {
        Some(Rule::NumberRange)
    }
}

fn phase_rule(n: i64) -> Option<Rule>
    ensures { result ≡ phase_rule n }
{
    if 0 <= n && n < 4 {
        None
    } else {
        Some(Rule::Phase)
    }
}

/// What a number breaks at its row.
fn number_rule(kind: CellKind, row: u32, n: i64) -> Option<Rule>
    ensures { result ≡ cell_rule kind row (Some n) }
{
    match kind {
        CellKind::Index(limit) => index_rule(limit, n),
        CellKind::MaybeIndex(limit) => index_rule(limit, n),
        CellKind::MinusOrIndex(limit) => minus_or_index_rule(limit, n),
        CellKind::Truth => None,
        CellKind::Any => None,
        CellKind::Prefix => prefix_rule(row, n),
        CellKind::Number => range_rule(n),
        CellKind::MaybeNumber => range_rule(n),
        CellKind::Phase => phase_rule(n),
    }
}

/// What a null breaks.
fn null_cell_rule(kind: CellKind) -> Option<Rule>
    ensures { (row : ℕ) → result ≡ cell_rule kind row None }
{
    match kind {
        CellKind::Index(_) | CellKind::MinusOrIndex(_) | CellKind::Number | CellKind::Phase => {
            Some(Rule::WrongKind)
        }
        CellKind::Truth
        | CellKind::Any
        | CellKind::MaybeIndex(_)
        | CellKind::Prefix
        | CellKind::MaybeNumber => None,
    }
}

/// What a cell breaks at its row.
fn cell_rule(kind: CellKind, row: u32, cell: Option<i64>) -> Option<Rule>
    ensures { result ≡ cell_rule kind row cell }
{
    match cell {
        Some(n) => number_rule(kind, row, n),
        None => null_cell_rule(kind),
    }
}

/// What a row breaks: the cell was bad where it was read, or its value is.
pub(crate) fn row_rule(
    kind: CellKind,
    bad: Option<BadCell>,
    cells: &CellList,
    row: u32,
) -> Option<Rule>
    requires { row < length cells.now }
    ensures { result ≡ row_rule kind bad cells.now row }
{
    match bad {
        Some(bad) if bad.row == row => Some(bad.rule),
        _ => cell_rule(kind, row, cells.get(row as usize)),
    }
}

/// The first bad row.
pub(crate) fn first_row(kind: CellKind, bad: Option<BadCell>, cells: &CellList) -> Option<BadCell>
    requires { length cells.now < 2 ^ 32 }
    ensures { result ≡ first_row (row_rule kind bad cells.now) (length cells.now) }
{
    for row in 0..cells.len() as u32 {
        if let Some(rule) = row_rule(kind, bad, cells, row) {
            return Some(BadCell { row, rule });
        }
    }
    None
}

/// What a number of rows breaks.
fn size_rule(size: Size, rows: usize) -> Option<Rule>
    ensures { result ≡ size_rule size rows }
{
    match size {
        Size::AtMost(most) => {
            if rows <= most as usize {
                None
            } else {
                Some(Rule::RowLimit)
            }
        }
        Size::Same(wanted) => {
            if rows == wanted as usize {
                None
            } else {
                Some(Rule::LengthDiffers)
            }
        }
    }
}

/// A rule that a list breaks as a whole.
pub fn whole_fault(rule: Rule) -> ListFault
    ensures { result ≡ whole_fault rule }
{
    ListFault { rule, row: None }
}

/// What a number of rows breaks, as a whole.
pub fn size_fault(size: Size, rows: usize) -> Option<ListFault>
    ensures { result ≡ option_map whole_fault (size_rule size rows) }
{
    match size_rule(size, rows) {
        Some(rule) => Some(whole_fault(rule)),
        None => None,
    }
}

/// A bad row as a fault.
pub(crate) fn row_fault(first: Option<BadCell>) -> Option<ListFault>
    ensures { result ≡ option_map at_row first }
{
    match first {
        Some(bad) => Some(ListFault {
            rule: bad.rule,
            row: Some(bad.row),
        }),
        None => None,
    }
}

/// What a column breaks that is no array.
pub fn state_fault(state: State, needed: bool) -> Option<ListFault>
    ensures { result ≡ state_fault state needed None }
{
    match state {
        State::Absent => {
            if needed {
                Some(whole_fault(Rule::Missing))
            } else {
                None
            }
        }
        State::NotArray => Some(whole_fault(Rule::WrongKind)),
        State::Array => None,
    }
}

/// What a column breaks.
pub(crate) fn column_fault(
    needed: bool,
    size: Size,
    kind: CellKind,
    column: &RawColumn,
) -> Option<ListFault>
    ensures { result ≡ column_fault needed size kind column.now }
{
    match column.state {
        State::Array => match size_fault(size, column.values.len()) {
            Some(fault) => Some(fault),
            None => row_fault(first_row(kind, column.bad, &column.values)),
        },
        state => state_fault(state, needed),
    }
}

/// What a list breaks that has so many rows, of which it may have this number at most: its own fault as a whole, then
/// their number, and then its own fault at a row.
pub fn counted_fault(most: u32, rows: u32, own: Option<ListFault>) -> Option<ListFault>
    ensures { result ≡ counted_fault most rows own }
{
    match own {
        Some(ListFault { rule, row: None }) => Some(whole_fault(rule)),
        own => size_fault(Size::AtMost(most), rows as usize).or(own),
    }
}
