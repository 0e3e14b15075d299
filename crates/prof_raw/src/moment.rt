//! The checks of the times of samples and markers.
ghost use Rattle.std.specs.Prelude.{◌≡◌, ◌<◌, ◌^◌, length, true, None, Some, MatchResult, ◌+ℤ◌};
ghost use Rattle.prof_raw.specs.Rules.{first_row, range_rule};
ghost use Rattle.prof_raw.specs.CellValues.{index_of, number_of};
ghost use Rattle.prof_raw.specs.Moments.{time_rule, time_fault, time_name, is_needed, null_rule, moment_rule, moment_fault};

use crate::cell_list::CellList;
use crate::cells::{cell, index_of};
use crate::column::{
    CellKind, Size, first_row, range_rule, row_fault, row_rule, size_fault, state_fault,
};
use crate::raw::{RawColumn, State};
use crate::rule::{BadCell, Column, ListFault, Rule};

/// The two times of a marker.
#[derive(Clone, Copy, PartialEq, Eq, Debug)]
pub enum Moment {
    /// Needed in the phases 0, 1 and 2.
    Start,
    /// Needed in the phases 1 and 3.
    End,
}

/// The sum with one more cell, in which null counts as 0. A sum out of the range breaks `NumberRange`.
#[tactic(auto, using(crate::proofs::SumLemmas::no_fit))]
pub fn next_sum(sum: i64, cell: Option<i64>) -> Result<i64, Rule>
    ensures { MatchResult result
        (λ next. (next ≡ sum +ℤ number_of cell) × (range_rule next ≡ None))
        (λ r. range_rule (sum +ℤ number_of cell) ≡ Some r) }
{
    let delta = match cell {
        Some(n) => n,
        None => 0,
    };
    match sum.checked_add(delta) {
        Some(next) => match range_rule(next) {
            Some(rule) => Err(rule),
            None => Ok(next),
        },
        None => Err(Rule::NumberRange),
    }
}

/// The first bad row of the deltas, by themselves and as a running sum.
fn first_delta(bad: Option<BadCell>, cells: &CellList) -> Option<BadCell>
    requires { length cells.now < 2 ^ 32 }
    ensures { result ≡ first_row (time_rule true bad cells.now) (length cells.now) }
{
    let mut sum: i64 = 0;
    for row in 0..cells.len() as u32 {
        if let Some(rule) = row_rule(CellKind::Number, bad, cells, row) {
            return Some(BadCell { row, rule });
        }
        match next_sum(sum, cells.get(row as usize)) {
            Ok(next) => sum = next,
            Err(rule) => return Some(BadCell { row, rule }),
        }
    }
    None
}

fn first_time(deltas: bool, bad: Option<BadCell>, cells: &CellList) -> Option<BadCell>
    requires { length cells.now < 2 ^ 32 }
    ensures { result ≡ first_row (time_rule deltas bad cells.now) (length cells.now) }
{
    if deltas {
        first_delta(bad, cells)
    } else {
        first_row(CellKind::Number, bad, cells)
    }
}

/// What the times of the samples break.
pub fn time_fault(deltas: bool, rows: u32, column: &RawColumn) -> Option<ListFault>
    ensures { result ≡ time_fault deltas rows column.now }
{
    match column.state {
        State::Array => match size_fault(Size::Same(rows), column.values.len()) {
            Some(fault) => Some(fault),
            None => row_fault(first_time(deltas, column.bad, &column.values)),
        },
        state => state_fault(state, true),
    }
}

/// The column that the times of the samples stand in; where both are absent it is `time`.
pub fn time_column(state: State, deltas: bool) -> Column
    ensures { result ≡ time_name state deltas }
{
    match state {
        State::Absent => Column::Time,
        State::NotArray | State::Array => {
            if deltas {
                Column::TimeDeltas
            } else {
                Column::Time
            }
        }
    }
}

impl Moment {
    /// Whether a marker of a phase needs this time.
    fn is_needed(self, phase: u64) -> bool
        ensures { result ≡ is_needed self phase }
    {
        match self {
            Moment::Start => phase != 3,
            Moment::End => phase == 1 || phase == 3,
        }
    }

    /// What a null breaks at its row's phase.
    fn null_rule(self, phase: u64, cell: Option<i64>) -> Option<Rule>
        ensures { result ≡ null_rule self phase cell }
    {
        match cell {
            Some(_) => None,
            None => {
                if self.is_needed(phase) {
                    Some(Rule::Phase)
                } else {
                    None
                }
            }
        }
    }

    fn row_rule(
        self,
        phases: &RawColumn,
        bad: Option<BadCell>,
        cells: &CellList,
        row: u32,
    ) -> Option<Rule>
        requires { row < length cells.now }
        ensures { result ≡ moment_rule self phases.now bad cells.now row }
    {
        match row_rule(CellKind::MaybeNumber, bad, cells, row) {
            Some(rule) => Some(rule),
            None => self.null_rule(
                index_of(cell(phases, row as usize)),
                cells.get(row as usize),
            ),
        }
    }

    /// The first bad row of the starts or the ends.
    fn first_row(
        self,
        phases: &RawColumn,
        bad: Option<BadCell>,
        cells: &CellList,
    ) -> Option<BadCell>
        requires { length cells.now < 2 ^ 32 }
        ensures { result
            ≡ first_row (moment_rule self phases.now bad cells.now) (length cells.now) }
    {
        for row in 0..cells.len() as u32 {
            if let Some(rule) = self.row_rule(phases, bad, cells, row) {
                return Some(BadCell { row, rule });
            }
        }
        None
    }

    /// What the starts or the ends of the markers break.
    pub fn fault(self, rows: u32, phases: &RawColumn, column: &RawColumn) -> Option<ListFault>
        ensures { result ≡ moment_fault self rows phases.now column.now }
    {
        match column.state {
            State::Array => match size_fault(Size::Same(rows), column.values.len()) {
                Some(fault) => Some(fault),
                None => row_fault(self.first_row(phases, column.bad, &column.values)),
            },
            state => state_fault(state, true),
        }
    }
}
