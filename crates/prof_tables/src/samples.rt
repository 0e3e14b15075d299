//! Samples as a thread holds them: by columns, each in the width that it needs.
ghost use Rattle.std.specs.Prelude.{◌≡◌, ◌<◌, ◌+◌, ◌++◌, ◌∷◌, [], length, slice_get, Some, IfSome, IfOk, OnOk, All};
ghost use Rattle.prof_raw.specs.CellValues.{number_of};
ghost use Rattle.prof_tables.specs.Samples.{rows_by};

use crate::index::MaybeIndex;
use crate::rows::SampleRow;
use prof_raw::CellList;
use std::alloc::{AllocError, Global};
use std::marker::Model;

/// Samples by their columns.
#[derive(Drop)]
pub(crate) struct SampleList {
    pub(crate) stacks: Vec<MaybeIndex>,
    pub(crate) times: CellList,
    pub(crate) weights: CellList,
}

impl Model for SampleList {
    ghost use Rattle.std.specs.Prelude.{◌≡◌, List, length};
    ghost use Rattle.prof_tables.specs.declared.rows.SampleRow.{SampleRow};
    ghost use Rattle.prof_tables.specs.Samples.{rows_by};

    ghost Value = { List SampleRow };

    ghost view = { λ s. rows_by s.stacks.items s.times s.weights };

    ghost invariant = { λ s. (length s.times ≡ length s.stacks.items) × (length s.weights ≡ length s.stacks.items) };
}

/// Adds a sample to its columns.
pub(crate) fn add_row(
    stacks: &mut Vec<MaybeIndex>,
    times: &mut CellList,
    weights: &mut CellList,
    row: SampleRow,
) -> Result<(), AllocError>
    requires stack { IfSome row.stack (λ i. i < 4294967295) }
    ensures stacks { OnOk result (stacks.new.items ≡ stacks.old.items ++ row.stack ∷ []) }
    ensures times { OnOk result (times.new ≡ times.old ++ Some row.time ∷ []) }
    ensures weights { OnOk result (weights.new ≡ weights.old ++ Some row.weight ∷ []) }
{
    stacks.push(MaybeIndex::of(row.stack))?;
    times.push(Some(row.time))?;
    weights.push(Some(row.weight))?;
    Ok(())
}

/// The number of a cell, and 0 of null.
fn number_of(cell: Option<i64>) -> i64
    ensures { result ≡ number_of cell }
{
    match cell {
        Some(number) => number,
        None => 0,
    }
}

impl SampleList {
    /// The samples of these rows.
    pub(crate) fn of(alloc: Global, rows: &[SampleRow]) -> Result<Self, AllocError>
        requires { All (λ (row : SampleRow). IfSome row.stack (λ i. i < 4294967295)) rows.now }
        ensures { IfOk result (λ list. list ≡ rows.now) }
    {
        let mut stacks = Vec::with_capacity(alloc, rows.len())?;
        let mut times = CellList::new(alloc);
        let mut weights = CellList::new(alloc);
        for row in rows {
            add_row(&mut stacks, &mut times, &mut weights, *row)?;
        }
        Ok(SampleList {
            stacks,
            times,
            weights,
        })
    }

    /// How many samples there are.
    pub(crate) fn count(&self) -> usize
        ensures { result ≡ length self.now }
    {
        self.stacks.len()
    }

    /// A sample.
    pub(crate) fn row(&self, k: usize) -> SampleRow
        requires { k < length self.now }
        ensures { slice_get self.now k ≡ Some result }
    {
        SampleRow {
            stack: self.stacks[k].get(),
            time: number_of(self.times.get(k)),
            weight: number_of(self.weights.get(k)),
        }
    }
}
