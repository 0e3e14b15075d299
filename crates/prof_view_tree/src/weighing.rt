//! What the samples of a thread weigh, added up by the stack rows that they stand on.
ghost use Rattle.std.specs.Prelude.{◌≡◌, ◌∷◌, ◌++◌, [], ◌≤◌, ◌<◌, ◌*◌, ◌^◌, ◌+◌, ◌+ℤ◌, ℕ, List, length, take, replicate, None, IfOk, IfSome, unsigned_abs, slice_set, slice_index_or};
ghost use Rattle.prof_tables.specs.declared.rows.StackRow.{StackRow};
ghost use Rattle.prof_tables.specs.Paths.{path, PrefixesBelow};
ghost use Rattle.prof_view_tree.specs.Weighing.{Weighs, own_paths, weight_at, with_more, mass, prefix_of, joined, AreThrough};
ghost use Rattle.prof_tree.specs.Nodes.{Weighed};

use crate::row_weight::RowWeight;
use prof_tables::{StackRow, Thread};
use prof_tree::plus;
use std::alloc::{AllocError, Global};

/// The weights of samples: by the stack rows that they stand on, all together, and of those without a stack. A row on
/// which no sample stands has no weight.
#[derive(Drop)]
pub struct SampleWeights {
    pub by_row: Vec<RowWeight>,
    pub selected: i128,
    pub dropped: i128,
}

/// Adds to the weight of a row.
fn add_weight(weights: &mut [RowWeight], row: usize, more: i128)
    requires row { row < length weights.old }
    requires fits { unsigned_abs (weight_at weights.old row +ℤ more) < 2 ^ 127 }
    ensures { weights.new ≡ with_more weights.old row more }
{
    weights[row] = weights[row].with(more);
}

fn no_weights(alloc: Global, rows: usize) -> Result<Vec<RowWeight>, AllocError>
    ensures { IfOk result (λ weights. weights.items ≡ replicate rows None) }
{
    vec![in alloc; RowWeight::none(); rows]
}

impl SampleWeights {
    /// No sample was there yet.
    pub fn none(alloc: Global, rows: usize) -> Result<Self, AllocError>
        ensures { IfOk result (λ w. (stacks : List StackRow) → length stacks ≡ rows → Weighs stacks [] w) }
    {
        Ok(SampleWeights {
            by_row: no_weights(alloc, rows)?,
            selected: 0,
            dropped: 0,
        })
    }

    /// Adds a sample that stands on a row, or has the empty path.
    pub fn add(&mut self, row: Option<u32>, weight: i64)
        requires held { (stacks : List StackRow) × (xs : List Weighed) × Weighs stacks xs self.old × (length xs < 8388608) }
        requires row { IfSome row (λ r. r < length self.old.by_row.items) }
        ensures { (stacks : List StackRow) (xs : List Weighed) → Weighs stacks xs self.old → length xs < 8388608
            → Weighs stacks (xs ++ record { steps = path stacks row; weight = weight } ∷ []) self.new }
    {
        self.selected = plus(self.selected, weight);
        match row {
            None => self.dropped = plus(self.dropped, weight),
            Some(row) => add_weight(&mut self.by_row, row as usize, i128::from(weight)),
        }
    }
}

/// The weights of a thread's samples.
pub fn weights_of(alloc: Global, thread: &Thread) -> Result<SampleWeights, AllocError>
    ensures weighs { IfOk result (λ w. Weighs thread.now.shared.stacks (own_paths thread.now) w) }
    ensures light { IfOk result (λ w. mass w.by_row.items ≤ 8388608 * 9223372036854775808) }
{
    let mut weights = SampleWeights::none(alloc, thread.stacks().count() as usize)?;
    for k in 0..thread.sample_count() {
        let sample = thread.sample(k);
        weights.add(sample.stack, sample.weight);
    }
    Ok(weights)
}

/// Adds the weight of a row to that of its prefix, where there are both.
fn lift(stacks: &[StackRow], weights: &mut [RowWeight], row: usize)
    requires row { row < length stacks.now }
    requires lengths { length weights.old ≡ length stacks.now }
    requires below { PrefixesBelow stacks.now }
    requires light { mass (take (row + 1) weights.old) ≤ 8388608 * 9223372036854775808 }
    ensures root { prefix_of stacks.now row ≡ None → weights.new ≡ weights.old }
    ensures prefix { IfSome (prefix_of stacks.now row) (λ prefix. weights.new
        ≡ slice_set weights.old prefix (joined (slice_index_or weights.old prefix None) (slice_index_or weights.old row None))) }
{
    let Some(weight) = weights[row].get() else {
        return;
    };
    if let Some(prefix) = stacks[row].prefix {
        add_weight(weights, prefix as usize, weight);
    }
}

/// Adds the weight of each row to those that it stands on, the last row first.
fn lift_all(stacks: &[StackRow], weights: &mut [RowWeight])
    requires lengths { length weights.old ≡ length stacks.now }
    requires below { PrefixesBelow stacks.now }
    requires light { mass weights.old ≤ 8388608 * 9223372036854775808 }
    ensures { AreThrough stacks.now weights.old weights.new }
{
    for row in (0..stacks.len()).rev() {
        lift(stacks, weights, row);
    }
}

/// The weight of the samples that go through each row, where `own` has that of those that stand on it.
pub fn through_rows(
    alloc: Global,
    stacks: &[StackRow],
    own: &[RowWeight],
) -> Result<Vec<RowWeight>, AllocError>
    requires lengths { length own.now ≡ length stacks.now }
    requires below { PrefixesBelow stacks.now }
    requires light { mass own.now ≤ 8388608 * 9223372036854775808 }
    ensures { IfOk result (λ through. AreThrough stacks.now own.now through.items) }
{
    let mut through = own.to_vec(alloc)?;
    lift_all(stacks, &mut through);
    Ok(through)
}
