//! From paths to the rows of their tree.
ghost use Rattle.std.specs.Prelude.{◌≡◌, ◌+◌, ◌*◌, ◌^◌, ◌<◌, ◌≤◌, ℕ, ◌++◌, ◌∷◌, [], List, length, IfOk, slice_set, slice_index_or, FitsSigned, ◌+ℤ◌, All, Option, map, reverse};
ghost use Rattle.std.specs.Int.{w128};
ghost use Rattle.prof_tree.specs.Forest.{branch};
ghost use Rattle.prof_tree.specs.Growing.{IsChild, steps_from, stepped, ended, HasGrown, IsGrown, pair_eq};
ghost use Rattle.prof_tree.specs.Nodes.{Weighed, weighed, total, dropped_of, reversed, keys_of, node_limit};
ghost use Rattle.prof_tables.specs.declared.rows.Step.{Step};
ghost use Rattle.std.specs.HashMap.{get};

use crate::branch::Branch;
use crate::node::InvertRefusal;
use prof_path::{Step, StepList};
use std::alloc::{AllocError, Global};
use std::collections::HashMap;

/// How many nodes an inverted tree may have.
pub const NODE_LIMIT: u64 = 4_194_304;

/// The row of each child, by its parent's row and its function.
pub type Index = HashMap<(Option<u32>, u32), u32>;

/// The end of a path that a walk begins at.
#[derive(Clone, Copy, Debug, PartialEq, Eq)]
pub enum End {
    Root,
    Leaf,
}

// The step of a path that stands at a distance from an end.
fn step_from(path: &[Step], from: End, distance: usize) -> Step
    requires { distance < length path.now }
    ensures { result ≡ slice_index_or (steps_from from path.now) distance result }
{
    match from {
        End::Root => path[distance],
        End::Leaf => path[path.len() - 1 - distance],
    }
}

/// The row of a step below a row, or among the roots, which is added where it isn't there, with no weight. `depth` is that of
/// the row, 0 at a root. Only want of memory refuses it.
pub fn child(
    rows: &mut Vec<Branch>,
    index: &mut Index,
    parent: Option<u32>,
    depth: u32,
    step: Step,
) -> Result<u32, AllocError>
    ensures { IfOk result (λ row. IsChild rows.old.items (get pair_eq index.old) rows.new.items (get pair_eq index.new) parent depth step row) }
{
    let key = (parent, step.func);
    if let Some(row) = index.get(&key) {
        return Ok(*row);
    }
    // The rows of 2^32 nodes would take more than 400 GB.
    if rows.len() > u32::MAX as usize {
        return Err(AllocError);
    }
    let row = rows.len() as u32;
    index.insert(key, row)?;
    rows.push(Branch {
        parent,
        depth,
        func: step.func,
        total: 0,
        own: 0,
        category: Some(step.category),
    })?;
    Ok(row)
}

/// Adds a weight to the total of a row, and the category of a step to those of its steps.
pub fn add_total(rows: &mut Vec<Branch>, row: u32, step: Step, weight: i128)
    requires row { row < length rows.old.items }
    requires fits { FitsSigned w128 ((branch rows.old.items row).total +ℤ weight) }
    ensures { rows.new.items ≡ slice_set rows.old.items row (stepped (branch rows.old.items row) step weight) }
{
    let branch = &mut rows[row as usize];
    branch.total += weight;
    if branch.category != Some(step.category) {
        branch.category = None;
    }
}

/// Adds a weight to the self weight of a row.
pub fn add_own(rows: &mut Vec<Branch>, row: u32, weight: i128)
    requires row { row < length rows.old.items }
    requires fits { FitsSigned w128 ((branch rows.old.items row).own +ℤ weight) }
    ensures { rows.new.items ≡ slice_set rows.old.items row (ended (branch rows.old.items row) weight) }
{
    let branch = &mut rows[row as usize];
    branch.own += weight;
}

// Adds a path's weight and its step's category to a row.
fn add_step(rows: &mut Vec<Branch>, row: u32, step: Step, weight: i64)
    requires row { row < length rows.old.items }
    requires fits { FitsSigned w128 ((branch rows.old.items row).total +ℤ weight) }
    ensures { rows.new.items ≡ slice_set rows.old.items row (stepped (branch rows.old.items row) step weight) }
{
    add_total(rows, row, step, i128::from(weight));
}

// Adds a path's weight to the row that it ends at.
fn add_end(rows: &mut Vec<Branch>, row: u32, weight: i64)
    requires row { row < length rows.old.items }
    requires fits { FitsSigned w128 ((branch rows.old.items row).own +ℤ weight) }
    ensures { rows.new.items ≡ slice_set rows.old.items row (ended (branch rows.old.items row) weight) }
{
    add_own(rows, row, i128::from(weight));
}

/// Walks one path into the rows, from an end on.
pub fn walk(
    rows: &mut Vec<Branch>,
    index: &mut Index,
    path: &[Step],
    from: End,
    weight: i64,
) -> Result<(), AllocError>
    requires grown { HasGrown 8388607 rows.old.items (get pair_eq index.old) }
    requires short { length path.now < 2 ^ 32 }
    ensures { IfOk result (λ _. (xs : List Weighed) (ks : List (List ℕ)) → IsGrown xs ks rows.old.items (get pair_eq index.old)
        → (ks' : List (List ℕ)) × IsGrown (xs ++ record { steps = steps_from from path.now; weight = weight } ∷ []) ks' rows.new.items (get pair_eq index.new)) }
{
    let mut at = None;
    for depth in 0..path.len() {
        let step = step_from(path, from, depth);
        let row = child(rows, index, at, depth as u32, step)?;
        add_step(rows, row, step, weight);
        at = Some(row);
    }
    if let Some(row) = at {
        add_end(rows, row, weight);
    }
    Ok(())
}

/// The rows of the tree of the reversed paths. It stops as soon as they are more than an inverted tree may have.
pub fn grown_backward(
    alloc: Global,
    paths: &[StepList],
    weights: &[i64],
) -> Result<Vec<Branch>, InvertRefusal>
    requires lengths { length weights.now ≡ length paths.now }
    requires few { length paths.now ≤ 8388608 }
    ensures grown { IfOk result (λ rows. (ks : List (List ℕ)) × (look : (Option ℕ × ℕ → Option ℕ))
        × IsGrown (map reversed (weighed paths.now weights.now)) ks rows.items look) }
    ensures within { IfOk result (λ rows. length rows.items ≤ node_limit) }
    ensures many { (limit : ℕ) → result ≡ Err (InvertRefusal.TooManyNodes limit)
        → (limit ≡ node_limit) × (node_limit < length (keys_of (map reversed (weighed paths.now weights.now)))) }
{
    let mut rows = Vec::new(alloc);
    let mut index = HashMap::new(alloc);
    for (place, path) in paths.iter().enumerate() {
        let steps = path.as_slice();
        // A path alone makes a node of each of its steps.
        if steps.len() as u64 > NODE_LIMIT {
            return Err(InvertRefusal::TooManyNodes { limit: NODE_LIMIT });
        }
        let weight = weights[place];
        walk(&mut rows, &mut index, steps, End::Leaf, weight)?;
        if rows.len() as u64 > NODE_LIMIT {
            return Err(InvertRefusal::TooManyNodes { limit: NODE_LIMIT });
        }
    }
    Ok(rows)
}

/// A sum with one more weight.
pub fn plus(sum: i128, weight: i64) -> i128
    requires { FitsSigned w128 (sum +ℤ weight) }
    ensures { result ≡ sum +ℤ weight }
{
    sum + i128::from(weight)
}

/// The weight of all paths, and that of the empty ones.
pub fn sums(paths: &[StepList], weights: &[i64]) -> (i128, i128)
    requires lengths { length weights.now ≡ length paths.now }
    requires few { length paths.now ≤ 8388608 }
    ensures selected { result.0 ≡ total (weighed paths.now weights.now) }
    ensures dropped { result.1 ≡ dropped_of (weighed paths.now weights.now) }
{
    let mut selected = 0i128;
    let mut dropped = 0i128;
    for (place, path) in paths.iter().enumerate() {
        let weight = weights[place];
        selected = plus(selected, weight);
        if path.as_slice().is_empty() {
            dropped = plus(dropped, weight);
        }
    }
    (selected, dropped)
}
