//! From the stack rows of a thread to the rows of its tree.
ghost use Rattle.std.specs.Prelude.{◌≡◌, ◌+◌, ◌*◌, ◌^◌, ◌<◌, ◌≤◌, ℕ, ℤ, List, length, IfOk, OnOk, IfSome, Option, None, slice_index_or};
ghost use Rattle.std.specs.Option.{option_and_then, option_map_or};
ghost use Rattle.std.specs.HashMap.{get};
ghost use Rattle.prof_tables.specs.declared.rows.StackRow.{StackRow};
ghost use Rattle.prof_tree.specs.Forest.{branch};
ghost use Rattle.prof_tree.specs.Growing.{IsGrown, pair_eq};
ghost use Rattle.prof_view_tree.specs.Sprouting.{AreSprouted, AreWeighed, IsStack};
ghost use Rattle.prof_view_tree.specs.Weighing.{AreThrough, held, row_path};

use crate::row_weight::RowWeight;
use crate::weighing::through_rows;
use prof_path::Step;
use prof_tables::StackRow;
use prof_tree::{Branch, Index, add_own, add_total, child};
use std::alloc::{AllocError, Global};
use std::collections::HashMap;

/// The rows of a tree, and the row of each stack row through which a sample goes.
#[derive(Drop)]
struct Sprouts {
    rows: Vec<Branch>,
    nodes: Vec<Option<u32>>,
}

/// The row of a prefix.
fn row_above(nodes: &[Option<u32>], prefix: Option<u32>) -> Option<u32>
    requires { IfSome prefix (λ p. p < length nodes.now) }
    ensures { result ≡ option_and_then (λ p. slice_index_or nodes.now p None) prefix }
{
    match prefix {
        None => None,
        Some(prefix) => nodes[prefix as usize],
    }
}

/// The depth of a row's children, or that of the roots.
fn depth_below(rows: &[Branch], parent: Option<u32>) -> u32
    requires { IfSome parent (λ row. (row < length rows.now) × ((branch rows.now row).depth + 1 < 2 ^ 32)) }
    ensures { result ≡ option_map_or (λ row. (branch rows.now row).depth + 1) parent 0 }
{
    match parent {
        None => 0,
        Some(row) => rows[row as usize].depth + 1,
    }
}

/// Adds the row of a stack row, through which samples of this weight go, if any do.
fn sprout(
    rows: &mut Vec<Branch>,
    index: &mut Index,
    nodes: &mut Vec<Option<u32>>,
    stack: StackRow,
    weight: Option<i128>,
) -> Result<(), AllocError>
    requires { (stacks : List StackRow) × (own : List (Option ℤ)) × (ks : List (List ℕ)) × AreWeighed stacks own × IsStack stacks own (length nodes.old.items) stack weight
        × AreSprouted stacks own (length nodes.old.items) ks rows.old.items (get pair_eq index.old) nodes.old.items }
    ensures { OnOk result ((stacks : List StackRow) (own : List (Option ℤ)) (ks : List (List ℕ)) → AreWeighed stacks own → IsStack stacks own (length nodes.old.items) stack weight
        → AreSprouted stacks own (length nodes.old.items) ks rows.old.items (get pair_eq index.old) nodes.old.items
        → (ks' : List (List ℕ)) × AreSprouted stacks own (length nodes.old.items + 1) ks' rows.new.items (get pair_eq index.new) nodes.new.items) }
{
    let Some(weight) = weight else {
        nodes.push(None)?;
        return Ok(());
    };
    let parent = row_above(nodes, stack.prefix);
    let depth = depth_below(rows, parent);
    let step = Step {
        func: stack.func,
        category: stack.category,
    };
    let row = child(rows, index, parent, depth, step)?;
    add_total(rows, row, step, weight);
    nodes.push(Some(row))?;
    Ok(())
}

/// The rows of all stack rows, where `through` has the weight of the samples that go through each.
fn sprout_all(
    alloc: Global,
    stacks: &[StackRow],
    through: &[RowWeight],
) -> Result<Sprouts, AllocError>
    requires { (own : List (Option ℤ)) × AreWeighed stacks.now own × AreThrough stacks.now own through.now }
    ensures { IfOk result (λ s. (own : List (Option ℤ)) → AreWeighed stacks.now own → AreThrough stacks.now own through.now
        → (ks : List (List ℕ)) × (look : (Option ℕ × ℕ → Option ℕ)) × AreSprouted stacks.now own (length stacks.now) ks s.rows.items look s.nodes.items) }
{
    let mut rows = Vec::new(alloc);
    let mut nodes = Vec::with_capacity(alloc, stacks.len())?;
    let mut index = HashMap::new(alloc);
    for (place, stack) in stacks.iter().enumerate() {
        sprout(
            &mut rows,
            &mut index,
            &mut nodes,
            *stack,
            through[place].get(),
        )?;
    }
    Ok(Sprouts { rows, nodes })
}

/// Adds the weight of the samples that stand on each stack row to its row's self weight.
fn add_ends(rows: &mut Vec<Branch>, nodes: &[Option<u32>], own: &[RowWeight])
    requires { (stacks : List StackRow) × (ks : List (List ℕ)) × (look : (Option ℕ × ℕ → Option ℕ)) × AreWeighed stacks own.now × AreSprouted stacks own.now (length stacks) ks rows.old.items look nodes.now }
    ensures { (stacks : List StackRow) (ks : List (List ℕ)) (look : Option ℕ × ℕ → Option ℕ) → AreWeighed stacks own.now → AreSprouted stacks own.now (length stacks) ks rows.old.items look nodes.now
        → IsGrown (held (row_path stacks) 0 own.now) ks rows.new.items look }
{
    for (place, weight) in own.iter().enumerate() {
        if let Some(weight) = weight.get() {
            if let Some(row) = nodes[place] {
                add_own(rows, row, weight);
            }
        }
    }
}

/// The rows of the tree of samples that stand on these stack rows, where `own` has the weight of those on each.
pub fn grown_by_rows(
    alloc: Global,
    stacks: &[StackRow],
    own: &[RowWeight],
) -> Result<Vec<Branch>, AllocError>
    requires { AreWeighed stacks.now own.now }
    ensures { IfOk result (λ rows. (ks : List (List ℕ)) × (look : (Option ℕ × ℕ → Option ℕ)) × IsGrown (held (row_path stacks.now) 0 own.now) ks rows.items look) }
{
    let through = through_rows(alloc, stacks, own)?;
    let Sprouts { mut rows, nodes } = sprout_all(alloc, stacks, &through)?;
    add_ends(&mut rows, &nodes, own);
    Ok(rows)
}
