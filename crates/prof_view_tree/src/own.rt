//! The tree of a thread's samples by their own paths.
ghost use Rattle.std.specs.Prelude.{◌≡◌, ◌+◌, ◌^◌, ◌<◌, ◌≤◌, ◌+ℤ◌, ℕ, List, length, map, IfOk};
ghost use Rattle.prof_tables.specs.Paths.{PrefixesBelow};
ghost use Rattle.prof_tree.specs.Nodes.{nodes_of, node_at, AreKeys, total, dropped_of, root_total, own_total};
ghost use Rattle.prof_view_tree.specs.Weighing.{own_paths};

use crate::plain_tree::tree_of_rows;
use crate::weighing::weights_of;
use prof_io::{NoMemory, Steps};
use prof_tables::{StackRow, Stacks, Thread};
use prof_tree::Tree;
use std::alloc::{AllocError, Global};
use std::sync::ledger::Ledger;

/// Reads the stack rows, each once.
pub(crate) fn rows_of<L: Ledger>(
    alloc: Global,
    stacks: &Stacks,
    reads: &mut Steps<L>,
) -> Result<Vec<StackRow>, AllocError>
    ensures rows { IfOk result (λ rows. rows.items ≡ stacks.now) }
    ensures once { reads.new ≤ reads.old + length stacks.now }
    ensures below { PrefixesBelow stacks.now }
    ensures few { length stacks.now < 2 ^ 32 }
{
    let mut rows = Vec::with_capacity(alloc, stacks.count() as usize)?;
    for i in 0..stacks.count() {
        rows.push(stacks.row(i, reads))?;
    }
    Ok(rows)
}

/// The call tree of a thread's samples by their own paths, out of its stack rows: it takes time in the rows, the samples
/// and the nodes, and holds no path.
pub fn own_tree<L: Ledger>(
    alloc: Global,
    thread: &Thread,
    reads: &mut Steps<L>,
) -> Result<Tree, NoMemory>
    ensures nodes { IfOk result (λ tree. tree.nodes ≡ nodes_of thread.now.shared.default (own_paths thread.now)) }
    ensures each_once { IfOk result (λ tree. (keys : List (List ℕ)) × AreKeys (own_paths thread.now) keys
        × (tree.nodes ≡ map (node_at thread.now.shared.default (own_paths thread.now)) keys)) }

    ensures selected { IfOk result (λ tree. tree.selected ≡ total (own_paths thread.now)) }
    ensures dropped { IfOk result (λ tree. tree.dropped ≡ dropped_of (own_paths thread.now)) }

    // The weights balance.
    ensures roots { IfOk result (λ tree. root_total tree.nodes +ℤ tree.dropped ≡ tree.selected) }
    ensures selves { IfOk result (λ tree. own_total tree.nodes +ℤ tree.dropped ≡ tree.selected) }

    // Each stack row is read at most once.
    ensures once { reads.new ≤ reads.old + length thread.now.shared.stacks }
{
    let stacks = rows_of(alloc, thread.stacks(), reads)?;
    let weights = weights_of(alloc, thread)?;
    let tree = tree_of_rows(alloc, &stacks, &weights, thread.default_category())?;
    Ok(tree)
}
