//! The plain tree that a view shows of a thread.
ghost use Rattle.std.specs.Prelude.{◌≡◌, ◌+◌, ◌≤◌, ◌+ℤ◌, ℕ, List, length, map, IfOk};
ghost use Rattle.prof_tree.specs.Nodes.{Weighed, nodes_of, node_at, AreKeys, total, dropped_of, root_total, own_total};
ghost use Rattle.prof_view_tree.specs.Sprouting.{AreWeighed};
ghost use Rattle.prof_view_tree.specs.Views.{finals, plain_tree, selected_weight, dropped_weight};
ghost use Rattle.prof_view_tree.specs.Weighing.{Weighs};

use crate::sprouting::grown_by_rows;
use crate::viewing::weighted_rows;
use crate::weighing::SampleWeights;
use prof_io::{NoMemory, Steps};
use prof_layer::Layers;
use prof_path::View;
use prof_tables::StackRow;
use prof_tree::{Tree, finish};
use std::alloc::Global;
use std::sync::ledger::Ledger;

/// The tree of samples that stand on these stack rows, where `default` is the category of a node whose steps have several.
pub(crate) fn tree_of_rows(
    alloc: Global,
    stacks: &[StackRow],
    weights: &SampleWeights,
    default: u32,
) -> Result<Tree, NoMemory>
    requires weighed { AreWeighed stacks.now weights.now.by_row.items }
    requires samples { (xs : List Weighed) × Weighs stacks.now xs weights.now }
    ensures nodes { IfOk result (λ tree. (xs : List Weighed) → Weighs stacks.now xs weights.now → tree.nodes ≡ nodes_of default xs) }
    ensures selected { IfOk result (λ tree. (xs : List Weighed) → Weighs stacks.now xs weights.now → tree.selected ≡ total xs) }
    ensures dropped { IfOk result (λ tree. (xs : List Weighed) → Weighs stacks.now xs weights.now → tree.dropped ≡ dropped_of xs) }
    ensures each_once { IfOk result (λ tree. (xs : List Weighed) → Weighs stacks.now xs weights.now
        → (keys : List (List ℕ)) × AreKeys xs keys × (tree.nodes ≡ map (node_at default xs) keys)) }
    ensures roots { IfOk result (λ tree. root_total tree.nodes +ℤ tree.dropped ≡ tree.selected) }
    ensures selves { IfOk result (λ tree. own_total tree.nodes +ℤ tree.dropped ≡ tree.selected) }
{
    let rows = grown_by_rows(alloc, stacks, &weights.by_row)?;
    let nodes = finish(alloc, &rows, default)?;
    Ok(Tree {
        nodes,
        selected: weights.selected,
        dropped: weights.dropped,
    })
}

/// The call tree that a view shows of the layers' base, out of the rows of the top, under the condition that the view's
/// transforms are settled: the tree of the final paths of the samples in every range. It takes time in the rows, the
/// samples and the nodes, and in the functions for each term of the search, and holds no path.
pub fn plain<L: Ledger>(
    alloc: Global,
    layers: &Layers,
    view: &View,
    reads: &mut Steps<L>,
) -> Result<Tree, NoMemory>
    requires { layers.now.settled ≡ view.now.transforms }

    ensures nodes { IfOk result (λ tree. tree.nodes ≡ plain_tree layers.now.base view.now layers.now.spans) }
    ensures each_once { IfOk result (λ tree. let xs = finals layers.now.base view.now layers.now.spans in
        (keys : List (List ℕ)) × AreKeys xs keys × (tree.nodes ≡ map (node_at layers.now.base.shared.default xs) keys)) }

    ensures selected { IfOk result (λ tree. tree.selected ≡ selected_weight layers.now.base view.now layers.now.spans) }
    ensures dropped { IfOk result (λ tree. tree.dropped ≡ dropped_weight layers.now.base view.now layers.now.spans) }

    // The weights balance.
    ensures roots { IfOk result (λ tree. root_total tree.nodes +ℤ tree.dropped ≡ tree.selected) }
    ensures selves { IfOk result (λ tree. own_total tree.nodes +ℤ tree.dropped ≡ tree.selected) }

    // Each row of the top is read at most once.
    ensures once { reads.new ≤ reads.old + length layers.now.top }
{
    let weighted = weighted_rows(alloc, layers, view, reads)?;
    let default = layers.base().default_category();
    let tree = tree_of_rows(alloc, &weighted.rows, &weighted.weights, default)?;
    Ok(tree)
}
