//! The inverted tree that a view shows of a thread.
ghost use Rattle.std.specs.Prelude.{◌≡◌, ◌+◌, ◌<◌, ◌≤◌, ◌+ℤ◌, ℕ, List, length, map, IfOk};
ghost use Rattle.prof_tree.specs.Nodes.{AreKeys, reversed, inverted_at, root_total, node_limit};
ghost use Rattle.prof_view_tree.specs.Views.{finals, inverted_tree, selected_weight, dropped_weight};

use crate::climbing::grown_upward;
use crate::viewing::weighted_rows;
use prof_io::Steps;
use prof_layer::Layers;
use prof_path::View;
use prof_tree::{InvertRefusal, Tree, finish, weigh_roots};
use std::alloc::Global;
use std::sync::ledger::Ledger;

/// The inverted call tree that a view shows of the layers' base, out of the rows of the top, under the condition that the
/// view's transforms are settled: that of the reversed final paths of the samples in every range. A tree with more than
/// 4,194,304 nodes is refused, as soon as that many have come. It takes time in the rows, the samples, and the pairs of a node
/// and a row to which samples come there, where each row counts once a node.
pub fn inverted<L: Ledger>(
    alloc: Global,
    layers: &Layers,
    view: &View,
    reads: &mut Steps<L>,
) -> Result<Tree, InvertRefusal>
    requires { layers.now.settled ≡ view.now.transforms }

    ensures nodes { IfOk result (λ tree. tree.nodes ≡ inverted_tree layers.now.base view.now layers.now.spans) }
    ensures each_once { IfOk result (λ tree. let backward = map reversed (finals layers.now.base view.now layers.now.spans) in
        (keys : List (List ℕ)) × AreKeys backward keys × (tree.nodes ≡ map (inverted_at layers.now.base.shared.default backward) keys)) }

    ensures selected { IfOk result (λ tree. tree.selected ≡ selected_weight layers.now.base view.now layers.now.spans) }
    ensures dropped { IfOk result (λ tree. tree.dropped ≡ dropped_weight layers.now.base view.now layers.now.spans) }

    // The weights balance.
    ensures roots { IfOk result (λ tree. root_total tree.nodes +ℤ tree.dropped ≡ tree.selected) }

    // A tree comes only within the limit, and the refusal only past it.
    ensures within { IfOk result (λ tree. length tree.nodes ≤ node_limit) }
    ensures many { (limit : ℕ) → result ≡ Err (InvertRefusal.TooManyNodes limit)
        → (limit ≡ node_limit) × (node_limit < length (inverted_tree layers.now.base view.now layers.now.spans)) }

    // Each row of the top is read at most once.
    ensures once { reads.new ≤ reads.old + length layers.now.top }
{
    let weighted = weighted_rows(alloc, layers, view, reads)?;
    let rows = grown_upward(alloc, &weighted.rows, &weighted.weights.by_row)?;
    let mut nodes = finish(alloc, &rows, layers.base().default_category())?;
    weigh_roots(&mut nodes);
    Ok(Tree {
        nodes,
        selected: weighted.weights.selected,
        dropped: weighted.weights.dropped,
    })
}
