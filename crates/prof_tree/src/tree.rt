//! The trees of paths that are handed in.
ghost use Rattle.std.specs.Prelude.{◌≡◌, ◌^◌, ◌<◌, ◌≤◌, ◌+ℤ◌, ℕ, List, length, map, IfOk, All};
ghost use Rattle.prof_tables.specs.declared.rows.Step.{Step};
ghost use Rattle.prof_tree.specs.Nodes.{weighed, nodes_of, node_at, AreKeys, total, dropped_of, root_total, own_total, reversed, inverted_of, inverted_at, node_limit};

use crate::builder::TreeBuilder;
use crate::finishing::{finish, weigh_roots};
use crate::growing::{grown_backward, sums};
use crate::node::{InvertRefusal, Tree};
use prof_io::NoMemory;
use prof_path::StepList;
use std::alloc::Global;

/// The call tree of the paths, where `weights` holds the weight of each and `default` is the category of a node whose
/// steps have several. Siblings stand by the size of their totals, the greatest first, and then by their functions.
pub fn of_paths(
    alloc: Global,
    paths: &[StepList],
    weights: &[i64],
    default: u32,
) -> Result<Tree, NoMemory>
    requires lengths { length weights.now ≡ length paths.now }
    requires few { length paths.now ≤ 8388608 }
    requires short { All (λ (x : List Step). length x < 2 ^ 32) paths.now }

    ensures nodes { IfOk result (λ tree. tree.nodes ≡ nodes_of default (weighed paths.now weights.now)) }
    ensures each_once { IfOk result (λ tree. (keys : List (List ℕ)) × AreKeys (weighed paths.now weights.now) keys
        × (tree.nodes ≡ map (node_at default (weighed paths.now weights.now)) keys)) }

    ensures selected { IfOk result (λ tree. tree.selected ≡ total (weighed paths.now weights.now)) }
    ensures dropped { IfOk result (λ tree. tree.dropped ≡ dropped_of (weighed paths.now weights.now)) }

    // The weights balance.
    ensures roots { IfOk result (λ tree. root_total tree.nodes +ℤ tree.dropped ≡ tree.selected) }
    ensures selves { IfOk result (λ tree. own_total tree.nodes +ℤ tree.dropped ≡ tree.selected) }
{
    let mut builder = TreeBuilder::new(alloc);
    for (place, path) in paths.iter().enumerate() {
        builder.add(path.as_slice(), weights[place])?;
    }
    let tree = builder.finish(alloc, default)?;
    Ok(tree)
}

/// The inverted call tree of the paths: the tree of the reversed paths, in which each root's self weight is its total
/// and the other nodes have none. `weights` and `default` are as in `of_paths`. A tree with more than 4,194,304 nodes is
/// refused, as soon as that many have come.
pub fn of_reversed(
    alloc: Global,
    paths: &[StepList],
    weights: &[i64],
    default: u32,
) -> Result<Tree, InvertRefusal>
    requires lengths { length weights.now ≡ length paths.now }
    requires few { length paths.now ≤ 8388608 }

    ensures nodes { IfOk result (λ tree. tree.nodes ≡ inverted_of default (weighed paths.now weights.now)) }
    ensures each_once { IfOk result (λ tree. let backward = map reversed (weighed paths.now weights.now) in
        (keys : List (List ℕ)) × AreKeys backward keys × (tree.nodes ≡ map (inverted_at default backward) keys)) }

    ensures selected { IfOk result (λ tree. tree.selected ≡ total (weighed paths.now weights.now)) }
    ensures dropped { IfOk result (λ tree. tree.dropped ≡ dropped_of (weighed paths.now weights.now)) }

    // The weights balance.
    ensures roots { IfOk result (λ tree. root_total tree.nodes +ℤ tree.dropped ≡ tree.selected) }

    // A tree comes only within the limit, and the refusal only past it.
    ensures within { IfOk result (λ tree. length tree.nodes ≤ node_limit) }
    ensures many { (limit : ℕ) → result ≡ Err (InvertRefusal.TooManyNodes limit)
        → (limit ≡ node_limit) × (node_limit < length (inverted_of default (weighed paths.now weights.now))) }
{
    let rows = grown_backward(alloc, paths, weights)?;
    let mut nodes = finish(alloc, &rows, default)?;
    weigh_roots(&mut nodes);
    let (selected, dropped) = sums(paths, weights);
    Ok(Tree {
        nodes,
        selected,
        dropped,
    })
}
