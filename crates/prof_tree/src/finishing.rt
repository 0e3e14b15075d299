//! From the rows of a tree to its nodes.
ghost use Rattle.std.specs.Prelude.{◌≡◌, ◌<◌, ◌≤◌, ℕ, List, length, map, IfOk, All, Option};
ghost use Rattle.prof_tree.specs.Forest.{branch};
ghost use Rattle.prof_tree.specs.Growing.{node_from, IsTable, Adds, IsGrown, AreSummed};
ghost use Rattle.prof_tree.specs.Nodes.{Weighed, nodes_of, at_roots};

use crate::branch::Branch;
use crate::listing::{children_of, listed};
use crate::node::Node;
use prof_io::NoMemory;
use std::alloc::{AllocError, Global};

// The nodes of the rows, in an order.
fn nodes_at(
    alloc: Global,
    rows: &[Branch],
    order: &[u32],
    default: u32,
) -> Result<Vec<Node>, AllocError>
    requires { All (λ row. row < length rows.now) order.now }
    ensures { IfOk result (λ nodes. nodes.items ≡ map (λ row. node_from default (branch rows.now row)) order.now) }
{
    let mut nodes = Vec::with_capacity(alloc, order.len())?;
    for row in order {
        let found = rows[*row as usize];
        nodes.push(Node {
            depth: found.depth,
            func: found.func,
            total: found.total,
            own: found.own,
            category: found.category.unwrap_or(default),
        })?;
    }
    Ok(nodes)
}

/// The list of nodes of a tree whose rows are there. `default` is the category of a node whose steps have several.
pub fn finish(alloc: Global, rows: &[Branch], default: u32) -> Result<Vec<Node>, NoMemory>
    requires { AreSummed rows.now }
    ensures nodes { IfOk result (λ nodes. (xs : List Weighed) (ks : List (List ℕ)) (look : Option ℕ × ℕ → Option ℕ)
        → IsGrown xs ks rows.now look → nodes.items ≡ nodes_of default xs) }
    ensures upward { IfOk result (λ nodes. (xs : List Weighed) (ks : List (List ℕ)) (look : Option ℕ × ℕ → Option ℕ)
        → IsTable ks rows.now look → Adds xs ks rows.now → map at_roots nodes.items ≡ map at_roots (nodes_of default xs)) }
    ensures count { IfOk result (λ nodes. length nodes.items ≤ length rows.now) }
{
    // The rows of 2^32 nodes would take more than 400 GB.
    if rows.len() > u32::MAX as usize {
        return Err(NoMemory);
    }
    let children = children_of(alloc, rows)?;
    let order = listed(alloc, rows, &children)?;
    Ok(nodes_at(alloc, rows, &order, default)?)
}

// A root with its total as its self weight, and another node with none.
fn weighed_at_root(node: Node) -> Node
    ensures { result ≡ at_roots node }
{
    let own = if node.depth == 0 { node.total } else { 0 };
    Node { own, ..node }
}

/// Gives each root its total as its self weight, and the other nodes none.
pub fn weigh_roots(nodes: &mut [Node])
    ensures { nodes.new ≡ map at_roots nodes.old }
{
    for node in nodes.iter_mut() {
        *node = weighed_at_root(*node);
    }
}
