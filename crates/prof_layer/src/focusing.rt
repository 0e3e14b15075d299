//! The focus on what leads to a call node that is read from the leaf: rows stay, and paths end at a row above.
ghost use Rattle.std.specs.Prelude.{◌≡◌, ◌<◌, ◌≤◌, ◌+◌, ◌^◌, ℕ, true, length, slice_get, IfSome, IfOk};
ghost use Rattle.std.specs.List.{All};
ghost use Rattle.prof_path.specs.declared.transform.Transform.TheVariants.{FocusSubtree};
ghost use Rattle.prof_layer.specs.Rewritten.{AreRows, IsRewritten, entry_at};
ghost use Rattle.prof_layer.specs.Focusing.{nearest, end_above, AreNodes, IsLinked};

use crate::passing::Rewritten;
use prof_io::{NoMemory, Steps};
use prof_path::{Implementation, visible};
use prof_tables::{Stacks, StacksBuilder, Thread};
use std::alloc::{AllocError, Global};
use std::sync::ledger::Ledger;

/// What is looked at of a row, while a path is read from its leaf.
#[derive(Clone, Copy, Debug, PartialEq, Eq)]
pub(crate) struct Node {
    func: u32,
    /// Whether the filter shows the row's step.
    shown: bool,
    /// The nearest row above whose step is shown.
    above: Option<u32>,
}

/// Rows with their nodes.
#[derive(Drop)]
struct Nodes {
    rows: Stacks,
    nodes: Vec<Node>,
}

/// The node of a row.
fn node_at(nodes: &[Node], row: u32) -> Node
    requires { row < length nodes.now }
    ensures { slice_get nodes.now row ≡ Some result }
{
    nodes[row as usize]
}

/// The nearest row whose step is shown, from a row on.
fn nearest(nodes: &[Node], row: Option<u32>) -> Option<u32>
    requires { IfSome row (λ r. r < length nodes.now) }
    ensures { result ≡ nearest nodes.now row }
{
    let row = row?;
    let node = node_at(nodes, row);
    if node.shown { Some(row) } else { node.above }
}

/// The rows as they are, each read once, and their nodes.
fn nodes_of<L: Ledger>(
    alloc: Global,
    thread: &Thread,
    filter: Implementation,
    top: &Stacks,
    reads: &mut Steps<L>,
) -> Result<Nodes, NoMemory>
    requires { AreRows thread.now.shared top.now }
    ensures rows { IfOk result (λ made. made.rows ≡ top.now) }
    ensures nodes { IfOk result (λ made. AreNodes thread.now.shared filter top.now (length top.now) made.nodes.items) }
    ensures reads { reads.new ≤ reads.old + length top.now }
{
    let funcs = thread.func_count() + thread.resource_count();
    let mut rows = StacksBuilder::new(alloc, top.count(), funcs, thread.category_count())?;
    let mut nodes = Vec::with_capacity(alloc, top.count() as usize)?;
    for i in 0..top.count() {
        let row = top.row(i, reads);
        rows.add(row.prefix, row.func, row.category);
        let node = Node {
            func: row.func,
            shown: visible(filter, thread, row.func),
            above: nearest(&nodes, row.prefix),
        };
        nodes.push(node)?;
    }
    Ok(Nodes {
        rows: rows.done(),
        nodes,
    })
}

/// The row at which the functions end, read upwards over shown rows from one on.
fn end_above(nodes: &[Node], funcs: &[u32], leaf: Option<u32>) -> Option<u32>
    requires leaf { IfSome leaf (λ r. r < length nodes.now) }
    requires linked { IsLinked nodes.now }
    ensures { result ≡ end_above nodes.now funcs.now leaf }
{
    let mut next = leaf;
    for (place, func) in funcs.iter().enumerate() {
        let row = next?;
        let node = node_at(nodes, row);
        if node.func != *func {
            return None;
        }
        if place + 1 == funcs.len() {
            return Some(row);
        }
        next = node.above;
    }
    None
}

/// For each row the one at which the functions end.
fn ends_of(alloc: Global, nodes: &[Node], funcs: &[u32]) -> Result<Vec<Option<u32>>, AllocError>
    requires few { length nodes.now < 2 ^ 32 }
    requires linked { IsLinked nodes.now }
    ensures count { IfOk result (λ ends. length ends.items ≡ length nodes.now) }
    ensures ends { IfOk result (λ ends. (r : ℕ) → r < length nodes.now → entry_at ends.items r ≡ end_above nodes.now funcs.now (nearest nodes.now (Some r))) }
{
    let mut ends = Vec::with_capacity(alloc, nodes.len())?;
    for row in 0..nodes.len() as u32 {
        ends.push(end_above(nodes, funcs, nearest(nodes, Some(row))))?;
    }
    Ok(ends)
}

/// The rows as they are, and for each the row at which the call node ends that is read from its leaf.
pub(crate) fn focus_inverted<L: Ledger>(
    alloc: Global,
    thread: &Thread,
    filter: Implementation,
    funcs: &[u32],
    top: &Stacks,
    reads: &mut Steps<L>,
) -> Result<Rewritten, NoMemory>
    requires some { 0 < length funcs.now }
    requires rows { AreRows thread.now.shared top.now }
    ensures rewritten { IfOk result (λ made. IsRewritten thread.now.shared (FocusSubtree filter funcs.now true) top.now made.rows made.outs.items) }
    ensures reads { reads.new ≤ reads.old + length top.now }
{
    let Nodes { rows, nodes } = nodes_of(alloc, thread, filter, top, reads)?;
    let outs = ends_of(alloc, &nodes, funcs)?;
    Ok(Rewritten { rows, outs })
}
