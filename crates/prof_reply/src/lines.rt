//! The lines of a reply, put together before they are written.
ghost use Rattle.std.specs.Prelude.{◌≡◌, ◌≤◌, ◌+◌, ◌++◌, codes, length};
ghost use Rattle.std.specs.Fmt.{decimal};
ghost use Rattle.prof_reply.specs.Lines.{line, marker_head, markers_head, node_head, tree_head};

use arrayvec::ArrayString;
use prof_marker::Marker;
use prof_page::{Line, push_number};
use prof_tree::Node;

#[tactic(auto, unfolding(crate::specs::Lines::node_head))]
/// What stands before a node's name.
pub fn node_head(node: Node) -> Line
    ensures { result.bytes ≡ node_head node }
{
    let mut line = ArrayString::new();
    push_number(&mut line, node.depth, " ");
    push_number(&mut line, node.total, " ");
    push_number(&mut line, node.own, " ");
    push_number(&mut line, node.category, " ");
    push_number(&mut line, node.func, " ");
    line
}

#[tactic(auto, unfolding(crate::specs::Lines::tree_head))]
/// The first line of a tree.
pub fn tree_head(kind: &str, unit: &str, nodes: usize, selected: i128, dropped: i128) -> Line
    requires { length kind.now + length unit.now ≤ 20 }
    ensures { result.bytes ≡ tree_head kind.now unit.now nodes selected dropped }
{
    let mut line = ArrayString::new();
    line.push_str("tree ");
    line.push_str(kind);
    line.push_str(" unit ");
    line.push_str(unit);
    line.push_str(" nodes ");
    push_number(&mut line, nodes, " selected ");
    push_number(&mut line, selected, " dropped ");
    push_number(&mut line, dropped, "\n");
    line
}

#[tactic(auto, unfolding(crate::specs::Lines::markers_head))]
/// The first line of markers.
pub fn markers_head(markers: usize) -> Line
    ensures { result.bytes ≡ markers_head markers }
{
    let mut line = ArrayString::new();
    line.push_str("markers ");
    push_number(&mut line, markers, "\n");
    line
}

#[tactic(auto, unfolding(crate::specs::Lines::marker_head))]
/// What stands before a marker's name.
pub fn marker_head(marker: Marker) -> Line
    ensures { result.bytes ≡ marker_head marker }
{
    let mut line = ArrayString::new();
    push_number(&mut line, marker.start, " ");
    push_number(&mut line, marker.end, " ");
    line
}

/// The line of a request that was done.
pub fn done_line(version: u32) -> Line
    ensures { result.bytes ≡ line (codes "ok " ++ decimal version) }
{
    let mut line = ArrayString::new();
    line.push_str("ok ");
    push_number(&mut line, version, "\n");
    line
}
