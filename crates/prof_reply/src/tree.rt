//! The texts of trees.
ghost use Rattle.std.specs.Prelude.{◌≡◌, ◌≤◌, ◌++◌, codes, length, IfSome};
ghost use Rattle.std.specs.List.{flat_map};
ghost use Rattle.prof_reply.specs.Lines.{node_head, tree_head};
ghost use Rattle.prof_reply.specs.Replies.{node_line, node_name, text_of_tree, unit_text};
ghost use Rattle.prof_writer.specs.Writing.{quoted};
ghost use Rattle.prof_io.specs.Outside.{seen};
ghost use Rattle.prof_io.specs.Sinks.{Wrote};
ghost use Rattle.prof_page.specs.Gathering.{Gathers};

use crate::lines::{node_head, tree_head};
use prof_io::{OutFault, Sink, copy_out};
use prof_page::{Line, Page, add_line, write_page};
use prof_tables::{Thread, Unit};
use prof_tree::{Node, Tree};
use prof_writer::{push_unescaped, write_string};

fn unit_text(unit: Unit) -> &'static str
    ensures name { result.now ≡ unit_text unit }
    ensures short { length result.now ≤ 7 }
{
    match unit {
        Unit::Samples => "samples",
        Unit::Bytes => "bytes",
        Unit::Ns => "ns",
    }
}

/// The name of a function, or of a resource collapsed, and none of a number past them.
fn node_name(thread: &Thread, func: u32) -> &str
    ensures { result.now ≡ node_name thread.entry.now.shared func }
{
    if func < thread.func_count() + thread.resource_count() {
        thread.func_name(func)
    } else {
        ""
    }
}

/// A node's line as one text, where its name is short and each of its bytes stands for itself.
fn short_line(node: Node, name: &str) -> Option<Line>
    ensures { IfSome result (λ line. line.bytes ≡ node_head node ++ (quoted name.now ++ codes "\n")) }
{
    let mut line = node_head(node);
    if !push_unescaped(&mut line, name) || line.is_full() {
        return None;
    }
    line.push_str("\n");
    Some(line)
}

/// Writes a node's line in parts.
fn write_long_line<S: Sink>(out: &mut S, node: Node, name: &str) -> Result<(), OutFault>
    ensures { Wrote (seen S.Counted out.old) (seen S.Counted out.new) result
        (node_head node ++ (quoted name.now ++ codes "\n")) }
{
    copy_out(out, node_head(node).as_str().as_bytes())?;
    write_string(out, name)?;
    copy_out(out, b"\n")
}

/// Adds a node's line to the page, or writes both, where the line is long.
fn add_node<S: Sink>(
    out: &mut S,
    page: &mut Page,
    thread: &Thread,
    node: Node,
) -> Result<(), OutFault>
    ensures { Gathers (seen S.Counted out.old) (seen S.Counted out.new) result
        page.old.bytes (node_line thread.now.shared node) page.new.bytes }
{
    let name = node_name(thread, node.func);
    if let Some(line) = short_line(node, name) {
        return add_line(out, page, &line);
    }
    write_page(out, page)?;
    write_long_line(out, node, name)
}

/// Writes the lines of nodes, many at once.
fn write_nodes<S: Sink>(out: &mut S, thread: &Thread, nodes: &[Node]) -> Result<(), OutFault>
    ensures { Wrote (seen S.Counted out.old) (seen S.Counted out.new) result
        (flat_map (node_line thread.now.shared) nodes.now) }
{
    let mut page = Page::new();
    for node in nodes {
        add_node(out, &mut page, thread, *node)?;
    }
    write_page(out, &mut page)
}

/// The first line of a tree.
fn head_of(kind: &str, thread: &Thread, tree: &Tree) -> Line
    requires { length kind.now ≤ 8 }
    ensures { result.bytes ≡ tree_head kind.now (unit_text thread.now.unit)
        (length tree.now.nodes) tree.now.selected tree.now.dropped }
{
    let unit = unit_text(thread.unit());
    tree_head(kind, unit, tree.nodes.len(), tree.selected, tree.dropped)
}

/// Writes a tree of that kind.
pub fn write_tree<S: Sink>(
    out: &mut S,
    kind: &str,
    thread: &Thread,
    tree: &Tree,
) -> Result<(), OutFault>
    requires { length kind.now ≤ 8 }
    ensures { Wrote (seen S.Counted out.old) (seen S.Counted out.new) result
        (text_of_tree kind.now thread.now tree.now.nodes tree.now.selected tree.now.dropped) }
{
    copy_out(out, head_of(kind, thread, tree).as_str().as_bytes())?;
    write_nodes(out, thread, &tree.nodes)
}
