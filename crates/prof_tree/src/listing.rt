//! From the rows of a tree to their order.
ghost use Rattle.std.specs.Prelude.{◌≡◌, ◌≢◌, ◌^◌, ◌<◌, ◌≤◌, ◌++◌, ◌+◌, ℕ, List, length, map, reverse, replicate, get_or, option_to_list, IfOk, OnOk, None, All};
ghost use Rattle.prof_tree.specs.Nodes.{Weighed, keys_of};
ghost use Rattle.prof_tree.specs.Forest.{IsForest, key, HasForest, HasChildren, link, Elem, EachOf, IsChain};
ghost use Rattle.prof_tree.specs.Ranks.{rank_at, rows_of, EachOnce, HasChain, AreRanked, HasSiblings};

use crate::branch::Branch;
use std::alloc::{AllocError, Global};
use std::cmp::Reverse;

/// The children of each row as chains: `first` has the first root, and then the first child of each row, and `next` the
/// sibling after each row.
#[derive(Drop)]
pub struct Children {
    first: Vec<Option<u32>>,
    next: Vec<Option<u32>>,
}

fn nothing(alloc: Global, count: usize) -> Result<Vec<Option<u32>>, AllocError>
    ensures { IfOk result (λ list. list.items ≡ replicate count None) }
{
    vec![in alloc; None; count]
}

/// The place of a node's first child in a list of all: the first root stands first.
fn place_of(parent: Option<u32>) -> usize
    ensures { result ≡ link parent }
{
    match parent {
        None => 0,
        Some(row) => row as usize + 1,
    }
}

/// The children of each row in any order. Each row goes before the siblings that came so far.
fn linked(alloc: Global, rows: &[Branch]) -> Result<Children, AllocError>
    requires forest { HasForest rows.now }
    requires few { length rows.now < 2 ^ 32 }
    ensures { IfOk result (λ children. HasSiblings rows.now children.first.items children.next.items) }
{
    let mut first = nothing(alloc, rows.len() + 1)?;
    let mut next = nothing(alloc, rows.len())?;
    for (row, branch) in rows.iter().enumerate() {
        let place = place_of(branch.parent);
        next[row] = first[place];
        first[place] = Some(row as u32);
    }
    Ok(Children { first, next })
}

// What places a node among its siblings. The last sibling is the least.
#[derive(Clone, Copy, PartialEq, Eq, PartialOrd, Ord)]
struct Rank {
    size: u128,
    func: Reverse<u32>,
    row: u32,
}

/// Puts the ranks of a chain's rows into the buffer, in place of what it held.
fn take_ranks(
    rows: &[Branch],
    next: &[Option<u32>],
    head: Option<u32>,
    ranks: &mut Vec<Rank>,
) -> Result<(), AllocError>
    requires len { length next.now ≡ length rows.now }
    requires chain { HasChain (length rows.now) next.now head }
    ensures { OnOk result ((l : List ℕ) → IsChain next.now head l → ranks.new.items ≡ map (rank_at rows.now) l) }
{
    ranks.clear();
    let mut at = head;
    while let Some(row) = at {
        let branch = rows[row as usize];
        ranks.push(Rank {
            size: branch.total.unsigned_abs(),
            func: Reverse(branch.func),
            row,
        })?;
        at = next[row as usize];
    }
    Ok(())
}

/// Makes a chain of the rows of the ranks, the last of them first, and answers its first row.
fn chained(next: &mut [Option<u32>], ranks: &[Rank]) -> Option<u32>
    requires in_next { EachOf (λ row. row < length next.old) (rows_of ranks.now) }
    requires apart { EachOnce (rows_of ranks.now) }
    ensures chain { IsChain next.new result (reverse (rows_of ranks.now)) }
    ensures others { (row : ℕ) → (Elem row (rows_of ranks.now) → ⊥) → get_or next.new row None ≡ get_or next.old row None }
    ensures len { length next.new ≡ length next.old }
{
    let mut head = None;
    for rank in ranks {
        next[rank.row as usize] = head;
        head = Some(rank.row);
    }
    head
}

/// Puts the siblings of a chain in order, and answers the first of them. The buffer serves for one chain after another.
fn ordered(
    rows: &[Branch],
    next: &mut [Option<u32>],
    head: Option<u32>,
    ranks: &mut Vec<Rank>,
) -> Result<Option<u32>, AllocError>
    requires len { length next.old ≡ length rows.now }
    requires chain { HasChain (length rows.now) next.old head }
    ensures chain { IfOk result (λ top. (l : List ℕ) → IsChain next.old head l
        → (k : List ℕ) × IsChain next.new top k × AreRanked rows.now l k) }
    ensures others { IfOk result (λ _. (l : List ℕ) → IsChain next.old head l
        → (row : ℕ) → (Elem row l → ⊥) → get_or next.new row None ≡ get_or next.old row None) }
    ensures len { length next.new ≡ length next.old }
{
    match head {
        Some(row) if next[row as usize].is_some() => {
            take_ranks(rows, next, head, ranks)?;
            ranks.sort()?;
            Ok(chained(next, ranks))
        }
        _ => Ok(head),
    }
}

/// Puts the children of each row in order, node by node: they are few each.
fn order_all(
    alloc: Global,
    rows: &[Branch],
    first: &mut [Option<u32>],
    next: &mut [Option<u32>],
) -> Result<(), AllocError>
    requires siblings { HasSiblings rows.now first.old next.old }
    ensures { OnOk result (HasChildren rows.now first.new next.new) }
{
    let mut ranks = Vec::new(alloc);
    for head in first.iter_mut() {
        *head = ordered(rows, next, *head, &mut ranks)?;
    }
    Ok(())
}

/// The children of each row, in order.
pub fn children_of(alloc: Global, rows: &[Branch]) -> Result<Children, AllocError>
    requires forest { HasForest rows.now }
    requires few { length rows.now < 2 ^ 32 }
    ensures { IfOk result (λ children. HasChildren rows.now children.first.items children.next.items) }
{
    let mut children = linked(alloc, rows)?;
    order_all(alloc, rows, &mut children.first, &mut children.next)?;
    Ok(children)
}

fn push_some(stack: &mut Vec<u32>, row: Option<u32>) -> Result<(), AllocError>
    ensures { OnOk result (stack.new.items ≡ stack.old.items ++ option_to_list row) }
{
    if let Some(row) = row {
        stack.push(row)?;
    }
    Ok(())
}

/// The rows in preorder. The stack holds the row that comes next at each depth.
pub fn listed(alloc: Global, rows: &[Branch], children: &Children) -> Result<Vec<u32>, AllocError>
    requires forest { HasForest rows.now }
    requires children { HasChildren rows.now children.now.first.items children.now.next.items }
    ensures keys { IfOk result (λ out. (xs : List Weighed) (ks : List (List ℕ)) → IsForest xs ks rows.now → map (key ks) out.items ≡ keys_of xs) }
    ensures in_rows { IfOk result (λ out. All (λ row. row < length rows.now) out.items) }
    ensures few { IfOk result (λ out. length out.items ≤ length rows.now) }
{
    let mut out = Vec::with_capacity(alloc, rows.len())?;
    let mut stack = Vec::new(alloc);
    push_some(&mut stack, children.first[0])?;
    while let Some(row) = stack.pop() {
        out.push(row)?;
        push_some(&mut stack, children.next[row as usize])?;
        push_some(&mut stack, children.first[row as usize + 1])?;
    }
    Ok(out)
}
