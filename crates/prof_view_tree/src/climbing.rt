//! The rows of the tree of reversed paths, out of the rows of stacks: below each node stand the prefixes of the rows that
//! stand at it.
ghost use Rattle.std.specs.Prelude.{◌≡◌, ◌+◌, ◌<◌, ◌≤◌, ◌++◌, ◌∷◌, [], ℕ, List, length, Option, IfOk, OnOk, slice_index_or};
ghost use Rattle.std.specs.HashMap.{get};
ghost use Rattle.prof_tables.specs.declared.rows.StackRow.{StackRow};
ghost use Rattle.prof_tables.specs.Paths.{PrefixesBelow, step_of};
ghost use Rattle.prof_view_tree.specs.Climbing.{AreAbove, AreClimbed, AreComing, AreShort, AreTooMany};
ghost use Rattle.prof_tree.specs.Forest.{key_above};
ghost use Rattle.prof_view_tree.specs.Groups.{AreEntries};
ghost use Rattle.prof_tree.specs.Growing.{IsTable, Adds, pair_eq};
ghost use Rattle.prof_tree.specs.Nodes.{Weighed, node_limit};
ghost use Rattle.prof_view_tree.specs.Sprouting.{AreWeighed};
ghost use Rattle.prof_view_tree.specs.Weighing.{back_path, held, no_row};

use crate::groups::{Entry, entries_of, no_seats, prefixes_of, stand, take_group};
use crate::row_weight::RowWeight;
use prof_path::Step;
use prof_tables::StackRow;
use prof_tree::{Branch, Index, InvertRefusal, NODE_LIMIT, add_total, child};
use std::alloc::{AllocError, Global};
use std::collections::HashMap;

/// A tree of reversed paths that grows node by node, with the stack rows that stand at each node below which no node has
/// come yet: each row once, with the weight of all samples that come to it there.
#[derive(Drop)]
struct Climb {
    rows: Vec<Branch>,
    index: Index,
    groups: Vec<Vec<Entry>>,
}

impl Climb {
    /// No node has come yet.
    fn new(alloc: Global) -> Self
        ensures rows { length result.rows.items ≡ 0 }
        ensures coming { (stacks : List StackRow) (zs : List Weighed)
            → AreComing stacks zs 0 None (length result.rows.items) [] [] result.rows.items (get pair_eq result.index) result.groups.items }
    {
        Climb {
            rows: Vec::new(alloc),
            index: HashMap::new(alloc),
            groups: Vec::new(alloc),
        }
    }

    /// Puts an entry below a node, or to the roots.
    fn put(
        &mut self,
        alloc: Global,
        parent: Option<u32>,
        depth: u32,
        step: Step,
        entry: Entry,
    ) -> Result<(), AllocError>
        requires coming { (stacks : List StackRow) × (zs : List Weighed) × (n : ℕ) × (m : ℕ) × (es : List Entry) × (ks : List (List ℕ))
            × AreComing stacks zs n parent m es ks self.old.rows.items (get pair_eq self.old.index) self.old.groups.items
            × AreEntries (length stacks) (es ++ entry ∷ []) × (depth ≡ length (key_above ks parent)) }
        ensures { OnOk result ((stacks : List StackRow) (zs : List Weighed) (n m : ℕ) (es : List Entry) (ks : List (List ℕ))
            → AreComing stacks zs n parent m es ks self.old.rows.items (get pair_eq self.old.index) self.old.groups.items
            → AreEntries (length stacks) (es ++ entry ∷ []) → PrefixesBelow stacks → step ≡ step_of (slice_index_or stacks entry.row no_row) → depth ≡ length (key_above ks parent)
            → (ks' : List (List ℕ)) × AreComing stacks zs n parent m (es ++ entry ∷ []) ks' self.new.rows.items (get pair_eq self.new.index) self.new.groups.items
            × (key_above ks' parent ≡ key_above ks parent)) }
    {
        let node = child(&mut self.rows, &mut self.index, parent, depth, step)?;
        add_total(&mut self.rows, node, step, entry.weight);
        stand(alloc, &mut self.groups, node, entry)?;
        Ok(())
    }

    /// Puts all entries below a node, or to the roots. It stops as soon as the nodes are more than an inverted tree may have.
    fn put_all(
        &mut self,
        alloc: Global,
        stacks: &[StackRow],
        parent: Option<u32>,
        depth: u32,
        entries: &[Entry],
    ) -> Result<(), InvertRefusal>
        requires below { PrefixesBelow stacks.now }
        requires rows { length self.old.rows.items ≤ node_limit }
        requires coming { (zs : List Weighed) × (n : ℕ) × (ks : List (List ℕ))
            × AreComing stacks.now zs n parent (length self.old.rows.items) [] ks self.old.rows.items (get pair_eq self.old.index) self.old.groups.items
            × AreAbove stacks.now zs parent ks entries.now × (depth ≡ length (key_above ks parent)) }
        ensures climbed { OnOk result ((zs : List Weighed) (n : ℕ) (ks : List (List ℕ))
            → AreComing stacks.now zs n parent (length self.old.rows.items) [] ks self.old.rows.items (get pair_eq self.old.index) self.old.groups.items
            → AreAbove stacks.now zs parent ks entries.now → depth ≡ length (key_above ks parent)
            → (ks' : List (List ℕ)) × AreClimbed stacks.now zs n ks' self.new.rows.items (get pair_eq self.new.index) self.new.groups.items) }
        ensures within { OnOk result (length self.new.rows.items ≤ node_limit) }
        ensures many { (limit : ℕ) → result ≡ Err (InvertRefusal.TooManyNodes limit) → (limit ≡ node_limit) × ((zs : List Weighed) (n : ℕ) (ks : List (List ℕ))
            → AreComing stacks.now zs n parent (length self.old.rows.items) [] ks self.old.rows.items (get pair_eq self.old.index) self.old.groups.items
            → AreAbove stacks.now zs parent ks entries.now → depth ≡ length (key_above ks parent) → AreTooMany zs) }
    {
        for entry in entries {
            let stack = stacks[entry.row as usize];
            let step = Step {
                func: stack.func,
                category: stack.category,
            };
            self.put(alloc, parent, depth, step, *entry)?;
            if self.rows.len() as u64 > NODE_LIMIT {
                return Err(InvertRefusal::TooManyNodes { limit: NODE_LIMIT });
            }
        }
        Ok(())
    }

    /// Puts the prefixes of the rows that stand at a node below it.
    fn widen(
        &mut self,
        alloc: Global,
        stacks: &[StackRow],
        seats: &mut [usize],
        node: usize,
    ) -> Result<(), InvertRefusal>
        requires below { PrefixesBelow stacks.now }
        requires seats { length seats.old ≡ length stacks.now }
        requires rows { length self.old.rows.items ≤ node_limit }
        requires node { node < length self.old.rows.items }
        requires climbed { (zs : List Weighed) × (ks : List (List ℕ)) × AreShort zs
            × AreClimbed stacks.now zs node ks self.old.rows.items (get pair_eq self.old.index) self.old.groups.items }
        ensures climbed { OnOk result ((zs : List Weighed) (ks : List (List ℕ)) → AreShort zs
            → AreClimbed stacks.now zs node ks self.old.rows.items (get pair_eq self.old.index) self.old.groups.items
            → (ks' : List (List ℕ)) × AreClimbed stacks.now zs (node + 1) ks' self.new.rows.items (get pair_eq self.new.index) self.new.groups.items) }
        ensures within { OnOk result (length self.new.rows.items ≤ node_limit) }
        ensures many { (limit : ℕ) → result ≡ Err (InvertRefusal.TooManyNodes limit) → (limit ≡ node_limit) × ((zs : List Weighed) (ks : List (List ℕ)) → AreShort zs
            → AreClimbed stacks.now zs node ks self.old.rows.items (get pair_eq self.old.index) self.old.groups.items → AreTooMany zs) }
    {
        let group = take_group(alloc, &mut self.groups, node);
        let above = prefixes_of(alloc, stacks, &group, seats)?;
        let depth = self.rows[node].depth + 1;
        self.put_all(alloc, stacks, Some(node as u32), depth, &above)
    }
}

/// The rows of the tree of the reversed paths of samples that stand on these stack rows, where `own` has the weight of
/// those on each. It stops as soon as they are more than an inverted tree may have.
pub(crate) fn grown_upward(
    alloc: Global,
    stacks: &[StackRow],
    own: &[RowWeight],
) -> Result<Vec<Branch>, InvertRefusal>
    requires { AreWeighed stacks.now own.now }
    ensures grown { IfOk result (λ rows. (ks : List (List ℕ)) × (look : (Option ℕ × ℕ → Option ℕ))
        × IsTable ks rows.items look × Adds (held (back_path stacks.now) 0 own.now) ks rows.items) }
    ensures within { IfOk result (λ rows. length rows.items ≤ node_limit) }
    ensures many { (limit : ℕ) → result ≡ Err (InvertRefusal.TooManyNodes limit)
        → (limit ≡ node_limit) × AreTooMany (held (back_path stacks.now) 0 own.now) }
{
    let mut climb = Climb::new(alloc);
    let mut seats = no_seats(alloc, stacks.len())?;
    let leaves = entries_of(alloc, own)?;
    climb.put_all(alloc, stacks, None, 0, &leaves)?;
    let mut node = 0;
    while node < climb.rows.len() {
        climb.widen(alloc, stacks, &mut seats, node)?;
        node += 1;
    }
    let Climb {
        rows,
        index: _index,
        groups: _groups,
    } = climb;
    Ok(rows)
}
