//! A tree that grows by one path after another.
ghost use Rattle.std.specs.Prelude.{◌≡◌, ◌++◌, ◌∷◌, ◌^◌, ◌<◌, ◌+ℤ◌, ℕ, List, [], length, map, IfOk, OnOk};
ghost use Rattle.prof_tree.specs.Building.{Holds};
ghost use Rattle.prof_tree.specs.Nodes.{Weighed, nodes_of, node_at, AreKeys, total, dropped_of, root_total, own_total};

use crate::branch::Branch;
use crate::finishing::finish;
use crate::growing::{End, Index, plus, walk};
use crate::node::Tree;
use prof_io::NoMemory;
use prof_path::Step;
use std::alloc::Global;
use std::collections::HashMap;

/// The call tree of the paths that were added so far. It keeps the nodes and none of the paths.
#[derive(Drop)]
pub struct TreeBuilder {
    rows: Vec<Branch>,
    index: Index,
    selected: i128,
    dropped: i128,
}

impl TreeBuilder {
    pub fn new(alloc: Global) -> TreeBuilder
        ensures { Holds [] result }
    {
        TreeBuilder {
            rows: Vec::new(alloc),
            index: HashMap::new(alloc),
            selected: 0,
            dropped: 0,
        }
    }

    /// Adds a path, the root's step first, and its weight. After want of memory the builder is to be dropped.
    pub fn add(&mut self, path: &[Step], weight: i64) -> Result<(), NoMemory>
        requires held { (xs : List Weighed) × Holds xs self.old × (length xs < 8388608) }
        requires short { length path.now < 2 ^ 32 }
        ensures { OnOk result ((xs : List Weighed) → Holds xs self.old → length xs < 8388608 → Holds (xs ++ record { steps = path.now; weight = weight } ∷ []) self.new) }
    {
        walk(&mut self.rows, &mut self.index, path, End::Root, weight)?;
        self.selected = plus(self.selected, weight);
        if path.is_empty() {
            self.dropped = plus(self.dropped, weight);
        }
        Ok(())
    }

    /// The tree, where `default` is the category of a node whose steps have several.
    pub fn finish(self, alloc: Global, default: u32) -> Result<Tree, NoMemory>
        requires { (xs : List Weighed) × Holds xs self }
        ensures nodes { IfOk result (λ tree. (xs : List Weighed) → Holds xs self → tree.nodes ≡ nodes_of default xs) }
        ensures selected { IfOk result (λ tree. (xs : List Weighed) → Holds xs self → tree.selected ≡ total xs) }
        ensures each_once { IfOk result (λ tree. (xs : List Weighed) → Holds xs self → (keys : List (List ℕ)) × AreKeys xs keys × (tree.nodes ≡ map (node_at default xs) keys)) }
        ensures dropped { IfOk result (λ tree. (xs : List Weighed) → Holds xs self → tree.dropped ≡ dropped_of xs) }

        // The weights balance.
        ensures roots { IfOk result (λ tree. root_total tree.nodes +ℤ tree.dropped ≡ tree.selected) }
        ensures selves { IfOk result (λ tree. own_total tree.nodes +ℤ tree.dropped ≡ tree.selected) }
    {
        let TreeBuilder {
            rows,
            index: _index,
            selected,
            dropped,
        } = self;
        let nodes = finish(alloc, &rows, default)?;
        Ok(Tree {
            nodes,
            selected,
            dropped,
        })
    }
}
