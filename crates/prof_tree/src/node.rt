//! The nodes of a tree, and why a tree is refused.
use prof_io::NoMemory;
use std::alloc::AllocError;
use std::marker::Model;

/// A node of a call tree: a list of functions, the last of which is `func`, with which some path begins. A root has depth
/// 0. The total is the weight of the paths that begin with the list, and `own` the self weight, that of the paths that
/// are the list, both in the unit of the weights that the tree is made of. The category is the one that the node's steps
/// have, or the default where they have several.
#[derive(Clone, Copy, Debug, PartialEq, Eq)]
pub struct Node {
    pub depth: u32,
    pub func: u32,
    pub total: i128,
    pub own: i128,
    pub category: u32,
}

/// A call tree: its nodes in preorder, the weight of all paths, and that of the paths without a step.
#[derive(Drop)]
pub struct Tree {
    pub nodes: Vec<Node>,
    pub selected: i128,
    pub dropped: i128,
}

impl Model for Tree {
    ghost use Rattle.prof_tree.specs.Trees.{TreeLists};

    ghost Value = { TreeLists };

    ghost view = { λ t. record { nodes = t.nodes.items; selected = t.selected; dropped = t.dropped } };
}

/// Why there is no inverted tree: it has more nodes than the limit, or memory ran out.
#[derive(Clone, Copy, Debug, PartialEq, Eq)]
pub enum InvertRefusal {
    TooManyNodes { limit: u64 },
    NoMemory,
}

impl From<NoMemory> for InvertRefusal {
    ghost use Rattle.std.specs.Prelude.{◌≡◌};
    ghost use Rattle.prof_tree.specs.declared.node.InvertRefusal.TheVariants.{NoMemory};

    ghost from_gives = { λ _ refusal. refusal ≡ NoMemory };

    fn from(_error: NoMemory) -> Self {
        InvertRefusal::NoMemory
    }
}

impl From<AllocError> for InvertRefusal {
    ghost use Rattle.std.specs.Prelude.{◌≡◌};
    ghost use Rattle.prof_tree.specs.declared.node.InvertRefusal.TheVariants.{NoMemory};

    ghost from_gives = { λ _ refusal. refusal ≡ NoMemory };

    fn from(_error: AllocError) -> Self {
        InvertRefusal::NoMemory
    }
}
