//! Call trees of paths with weights, plain and inverted, as the Firefox Profiler shows them: the nodes with their totals
//! and self weights, in preorder. Of these a tree of a whole list of paths is made at once; the rows that a tree grows of are
//! public for those that grow it another way.
#![tactic(auto)]

mod branch;
mod builder;
mod finishing;
mod growing;
mod listing;
mod node;
mod tree;

pub use branch::Branch;
pub use finishing::{finish, weigh_roots};
pub use growing::{Index, NODE_LIMIT, add_own, add_total, child, plus};
pub use node::{InvertRefusal, Node, Tree};
pub use tree::{of_paths, of_reversed};
