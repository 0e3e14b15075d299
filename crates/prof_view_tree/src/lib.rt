//! The call trees of a thread's samples, plain and inverted: under a view, out of the rows of the layers, and by the samples'
//! own paths, out of the thread's stack rows. What the samples weigh is added up by rows, and no path is held.
#![tactic(auto)]

mod climbing;
mod finding;
mod groups;
mod inverted_tree;
mod own;
mod plain_tree;
mod row_weight;
mod showing;
mod sprouting;
mod viewing;
mod weighing;

pub use inverted_tree::inverted;
pub use own::own_tree;
pub use plain_tree::plain;
