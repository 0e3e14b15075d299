//! A node while a tree is built.

/// A row of a tree that is being built: the place of its parent's row, and what is known of its node. A parent's row
/// stands before those of its children. A category of None says that the node's steps have several.
#[derive(Clone, Copy, Debug)]
pub struct Branch {
    pub parent: Option<u32>,
    pub depth: u32,
    pub func: u32,
    pub total: i128,
    pub own: i128,
    pub category: Option<u32>,
}
