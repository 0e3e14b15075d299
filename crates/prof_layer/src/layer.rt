//! The rows that a transform makes, over the base.
use prof_tables::Stacks;

/// Rows, and for each row of the base where its path went among them.
#[derive(Drop)]
pub(crate) struct Table {
    pub(crate) rows: Stacks,
    pub(crate) entries: Vec<Option<u32>>,
}
