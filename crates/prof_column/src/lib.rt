//! Raw columns and lists of strings, gathered out of JSON texts.
//!
//! Of each column and list at most one row more than its limit is kept, so memory is bounded whatever the text.
#![tactic(auto)]

mod cells;
mod columns;
mod list;
mod texts;

pub use cells::{Cell, cell};
pub use columns::{add_cell, column, empty_column, state_of, table_length};
pub use list::TextList;
pub use texts::{text, text_list, whole};
