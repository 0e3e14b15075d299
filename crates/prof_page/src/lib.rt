//! Texts that are put together before they are written, so that a write takes many of them.
#![tactic(auto)]

mod column;
mod line;
mod page;

pub use column::{Column, add_column, add_item};
pub use line::{Line, number_line, push_number, scaled_line};
pub use page::{Page, add_line, add_string, add_text, write_page};
