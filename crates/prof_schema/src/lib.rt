//! Tables whose `schema` gives the places of their columns and whose `data` has their rows, gathered in one pass.
//!
//! The schema may stand behind the rows, so of each row all cells are kept that a place may name. Of the rows at most one
//! more than the limit is kept, so memory is bounded by the text that was read.
#![tactic(auto)]

mod cells;
mod columns;
mod fields;
mod laws;
mod reading;
mod row;
mod rows;
mod schema;
mod table;

pub use cells::RowCell;
pub use columns::{PlacedTexts, placed_column, placed_texts};
pub use fields::MarkerFields;
pub use laws::whole_is_scaled;
pub use reading::PlacedReading;
pub use rows::{Rows, read_rows};
pub use schema::Schema;
pub use table::{PlacedMember, PlacedTable, placed_member};
