//! What is gathered of the members of a profile: of each of its objects and lists, up to those of the whole text.
//!
//! Of each list and column at most one row more than its limit is kept, so memory is bounded whatever the text.
#![tactic(auto)]

mod categories;
mod lists;
mod markers;
mod parts;
mod samples;
mod shared;
mod threads;

pub use categories::category_list;
pub use lists::{CategoryList, MarkerData, ThreadList};
pub use markers::MarkerTable;
pub use parts::{Meta, ProfileParts};
pub use samples::{SampleTable, Weights};
pub use shared::{FrameTable, FuncTable, ResourceTable, SharedTables, StackTable};
pub use threads::ThreadParts;
