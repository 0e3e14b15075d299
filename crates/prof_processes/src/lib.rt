//! The processes of Gecko profiles, gathered out of JSON texts.
//!
//! Of each list and column of a thread at most one row more than its limit is kept, so memory is bounded by the text that
//! was read.
#![tactic(auto)]

mod fault;
mod held;
mod libs;
mod list;
mod process;
mod start;
mod tables;
mod thread;

pub use held::{HeldTable, row_table, sample_rows};
pub use libs::{LibList, LibMembers, lib_list};
pub use list::{ThreadList, thread_list};
pub use process::{Children, ProcessMembers, child_list, read_process};
pub use start::{ProcessStart, process_start};
pub use tables::{MarkerParts, frame_table, marker_parts, sample_table, stack_table};
pub use thread::ThreadMembers;
