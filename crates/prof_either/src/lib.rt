//! What is gathered of the members of a text that may be a profile of either form.
//!
//! The form is known only when the last `meta` was read. So of each thread both readings are kept, of each list and column
//! at most one row more than its limit, and memory is bounded by the text that was read.
#![tactic(auto)]

mod details;
mod gathered;
mod laws;
mod markers;
mod meta;
mod parts;
mod table;
mod thread;
mod threads;
mod ways;

pub use details::{BothDetails, both_details};
pub use gathered::{EitherParts, ThreadLists};
pub use laws::keeps_enough;
pub use markers::BothMarkers;
pub use meta::EitherMeta;
pub use parts::GeckoParts;
pub use table::{BothWays, NamedTable};
pub use thread::EitherThread;
pub use threads::thread_lists;
pub use ways::{apart, markers_apart};
