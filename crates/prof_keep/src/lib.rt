//! The texts of saved sessions.
#![tactic(auto)]

mod head;
mod reading;
mod saved;
mod writing;

pub use reading::read_saved;
pub use saved::Saved;
pub use writing::write_saved;
