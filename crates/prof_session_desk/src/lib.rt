//! The desk: profiles and sessions on them by their names, and requests answered as the machine answers them.
#![tactic(auto)]

mod answer;
mod answering;
mod desk;
mod keeping;
mod laws;

pub use desk::Desk;
pub use laws::{alike_desks_answer_alike, repeat_is_answered_again, saved_is_loaded_again};
