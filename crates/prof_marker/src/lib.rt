//! The markers of a thread, and the search among them.
#![tactic(auto)]

mod alone;
mod drafts;
mod laws;
mod list;
mod pairing;
mod searching;
mod seeker;
mod times;

pub use laws::pair_by_row;
pub use list::{Marker, MarkerList};
pub use pairing::derive;
pub use searching::{search, spans};
