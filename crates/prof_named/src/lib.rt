//! Names that are found without a walk over all of them.
#![tactic(auto)]

mod names;

pub use names::{Names, places_agree};
