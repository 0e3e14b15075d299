//! What profile a JSON value is, or the first check that it fails, with the laws of these definitions.
#![tactic(auto)]

mod laws;
mod reading;

pub use laws::{caps_soundly, clamps_soundly, keeps_enough, one_profile, one_scaled, one_whole};
pub use reading::Reading;
