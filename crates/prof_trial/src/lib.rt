//! The demo: its lines, played on the profile that a number makes, of which the first line of each reply is written.
#![tactic(auto)]

mod first;
mod kept;
mod playing;
mod profile;
mod trial;

pub use profile::made_profile;
pub use trial::play_trial;
