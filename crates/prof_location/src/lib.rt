//! What the locations of frames in Gecko profiles say.
#![tactic(auto)]

mod address;
mod location;

pub use location::{Location, classify};
