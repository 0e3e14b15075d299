//! Profiles written as JSON texts.
#![tactic(auto)]

mod arrays;
mod categories;
mod frames;
mod funcs;
mod lines;
mod marker_texts;
mod markers;
mod profile;
mod samples;
mod stacks;
mod thread;

pub use profile::write_profile;
