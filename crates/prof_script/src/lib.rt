//! Scripts: lines of requests, answered one after another.
#![tactic(auto)]

mod lines;
mod playing;

pub use playing::{PlayEnd, play_request, play_script};
