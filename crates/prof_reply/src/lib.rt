//! The texts of replies, written into a sink.
#![tactic(auto)]

mod lines;
mod markers;
mod refusal;
mod reply;
mod tree;

pub use reply::reply_text;
