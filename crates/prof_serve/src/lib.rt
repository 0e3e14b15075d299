//! Connections served: each message is answered as a request to a desk.
#![tactic(auto)]

mod answering;
mod asking;
mod body;
mod replying;
mod serving;
mod statuses;

pub use serving::{ConnEnd, serve_connection};
