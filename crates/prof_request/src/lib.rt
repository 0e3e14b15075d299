//! The lines of requests, read.
#![tactic(auto)]

mod arguments;
mod command_word;
mod line_text;
mod naming;
mod reading;
mod refusal;
mod request;

pub use reading::read_request;
pub use refusal::{LINE_LIMIT, LineRefusal};
pub use request::{Command, Request};
