//! The desk: what the program does, over the outside that it is handed.
#![tactic(auto)]

mod breaks;
mod desk;
mod lines;
mod opened;
mod outcome;
mod playing;
mod reading;
mod serving;
mod status;
mod summary;
mod telling;
mod words;

pub use desk::{refuse, run};
pub use prof_machine::{Refusal, Reply};
pub use prof_reply::reply_text;
pub use prof_words::WordRefusal;
pub use status::Status;
pub use words::{Order, read_words};
