//! Texts with one spelling, read a part at a time.
#![tactic(auto)]

mod cursor;
mod search;
mod utf8;
mod word;
mod writing;

pub use cursor::{Cursor, Stop};
pub use utf8::Due;
pub use word::Word;
pub use writing::{push_number, push_search, push_signed};
