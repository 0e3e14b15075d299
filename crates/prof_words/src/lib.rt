//! The words of the command line: what they ask for.
#![tactic(auto)]

mod command;
mod files;
mod numbers;
mod order;
mod orders;
mod parser;
mod parts;
mod words;

pub use files::NamedFiles;
pub use numbers::Threads;
pub use order::{Order, Strategy, WordRefusal};
pub use words::read_words;
