//! The system's files and streams as objects of the outside. What they hold is not told.
#![tactic(auto)]

mod files;

pub use files::{OsFiles, OsSink};
