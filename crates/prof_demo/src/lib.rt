//! A profile that is made by a number, and not read.
#![tactic(auto)]

mod columns;
mod generating;
mod part;
mod source;

pub use generating::generate;
pub use source::GeneratedSource;
