//! A streaming reader of JSON texts, whose faults name their place.
#![tactic(auto)]

mod answer;
mod behind;
pub mod laws;
mod nesting;
mod plain;
mod reading;
mod steps;
mod value;

pub use answer::Event;
pub use nesting::{Bracket, Phase};
pub use prof_token::JsonFault;
pub use reading::Reader;
