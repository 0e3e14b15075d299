//! The connections of a hall, served one after another.
#![tactic(auto)]

mod hall;

pub use hall::{Served, serve_hall};
