//! The profiles of the worked cases and the transforms of their views, as the tests of several crates take them.
#![tactic(auto)]

mod changes;
pub mod profiles;

pub use changes::{Change, funcs_of, spans_of, text_of, transform_of};
pub use profiles::{profile_of, thread_of};
