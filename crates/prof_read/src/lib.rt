//! Profiles read out of their texts.
#![tactic(auto)]

mod building;
mod forms;
mod laws;
mod raw;
mod read;
mod refusal;

pub use laws::one_profile;
pub use read::{Digest, Form, read_profile};
pub use refusal::ReadRefusal;
