//! Shared stack tables, rewritten by one transform after another: one pass over rows for each, and no list for each sample.
#![tactic(auto)]

mod acts;
mod focusing;
mod layer;
mod layers;
mod passing;
mod periods;
mod rewriting;
mod settling;

pub use layers::Layers;
pub use settling::same;
