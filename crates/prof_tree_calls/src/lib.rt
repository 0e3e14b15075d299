//! The worked trees, by the public calls of trees of paths and of trees out of layers. Tests alone.
#![tactic(auto)]

#[cfg(test)]
mod trees;
#[cfg(test)]
mod worked;
