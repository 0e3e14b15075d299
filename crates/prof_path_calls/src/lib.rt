//! The public calls of paths and of layers, each on its happy path, and on worked cases. Tests alone.
#![tactic(auto)]

#[cfg(test)]
mod layers;
#[cfg(test)]
mod paths;
