//! A hall of connections over the system's sockets. What comes on them and what is written to them is not told.
#![tactic(auto)]

mod listener;
mod peer;
#[cfg(test)]
mod tests;

pub use listener::OsHall;
