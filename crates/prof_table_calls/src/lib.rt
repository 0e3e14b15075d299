//! The public calls of the tables, of markers and of the reader of profiles: each on its happy path, and on worked
//! cases. Tests alone.
#![tactic(auto)]

#[cfg(test)]
mod lengths;
#[cfg(test)]
mod markers;
#[cfg(test)]
mod tables;
