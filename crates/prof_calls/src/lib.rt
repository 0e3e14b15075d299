//! The public calls of the outside in memory, of numbers, of JSON texts and of their writer: each on its happy path, and
//! on texts from outside. Tests alone.
#![tactic(auto)]

#[cfg(test)]
mod numbers;
#[cfg(test)]
mod outside;
#[cfg(test)]
mod reading;
#[cfg(test)]
mod writing;
