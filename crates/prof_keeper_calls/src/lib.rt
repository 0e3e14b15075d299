//! The calls of the keeper over a database, in memory and in files. Tests alone.
#![tactic(auto)]

#[cfg(test)]
mod keeping;
#[cfg(test)]
mod scripts;
