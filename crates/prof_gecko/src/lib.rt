//! Gecko profiles, as Firefox itself writes them.
#![tactic(auto)]

mod check;
mod columns;
mod derived;
mod gathered;
mod process;
mod profile;
mod shared;
mod shift;
mod thread;
mod work;

pub use gathered::{GeckoProcess, GeckoProfile, GeckoTable, GeckoThread, TableFault};
pub use prof_gecko_names::Lib;
pub use prof_location::{Location, classify};
pub use profile::convert;
