//! Decimal texts of JSON numbers as whole numbers of a small decimal unit, and back.
//!
//! A profile's times are decimal texts of milliseconds, and the desk counts in whole nanoseconds: a time is read with
//! six decimals. No memory is taken, and the time is linear in the text, whatever its exponent.
#![tactic(auto)]

mod decimal;
mod digits;
mod laws;
mod reading;
mod short;
mod writing;

pub use laws::{one_exact, one_numeral, one_scaled};
pub use reading::{TimeRange, is_whole, read_exact, read_scaled};
pub use writing::write_scaled;
