//! A keeper of texts over a database, in memory or in a file that SQLite's own programs read. What it keeps is not told.
#![tactic(auto)]

mod base;
mod sql_keeper;
mod table;

pub use sql_keeper::SqlKeeper;
