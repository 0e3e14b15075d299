//! The tables of a profile's threads, built of raw columns that are checked in a fixed order.
#![tactic(auto)]

mod held;
mod index;
mod law;
mod make;
mod markers;
mod own;
mod profile;
mod refusal;
mod rows;
mod samples;
mod shared;
mod stacks;
mod thread;

pub use law::{path_of_earlier_row, path_of_row};
pub use markers::{RawMarker, RawMarkers};
pub use prof_raw::{
    BadCell, Broken, Column, ListFault, RawColumn, RawOwn, RawShared, RawThread, Rule, State,
    Strings, Table, TableLength, Unit,
};
pub use profile::Profile;
pub use refusal::BuildRefusal;
pub use rows::{FrameRow, FuncStrings, SampleRow, StackRow, Step};
pub use shared::Shared;
pub use stacks::{Stacks, StacksBuilder};
pub use thread::Thread;
