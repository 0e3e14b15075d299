//! Raw columns, as the tables of a profile are gathered, and the checks of them in a fixed order.
#![tactic(auto)]

mod cell_list;
pub mod cells;
mod check;
mod column;
mod limits;
mod moment;
mod place;
mod raw;
mod rule;
mod strings;
mod thread;

pub use cell_list::CellList;
pub use check::{
    check_frames, check_funcs, check_markers, check_own, check_resources, check_samples,
    check_shared, check_stacks, check_strings,
};
pub use column::{CellKind, Size, counted_fault, size_fault, state_fault, whole_fault};
pub use limits::{
    GREATEST, MOST_CATEGORIES, MOST_FUNCS, MOST_ROWS, MOST_SAMPLES, MOST_STRINGS, MOST_THREADS,
};
pub use moment::{Moment, next_sum, time_column, time_fault};
pub use place::{Place, first_column, needed_column, optional_column, pass, table_length};
pub use raw::{RawColumn, RawOwn, RawShared, State, TableLength, Unit};
pub use rule::{BadCell, Broken, Column, ListFault, Rule, Table};
pub use strings::Strings;
pub use thread::RawThread;
