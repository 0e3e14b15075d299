//! Lists and columns that are gathered: of each at most one row more than its limit is kept.
ghost use Rattle.std.specs.Prelude.{◌<◌, ◌≤◌, vec_len};
ghost use Rattle.std.specs.Option.{ForSome};
ghost use Rattle.prof_members.specs.Ranges.{AreRanges};

use crate::threads::ThreadParts;
use prof_io::Text;
use prof_tables::{RawColumn, State};

/// The list of categories that is gathered: at most one more than it may have. `bad` is the first row that is no object
/// with a string name, where the empty name stands, and `grey` is the first that is grey.
#[derive(Drop)]
pub struct CategoryList {
    pub state: State,
    pub names: Vec<Text>,
    pub bad: Option<u32>,
    pub grey: Option<u32>,
    ghost few: { vec_len names ≤ 65537 },
    ghost named: { ForSome grey (λ row. row < vec_len names) },
}

/// The column `data`: the texts of all rows, and the range of each row in them.
#[derive(Drop)]
pub struct MarkerData {
    pub column: RawColumn,
    pub texts: Vec<Text>,
    pub ranges: Vec<(u32, u32)>,
    ghost within: { AreRanges (vec_len texts) ranges.items },
}

/// The list of threads that is gathered: its first rows, at most one more than it may have. `bad` is the first row that
/// is no object; it stands in the list as a thread without members.
#[derive(Drop)]
pub struct ThreadList {
    pub state: State,
    pub threads: Vec<ThreadParts>,
    pub bad: Option<u32>,
    ghost few: { vec_len threads ≤ 1025 },
}
