//! A list of strings.
ghost use Rattle.std.specs.Prelude.{◌≤◌, vec_len};

use prof_raw::State;

/// A list of strings that is gathered: at most one more than a list may have. `bad` is the first row that is no string;
/// there the empty text stands.
#[derive(Drop)]
pub struct TextList {
    pub state: State,
    pub texts: Vec<String>,
    pub bad: Option<u32>,
    ghost few: { vec_len texts ≤ 4194305 },
}
