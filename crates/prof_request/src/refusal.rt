//! Why a line isn't read.
use thiserror::Error;

/// How many bytes a line may have.
pub const LINE_LIMIT: u64 = 131_072;

/// Why a line isn't read.
#[derive(Clone, Copy, Debug, PartialEq, Eq, Error)]
pub enum LineRefusal {
    /// No request has this line. The place is the length of its longest front with which some line begins, however long,
    /// but at most the limit.
    #[error("the line is wrong at byte {at}")]
    BadText { at: u64 },
    #[error("memory ran out")]
    NoMemory,
}
