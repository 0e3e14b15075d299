//! Why a text isn't read.
use thiserror::Error;

/// Why a text isn't read.
#[derive(Clone, Copy, Debug, PartialEq, Eq, Error)]
pub enum TextRefusal {
    /// No value has this text. The place is the length of its longest front with which some value's text begins.
    #[error("the text is wrong at byte {at}")]
    BadAddress { at: u64 },
    #[error("memory ran out")]
    NoMemory,
}
