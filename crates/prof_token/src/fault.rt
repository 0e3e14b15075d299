// Why a reading doesn't go on.

/// Why no token came, and so no event.
#[derive(Clone, Copy, Debug, PartialEq, Eq)]
pub enum JsonFault {
    /// The bytes before the one at `at` begin a JSON text, and with it they begin none. Where the text ends too early,
    /// `at` is its length.
    NotJson { at: u64 },
    /// The bracket at `at` opens depth 257.
    TooDeep { at: u64 },
    /// A byte stands at the limit.
    TooLong,
    /// The source failed, and counted it.
    ReadFault,
    /// Memory ran out.
    NoMemory,
}
