//! How the cells of columns are read.

/// How the cells of a column are read.
#[derive(Clone, Copy, PartialEq, Eq, Debug)]
pub enum Reading {
    /// A whole number.
    Index,
    /// A whole number or null.
    MaybeIndex,
    /// True, false or null.
    Truth,
    /// A whole number that names a phase.
    Phase,
    /// A number, rounded to a whole one.
    Count,
    /// A number of milliseconds, in nanoseconds.
    Time,
    /// The same, or null.
    MaybeTime,
}
