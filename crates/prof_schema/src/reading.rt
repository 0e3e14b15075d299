//! How the cells of a placed column are read.

/// How the cells of a column are read that stands at a place of each row.
#[derive(Clone, Copy)]
pub enum PlacedReading {
    /// A whole number.
    Index,
    /// A whole number or null.
    MaybeIndex,
    /// A whole number that names a phase.
    Phase,
    /// A number of milliseconds, in nanoseconds.
    Time,
    /// The same, or null.
    MaybeTime,
    /// `true` is true, and all else is false.
    True,
    /// Any value, of which none is kept.
    Any,
}
