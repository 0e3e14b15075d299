// What a call of the reader answers.

/// An event of a JSON text.
#[derive(Clone, Copy, Debug, PartialEq, Eq)]
pub enum Event {
    ObjectStart,
    ObjectEnd,
    ArrayStart,
    ArrayEnd,
    /// The name of a member. Its value follows.
    Name,
    Str,
    Number,
    True,
    False,
    Null,
    /// The whole text was read.
    End,
}
