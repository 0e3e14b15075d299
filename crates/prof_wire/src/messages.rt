// A message, and why there is none.

/// What a message asks for by its method.
#[derive(Clone, Copy, Debug, PartialEq, Eq)]
pub enum Verb {
    /// The method `GET`.
    Get,
    /// The method `POST`.
    Post,
    /// Another method.
    Other,
}

/// Why a message is bad.
#[derive(Clone, Copy, Debug, PartialEq, Eq)]
pub enum Why {
    /// The parser refuses its head.
    Head,
    /// The connection's bytes end inside it.
    Cut,
    /// It is of version 1.1, and has no `Host` field or several.
    Host,
    /// A `Content-Length` isn't 1 to 18 decimal digits, or two of them differ.
    Length,
}

/// Why there is no further message.
#[derive(Clone, Copy, Debug, PartialEq, Eq)]
pub enum WireEnd {
    /// The connection's bytes ended between messages.
    End,
    /// The hall has failed, and has counted it.
    HallFault,
    /// The message is bad.
    Bad(Why),
    /// As many bytes as a head may have hold no whole head.
    HeadTooLong,
    /// The body has more than 65,536 bytes.
    BodyTooLong,
    /// The body has a transfer coding.
    Coded,
    /// The client waits for an answer before it sends the body.
    Expect,
}

/// A message, lent from the buffers of a wire.
#[derive(Clone, Copy, Debug)]
pub struct Message<'a> {
    /// What it asks for.
    pub method: Verb,
    /// What it asks about, as it stands in the head.
    pub target: &'a [u8],
    /// What stands behind the head.
    pub body: &'a [u8],
    /// The connection ends after the answer to it.
    pub last: bool,
}
