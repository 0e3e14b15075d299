//! Answers to requests.
use prof_address::ViewText;
use prof_io::Digest;
use prof_marker::MarkerList;
use prof_tree::Tree;

/// Why a request is refused.
#[derive(Drop)]
pub enum Refusal {
    /// No session has that name.
    NoSession,
    /// A session has that name.
    NameTaken,
    /// No profile has that name.
    NoProfile,
    /// The profile has no such thread, and so many threads.
    NoThread { threads: u32 },
    /// The change is meant for another version than the session has.
    Stale { version: u32 },
    FuncOut { func: u32 },
    ResourceOut { resource: u32 },
    CategoryOut { category: u32 },
    EmptyPath,
    LongPath { length: u64 },
    /// There are 32 transforms already, or more in an address.
    TooManyTransforms,
    /// A range ends before it starts, or one of its ends is past the times.
    BadRange,
    /// There are 16 ranges already, or more in an address.
    TooManyRanges,
    /// Fewer transforms or ranges are there than are to be kept.
    DepthOut { depth: u32 },
    NothingToUndo,
    NothingToRedo,
    /// No view has the address.
    BadAddress { at: u64 },
    TooManySessions,
    /// Nothing is kept under that name.
    NotSaved,
    /// What is kept is no saved session, or has a view that breaks a rule.
    BadSaved { at: u64 },
    /// What is kept was saved of another profile.
    OtherProfile { kept: Digest, here: Digest },
    TooManyNodes { limit: u64 },
    /// A search is over 256 bytes or 8 terms.
    LongSearch,
    /// No version comes after the session's.
    VersionEnd,
    /// The keeper has failed, and has counted it.
    KeeperFault,
    /// A line is no request. No session answers it.
    BadText { at: u64 },
}

/// What is answered to a request.
#[derive(Drop)]
pub enum Reply {
    Done { version: u32 },
    Closed,
    Tree(Tree),
    Inverted(Tree),
    Markers(MarkerList),
    Address(ViewText),
    Refused(Refusal),
    NoMemory,
}
