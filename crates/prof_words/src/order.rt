//! What words ask for.
use crate::files::NamedFiles;
use crate::numbers::Threads;
use prof_io::Text;

/// Which allocations are weighed.
#[derive(Clone, Copy, Debug, PartialEq, Eq)]
pub enum Strategy {
    Allocated,
    AtSite,
    ByAllocation,
    Retained,
}

/// What the words ask for.
#[derive(Drop)]
pub enum Order {
    /// The call tree of the profile's first thread.
    Tree {
        profile: Text,
    },
    /// The markers of a thread that a search finds.
    Markers {
        profile: Text,
        thread: u32,
        search: Text,
    },
    /// The answers to the lines of a script.
    Script {
        profile: Text,
        script: Text,
    },
    /// The answers to the messages of so many connections. The sessions are saved under a name.
    Serve {
        port: u16,
        connections: u32,
        sessions: Text,
        profiles: NamedFiles,
    },
    /// What a profile holds, in numbers.
    Check {
        profile: Text,
    },
    /// The profile, written anew.
    Convert {
        profile: Text,
    },
    /// A profile that is made by a number.
    Gen {
        number: u32,
    },
    /// The answers to some requests over such a profile.
    Demo {
        number: u32,
    },
    /// The flame graph of a view.
    Flame {
        profile: Text,
        view: Text,
    },
    /// The stack chart of a view.
    Chart {
        profile: Text,
        view: Text,
    },
    /// The call tree of a thread's allocations under a view.
    Alloc {
        profile: Text,
        strategy: Strategy,
        view: Text,
    },
    /// The call tree of several threads as one, under a view.
    Merge {
        profile: Text,
        threads: Threads,
        view: Text,
    },
}

/// Why the words were refused.
#[derive(Clone, Copy, Debug, PartialEq, Eq)]
pub enum WordRefusal {
    /// They ask for nothing that there is.
    Usage,
    NoMemory,
}
