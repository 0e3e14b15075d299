//! Requests to a session.
ghost use Rattle.std.specs.Prelude.{◌≡◌, ◌↔◌, IfOk, IsTrue};

use prof_io::{NoMemory, Text};
use prof_layer::same;
use prof_path::{Implementation, Range, Transform};
use std::alloc::Global;

/// What is asked of a session. A change names the version of the session that it is meant for, `at`.
#[derive(Drop)]
pub enum Command {
    OpenOn {
        profile: Text,
        thread: u32,
    },
    LoadOn {
        profile: Text,
    },
    Close,
    Push {
        at: u32,
        transform: Transform,
    },
    PopTo {
        at: u32,
        n: u32,
    },
    CommitRange {
        at: u32,
        range: Range,
    },
    PopRangesTo {
        at: u32,
        n: u32,
    },
    SetImplementation {
        at: u32,
        implementation: Implementation,
    },
    SetSearch {
        at: u32,
        search: Text,
    },
    Undo {
        at: u32,
    },
    Redo {
        at: u32,
    },
    Goto {
        at: u32,
        address: Text,
    },
    Tree,
    Inverted,
    Markers {
        search: Text,
    },
    Address,
    Save,
}

impl Command {
    /// An equal command, in memory of its own.
    pub fn copy(&self, alloc: Global) -> Result<Self, NoMemory>
        ensures { IfOk result (λ command. command ≡ self.now) }
    {
        Ok(match self {
            Command::OpenOn { profile, thread } => Command::OpenOn {
                profile: profile.copy(alloc)?,
                thread: *thread,
            },
            Command::LoadOn { profile } => Command::LoadOn {
                profile: profile.copy(alloc)?,
            },
            Command::Close => Command::Close,
            Command::Push { at, transform } => Command::Push {
                at: *at,
                transform: transform.copy(alloc)?,
            },
            Command::PopTo { at, n } => Command::PopTo { at: *at, n: *n },
            Command::CommitRange { at, range } => Command::CommitRange {
                at: *at,
                range: *range,
            },
            Command::PopRangesTo { at, n } => Command::PopRangesTo { at: *at, n: *n },
            Command::SetImplementation { at, implementation } => Command::SetImplementation {
                at: *at,
                implementation: *implementation,
            },
            Command::SetSearch { at, search } => Command::SetSearch {
                at: *at,
                search: search.copy(alloc)?,
            },
            Command::Undo { at } => Command::Undo { at: *at },
            Command::Redo { at } => Command::Redo { at: *at },
            Command::Goto { at, address } => Command::Goto {
                at: *at,
                address: address.copy(alloc)?,
            },
            Command::Tree => Command::Tree,
            Command::Inverted => Command::Inverted,
            Command::Markers { search } => Command::Markers {
                search: search.copy(alloc)?,
            },
            Command::Address => Command::Address,
            Command::Save => Command::Save,
        })
    }

    /// Whether the commands are of one kind, with the same fields.
    pub fn is_same(&self, other: &Command) -> bool
        ensures { IsTrue result ↔ (self.now ≡ other.now) }
    {
        use Command::*;
        match self {
            OpenOn { profile, thread } => {
                matches!(
                    other,
                    OpenOn { profile: p, thread: t } if thread == t && is_same_text(profile, p)
                )
            }
            LoadOn { profile } =>
                matches!(other, LoadOn { profile: p } if is_same_text(profile, p)),
            Close => matches!(other, Close),
            Push { at, transform } => {
                matches!(other, Push { at: v, transform: t } if at == v && same(transform, t))
            }
            PopTo { at, n } => matches!(other, PopTo { at: v, n: m } if at == v && n == m),
            CommitRange { at, range } => {
                matches!(other, CommitRange { at: v, range: r } if at == v && range == r)
            }
            PopRangesTo { at, n } =>
                matches!(other, PopRangesTo { at: v, n: m } if at == v && n == m),
            SetImplementation { at, implementation } => {
                matches!(
                    other,
                    SetImplementation { at: v, implementation: i }
                        if at == v && implementation == i
                )
            }
            SetSearch { at, search } => {
                matches!(other, SetSearch { at: v, search: s } if at == v && is_same_text(search, s))
            }
            Undo { at } => matches!(other, Undo { at: v } if at == v),
            Redo { at } => matches!(other, Redo { at: v } if at == v),
            Goto { at, address } => {
                matches!(other, Goto { at: v, address: a } if at == v && is_same_text(address, a))
            }
            Tree => matches!(other, Tree),
            Inverted => matches!(other, Inverted),
            Markers { search } => matches!(other, Markers { search: s } if is_same_text(search, s)),
            Address => matches!(other, Address),
            Save => matches!(other, Save),
        }
    }
}

/// Whether two texts are the same.
fn is_same_text(a: &Text, b: &Text) -> bool
    ensures { IsTrue result ↔ (a.now ≡ b.now) }
{
    a.as_str() == b.as_str()
}

/// A command, and the name of the session that it is for.
#[derive(Drop)]
pub struct Request {
    pub session: Text,
    pub command: Command,
}
