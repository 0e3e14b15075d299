// Where a reader stands among the brackets.
ghost use Rattle.std.specs.Prelude.{◌≡◌};
ghost use Rattle.prof_json.specs.Nest as nest;

use crate::Event;

/// A bracket that is open.
#[derive(Clone, Copy, Debug, PartialEq, Eq)]
pub enum Bracket {
    Array,
    Object,
}

/// What may come next.
#[derive(Clone, Copy, Debug, PartialEq, Eq)]
pub enum Phase {
    /// The text begins.
    Start,
    /// The first item of an array, or its end.
    FirstItem,
    /// The first member of an object, or its end.
    FirstMember,
    /// The colon behind a name, and the member's value.
    AfterName,
    /// What stands behind a value.
    AfterValue,
}

/// What may come behind an event.
pub fn phase_after(event: Event) -> Phase
    ensures { result ≡ nest.phase_after event }
{
    match event {
        Event::ArrayStart => Phase::FirstItem,
        Event::ObjectStart => Phase::FirstMember,
        Event::Name => Phase::AfterName,
        _ => Phase::AfterValue,
    }
}
