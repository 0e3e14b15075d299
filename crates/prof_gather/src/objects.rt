//! Objects and arrays, gathered member by member and item by item.
ghost use Rattle.std.specs.Prelude.{◌≡◌, [], OnOk, IfOk, IfErr};
ghost use Rattle.prof_grammar.specs.Value.{Value, Values, Members, no_members, items};
ghost use Rattle.prof_gather.specs.Feeding.{IsWithin, IsNamed, IsBegun, Passes, Finishes, Refuses, in_array, in_object, in_member};
ghost use Rattle.prof_gather.specs.Taking.{Reads, ReadsOn, ReadsItems, ReadsMembers, TakesMember, TakesItem, IsFound, IsTaken};

use crate::GatherRefusal;
use crate::feed::Feed;
use crate::hashed::Start;
use prof_io::Source;
use prof_json::Event;
use std::alloc::Global;

/// A member whose value should be an object.
#[derive(Drop)]
pub enum Found<T> {
    Absent,
    Null,
    /// A value of another kind.
    Other,
    Object(T),
}

/// What is gathered of an object's members.
pub trait FromMembers: Drop {
    ghost use Rattle.prof_grammar.specs.Value.{Members};

    /// It is what is gathered of these members.
    ghost is: { Members → Self → Type 0 };

    /// Reads the value of the member that was named.
    fn take_member<R: Source, W: Start>(
        &mut self,
        alloc: Global,
        feed: &mut Feed<R, W>,
    ) -> Result<(), GatherRefusal>
        requires { IsNamed feed.old }
        ensures ok { OnOk result (Passes feed.old feed.new) }
        ensures member { OnOk result (TakesMember Self.is feed.old feed.new self.old self.new) }
        ensures err { IfErr result (λ r. Refuses r feed.new) };
}

/// What is gathered of an array's items.
pub trait FromItems {
    ghost use Rattle.std.specs.Prelude.{List};
    ghost use Rattle.prof_grammar.specs.Value.{Value};

    /// It is what the first becomes of these items.
    ghost is: { Self → List Value → Self → Type 0 };

    /// Reads the item that this event has begun.
    fn take_item<R: Source, W: Start>(
        &mut self,
        alloc: Global,
        feed: &mut Feed<R, W>,
        first: Event,
    ) -> Result<(), GatherRefusal>
        requires { IsBegun first feed.old }
        ensures ok { OnOk result (Finishes first feed.old feed.new) }
        ensures item { OnOk result (TakesItem Self.is feed.old feed.new self.old self.new) }
        ensures err { IfErr result (λ r. Refuses r feed.new) };
}

/// Reads the value that this event has begun to its end.
pub fn skip_behind<R: Source, W: Start>(
    alloc: Global,
    feed: &mut Feed<R, W>,
    first: Event,
) -> Result<(), GatherRefusal>
    requires { IsBegun first feed.old }
    ensures ok { OnOk result (Finishes first feed.old feed.new) }
    ensures value { OnOk result ((v : Value) × ReadsOn feed.old feed.new v) }
    ensures err { IfErr result (λ r. Refuses r feed.new) }
{
    match first {
        Event::ObjectStart => {
            feed.skip_object(alloc)?;
            Ok(())
        }
        Event::ArrayStart => {
            feed.skip_array(alloc)?;
            Ok(())
        }
        Event::Str | Event::Number | Event::True | Event::False | Event::Null => Ok(()),
        Event::ObjectEnd | Event::ArrayEnd | Event::Name | Event::End => unreachable!(),
    }
}

/// Reads the members of an object, which has begun, and its end. They are gathered from `begun` on, of no member.
pub fn members<T: FromMembers, R: Source, W: Start>(
    alloc: Global,
    feed: &mut Feed<R, W>,
    begun: T,
) -> Result<T, GatherRefusal>
    requires within { IsWithin in_object feed.old }
    requires none { T.is no_members begun }
    ensures ok { OnOk result (Passes feed.old feed.new) }
    ensures members { IfOk result (λ found. (ms : Members) × ReadsMembers feed.old feed.new ms × T.is ms found) }
    ensures err { IfErr result (λ r. Refuses r feed.new) }
{
    let mut found = begun;
    'members: loop {
        let event = feed.next(alloc)?;
        match event {
            Event::ObjectEnd => return Ok(found),
            Event::Name => found.take_member(alloc, feed)?,
            _ => unreachable!(),
        }
    }
}

/// Reads the items of an array, which has begun, and its end.
pub fn items<T: FromItems, R: Source, W: Start>(
    alloc: Global,
    feed: &mut Feed<R, W>,
    list: &mut T,
) -> Result<(), GatherRefusal>
    requires within { IsWithin in_array feed.old }
    requires begun { T.is list.old [] list.old }
    ensures ok { OnOk result (Passes feed.old feed.new) }
    ensures items { OnOk result ((vs : Values) × ReadsItems feed.old feed.new vs × T.is list.old (items vs) list.new) }
    ensures err { IfErr result (λ r. Refuses r feed.new) }
{
    'items: loop {
        let event = feed.next(alloc)?;
        match event {
            Event::ArrayEnd => return Ok(()),
            Event::Name | Event::ObjectEnd | Event::End => unreachable!(),
            first => list.take_item(alloc, feed, first)?,
        }
    }
}

/// Reads the value that this event has begun as an object, whose members are gathered from `begun` on.
pub fn object_behind<T: FromMembers, R: Source, W: Start>(
    alloc: Global,
    feed: &mut Feed<R, W>,
    first: Event,
    begun: T,
) -> Result<Found<T>, GatherRefusal>
    requires event { IsBegun first feed.old }
    requires none { T.is no_members begun }
    ensures ok { OnOk result (Finishes first feed.old feed.new) }
    ensures value { IfOk result (λ found. (v : Value) × ReadsOn feed.old feed.new v × IsFound T.is v found) }
    ensures err { IfErr result (λ r. Refuses r feed.new) }
{
    match first {
        Event::ObjectStart => {
            let found = members(alloc, feed, begun)?;
            Ok(Found::Object(found))
        }
        Event::Null => Ok(Found::Null),
        Event::ArrayStart => {
            feed.skip_array(alloc)?;
            Ok(Found::Other)
        }
        Event::Str | Event::Number | Event::True | Event::False => Ok(Found::Other),
        Event::Name | Event::ObjectEnd | Event::ArrayEnd | Event::End => unreachable!(),
    }
}

/// Reads the value that this event has begun as an array, whose items go into the list, and says whether it is one.
pub fn array_behind<T: FromItems, R: Source, W: Start>(
    alloc: Global,
    feed: &mut Feed<R, W>,
    first: Event,
    list: &mut T,
) -> Result<Kind, GatherRefusal>
    requires event { IsBegun first feed.old }
    requires begun { T.is list.old [] list.old }
    ensures ok { OnOk result (Finishes first feed.old feed.new) }
    ensures value { IfOk result (λ kind. (v : Value) × ReadsOn feed.old feed.new v × IsTaken T.is v list.old kind list.new) }
    ensures err { IfErr result (λ r. Refuses r feed.new) }
{
    match first {
        Event::ArrayStart => {
            items(alloc, feed, list)?;
            Ok(Kind::Array)
        }
        Event::Null => Ok(Kind::Null),
        Event::ObjectStart => {
            feed.skip_object(alloc)?;
            Ok(Kind::Other)
        }
        Event::Str | Event::Number | Event::True | Event::False => Ok(Kind::Other),
        Event::Name | Event::ObjectEnd | Event::ArrayEnd | Event::End => unreachable!(),
    }
}

/// Reads a member's value as an object, whose members are gathered from `begun` on.
pub fn object<T: FromMembers, R: Source, W: Start>(
    alloc: Global,
    feed: &mut Feed<R, W>,
    begun: T,
) -> Result<Found<T>, GatherRefusal>
    requires within { IsWithin in_member feed.old }
    requires none { T.is no_members begun }
    ensures ok { OnOk result (Passes feed.old feed.new) }
    ensures value { IfOk result (λ found. (v : Value) × Reads feed.old feed.new v × IsFound T.is v found) }
    ensures err { IfErr result (λ r. Refuses r feed.new) }
{
    let first = feed.next(alloc)?;
    object_behind(alloc, feed, first, begun)
}

/// Reads a member's value as an array, whose items go into the list, and says whether it is one.
pub fn array<T: FromItems, R: Source, W: Start>(
    alloc: Global,
    feed: &mut Feed<R, W>,
    list: &mut T,
) -> Result<Kind, GatherRefusal>
    requires within { IsWithin in_member feed.old }
    requires begun { T.is list.old [] list.old }
    ensures ok { OnOk result (Passes feed.old feed.new) }
    ensures value { IfOk result (λ kind. (v : Value) × Reads feed.old feed.new v × IsTaken T.is v list.old kind list.new) }
    ensures err { IfErr result (λ r. Refuses r feed.new) }
{
    let first = feed.next(alloc)?;
    array_behind(alloc, feed, first, list)
}

/// What a member's value is, where an array is looked for.
#[derive(Clone, Copy, PartialEq, Eq, Debug)]
pub enum Kind {
    Array,
    Null,
    /// A value of another kind.
    Other,
}
