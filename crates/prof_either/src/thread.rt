//! A thread, whose tables are gathered in both ways.
ghost use Rattle.std.specs.Prelude.{◌≡◌, IfOk, OnOk, IfErr, IfSome, IfNone, codes, false, string_bytes};
ghost use Rattle.std.specs.Option.{option_map};
ghost use Rattle.prof_gather.specs.Feeding.{IsWithin, Passes, Refuses, in_member};
ghost use Rattle.prof_gather.specs.Taking.{Reads};
ghost use Rattle.prof_grammar.specs.Value.{Value, Members, no_members, same_text, snoc};
ghost use Rattle.prof_either.specs.Named.{either_name};
ghost use Rattle.prof_either.specs.Threads.{AreEither};

use crate::markers::BothMarkers;
use crate::table::BothWays;
use crate::ways::{apart, markers_apart};
use prof_column::text;
use prof_gather::{Feed, FromMembers, GatherRefusal, Start, object};
use prof_io::{NoMemory, Source};
use prof_members::ThreadParts;
use prof_processes::{ThreadMembers, frame_table, marker_parts, sample_table, stack_table};
use std::alloc::Global;

/// What is gathered of a thread: of a processed profile's, and of a Gecko profile's.
#[derive(Drop)]
pub struct EitherThread {
    pub named: ThreadParts,
    pub rows: ThreadMembers,
}

/// A member that a Gecko profile's thread has. All but its strings a processed profile's thread has too.
enum EitherMember {
    Name,
    Strings,
    Frames,
    Stacks,
    Samples,
    Markers,
}

fn either_member(name: &str) -> Option<EitherMember>
    ensures some { IfSome result (λ m. name.now ≡ either_name m) }
    ensures none { IfNone result ((m : EitherMember) → same_text name.now (either_name m) ≡ false) }
{
    match name {
        "name" => Some(EitherMember::Name),
        "stringTable" => Some(EitherMember::Strings),
        "frameTable" => Some(EitherMember::Frames),
        "stackTable" => Some(EitherMember::Stacks),
        "samples" => Some(EitherMember::Samples),
        "markers" => Some(EitherMember::Markers),
        _ => None,
    }
}

/// A copy of a name.
fn copied(alloc: Global, name: &Option<String>) -> Result<Option<String>, NoMemory>
    ensures { IfOk result (λ copy. option_map string_bytes copy ≡ option_map string_bytes name.now) }
{
    match name {
        Some(name) => Ok(Some(String::from_str(alloc, name.as_str())?)),
        None => Ok(None),
    }
}

impl EitherThread {
    /// What is gathered of no member.
    pub fn none(alloc: Global) -> Result<Self, NoMemory>
        ensures { IfOk result (λ t. AreEither no_members t) }
    {
        Ok(EitherThread {
            named: ThreadParts::none(alloc),
            rows: ThreadMembers::none(alloc)?,
        })
    }

    /// Reads the value of the member `name`.
    fn take_name<R: Source, W: Start>(
        &mut self,
        alloc: Global,
        feed: &mut Feed<R, W>,
    ) -> Result<(), GatherRefusal>
        requires { IsWithin in_member feed.old }
        ensures ok { OnOk result (Passes feed.old feed.new) }
        ensures member { OnOk result ((v : Value) × Reads feed.old feed.new v × ((ms : Members)
            → AreEither ms self.old → AreEither (snoc ms (codes "name") v) self.new)) }
        ensures err { IfErr result (λ r. Refuses r feed.new) }
    {
        let name = text(alloc, feed)?;
        self.rows.name = copied(alloc, &name)?;
        self.named.name = name;
        Ok(())
    }

    /// Reads the value of the member `frameTable`.
    fn take_frames<R: Source, W: Start>(
        &mut self,
        alloc: Global,
        feed: &mut Feed<R, W>,
    ) -> Result<(), GatherRefusal>
        requires { IsWithin in_member feed.old }
        ensures ok { OnOk result (Passes feed.old feed.new) }
        ensures member { OnOk result ((v : Value) × Reads feed.old feed.new v × ((ms : Members)
            → AreEither ms self.old → AreEither (snoc ms (codes "frameTable") v) self.new)) }
        ensures err { IfErr result (λ r. Refuses r feed.new) }
    {
        let found = object(alloc, feed, BothWays::none(alloc))?;
        let (named, held) = apart(alloc, found);
        self.rows.frame = frame_table(alloc, &held)?;
        self.named.shared.frames = named;
        Ok(())
    }

    /// Reads the value of the member `stackTable`.
    fn take_stacks<R: Source, W: Start>(
        &mut self,
        alloc: Global,
        feed: &mut Feed<R, W>,
    ) -> Result<(), GatherRefusal>
        requires { IsWithin in_member feed.old }
        ensures ok { OnOk result (Passes feed.old feed.new) }
        ensures member { OnOk result ((v : Value) × Reads feed.old feed.new v × ((ms : Members)
            → AreEither ms self.old → AreEither (snoc ms (codes "stackTable") v) self.new)) }
        ensures err { IfErr result (λ r. Refuses r feed.new) }
    {
        let found = object(alloc, feed, BothWays::none(alloc))?;
        let (named, held) = apart(alloc, found);
        self.rows.stack = stack_table(alloc, &held)?;
        self.named.shared.stacks = named;
        Ok(())
    }

    /// Reads the value of the member `samples`.
    fn take_samples<R: Source, W: Start>(
        &mut self,
        alloc: Global,
        feed: &mut Feed<R, W>,
    ) -> Result<(), GatherRefusal>
        requires { IsWithin in_member feed.old }
        ensures ok { OnOk result (Passes feed.old feed.new) }
        ensures member { OnOk result ((v : Value) × Reads feed.old feed.new v × ((ms : Members)
            → AreEither ms self.old → AreEither (snoc ms (codes "samples") v) self.new)) }
        ensures err { IfErr result (λ r. Refuses r feed.new) }
    {
        let found = object(alloc, feed, BothWays::none(alloc))?;
        let (named, held) = apart(alloc, found);
        self.rows.samples = sample_table(alloc, &held)?;
        self.named.samples = named;
        Ok(())
    }

    /// Reads the value of the member `markers`.
    fn take_markers<R: Source, W: Start>(
        &mut self,
        alloc: Global,
        feed: &mut Feed<R, W>,
    ) -> Result<(), GatherRefusal>
        requires { IsWithin in_member feed.old }
        ensures ok { OnOk result (Passes feed.old feed.new) }
        ensures member { OnOk result ((v : Value) × Reads feed.old feed.new v × ((ms : Members)
            → AreEither ms self.old → AreEither (snoc ms (codes "markers") v) self.new)) }
        ensures err { IfErr result (λ r. Refuses r feed.new) }
    {
        let found = object(alloc, feed, BothMarkers::none(alloc))?;
        let (named, held) = markers_apart(alloc, found);
        self.rows.markers = marker_parts(alloc, &held)?;
        self.named.markers = named;
        Ok(())
    }
}

impl FromMembers for EitherThread {
    ghost use Rattle.prof_either.specs.Threads.{AreEither};

    ghost is = { λ ms t. AreEither ms t };

    fn take_member<R: Source, W: Start>(
        &mut self,
        alloc: Global,
        feed: &mut Feed<R, W>,
    ) -> Result<(), GatherRefusal> {
        match either_member(feed.name()) {
            Some(EitherMember::Name) => self.take_name(alloc, feed)?,
            Some(EitherMember::Strings) => self.rows.take_member(alloc, feed)?,
            Some(EitherMember::Frames) => self.take_frames(alloc, feed)?,
            Some(EitherMember::Stacks) => self.take_stacks(alloc, feed)?,
            Some(EitherMember::Samples) => self.take_samples(alloc, feed)?,
            Some(EitherMember::Markers) => self.take_markers(alloc, feed)?,
            None => self.named.take_member(alloc, feed)?,
        }
        Ok(())
    }
}
