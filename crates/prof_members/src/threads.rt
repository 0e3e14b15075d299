//! The list of threads.
ghost use Rattle.std.specs.Prelude.{◌≡◌, false, ◌≤◌, OnOk, IfOk, IfErr, IfSome, IfNone, Option, Some, None, vec_len};
ghost use Rattle.prof_grammar.specs.Value.{Value, same_text};
ghost use Rattle.prof_layout.specs.Lists.{is_object, needed_list_fault};
ghost use Rattle.prof_gather.specs.Taking.{Reads};
ghost use Rattle.prof_members.specs.Gathered.{IsThreadList};
ghost use Rattle.prof_members.specs.Named.{thread_member_name};
ghost use Rattle.prof_gather.specs.Feeding.{IsWithin, IsBegun, Passes, Finishes, Refuses, in_member};

use crate::lists::ThreadList;
use crate::markers::MarkerTable;
use crate::samples::SampleTable;
use crate::shared::{SharedMember, SharedTables, shared_member};
use prof_column::{state_of, text, whole};
use prof_gather::{
    Feed, Found, FromItems, FromMembers, GatherRefusal, Start, array, members, object, skip_behind,
};
use prof_io::Source;
use prof_json::Event;
use prof_raw::{ListFault, MOST_THREADS, Rule, State};
use std::alloc::Global;

/// What is gathered of a thread.
#[derive(Drop)]
pub struct ThreadParts {
    pub name: Option<String>,
    pub shared: SharedTables,
    pub samples: Found<SampleTable>,
    pub markers: Found<MarkerTable>,
}

enum ThreadMember {
    Name,
    Samples,
    Markers,
    Shared(SharedMember),
}

fn thread_member(name: &str) -> Option<ThreadMember>
    ensures some { IfSome result (λ m. name.now ≡ thread_member_name m) }
    ensures none { IfNone result ((m : ThreadMember) → same_text name.now (thread_member_name m) ≡ false) }
{
    match name {
        "name" => Some(ThreadMember::Name),
        "samples" => Some(ThreadMember::Samples),
        "markers" => Some(ThreadMember::Markers),
        _ => match shared_member(name) {
            Some(member) => Some(ThreadMember::Shared(member)),
            None => None,
        },
    }
}

impl ThreadParts {
    ghost use Rattle.prof_grammar.specs.Value.{no_members};
    ghost use Rattle.prof_members.specs.Gathered.{AreThread};

    /// What is gathered of no member.
    pub fn none(alloc: Global) -> Self
        ensures { AreThread no_members result }
    {
        ThreadParts {
            name: None,
            shared: SharedTables::none(alloc),
            samples: Found::Absent,
            markers: Found::Absent,
        }
    }
}

impl FromMembers for ThreadParts {
    ghost use Rattle.prof_members.specs.Gathered.{AreThread};

    ghost is = { λ ms t. AreThread ms t };

    fn take_member<R: Source, W: Start>(
        &mut self,
        alloc: Global,
        feed: &mut Feed<R, W>,
    ) -> Result<(), GatherRefusal> {
        match thread_member(feed.name()) {
            Some(ThreadMember::Name) => self.name = text(alloc, feed)?,
            Some(ThreadMember::Samples) => self.samples = object(
                alloc,
                feed,
                SampleTable::none(alloc),
            )?,
            Some(ThreadMember::Markers) => self.markers = object(
                alloc,
                feed,
                MarkerTable::none(alloc),
            )?,
            Some(ThreadMember::Shared(member)) => self.shared.take(alloc, feed, member)?,
            None => feed.skip_member(alloc)?,
        }
        Ok(())
    }
}

impl ThreadList {
    /// What is gathered where no member has the list.
    pub fn absent(alloc: Global) -> Self
        ensures { IsThreadList None result }
    {
        ThreadList {
            state: State::Absent,
            threads: Vec::new(alloc),
            bad: None,
        }
    }

    /// The first rule that the list breaks.
    pub fn fault(&self) -> Option<ListFault>
        ensures few { IfNone result (vec_len self.now.threads ≤ 1024) }
        ensures is { (member : Option Value) → IsThreadList member self.now → result ≡ needed_list_fault is_object MOST_THREADS member }
    {
        match self.state {
            State::Absent => Some(whole(Rule::Missing)),
            State::NotArray => Some(whole(Rule::WrongKind)),
            State::Array if self.threads.len() > MOST_THREADS as usize => {
                Some(whole(Rule::RowLimit))
            }
            State::Array => self.bad.map(|row| ListFault {
                rule: Rule::WrongKind,
                row: Some(row),
            }),
        }
    }
}

impl FromItems for ThreadList {
    ghost use Rattle.prof_members.specs.Columns.{IsThreadListOf};

    ghost is = { λ first vs l. IsThreadListOf first vs l };

    fn take_item<R: Source, W: Start>(
        &mut self,
        alloc: Global,
        feed: &mut Feed<R, W>,
        first: Event,
    ) -> Result<(), GatherRefusal> {
        if self.threads.len() > MOST_THREADS as usize {
            return skip_behind(alloc, feed, first);
        }
        match first {
            Event::ObjectStart => {
                let thread = members(alloc, feed, ThreadParts::none(alloc))?;
                self.threads.push(thread)?;
                Ok(())
            }
            _ => {
                skip_behind(alloc, feed, first)?;
                self.bad = self.bad.or(Some(self.threads.len() as u32));
                self.threads.push(ThreadParts::none(alloc))?;
                Ok(())
            }
        }
    }
}

/// Reads a member's value as the list of threads.
pub fn thread_list<R: Source, W: Start>(
    alloc: Global,
    feed: &mut Feed<R, W>,
) -> Result<ThreadList, GatherRefusal>
    requires { IsWithin in_member feed.old }
    ensures ok { OnOk result (Passes feed.old feed.new) }
    ensures list { IfOk result (λ l. (v : Value) × Reads feed.old feed.new v × IsThreadList (Some v) l) }
    ensures err { IfErr result (λ r. Refuses r feed.new) }
{
    let mut list = ThreadList::absent(alloc);
    let kind = array(alloc, feed, &mut list)?;
    list.state = state_of(kind, true);
    Ok(list)
}
