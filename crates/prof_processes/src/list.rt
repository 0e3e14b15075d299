//! The list of threads of a process.
ghost use Rattle.std.specs.Prelude.{◌≡◌, ◌≤◌, ◌++◌, ◌∷◌, [], List, Option, None, Some, IfOk, OnOk, IfErr, vec_len, false};
ghost use Rattle.prof_gather.specs.Feeding.{IsWithin, Passes, Refuses, in_member};
ghost use Rattle.prof_gather.specs.Taking.{Reads};
ghost use Rattle.prof_grammar.specs.Value.{Value};
ghost use Rattle.prof_layout.specs.Lists.{is_object, needed_list_fault};
ghost use Rattle.prof_raw.specs.declared.limits.TheConstants.{MOST_THREADS};
ghost use Rattle.prof_processes.specs.Processes.{AreThreadsOf, IsThreadList};

use crate::thread::ThreadMembers;
use prof_column::{state_of, whole};
use prof_gather::{Feed, FromItems, GatherRefusal, Start, array, members, skip_behind};
use prof_gecko::GeckoThread;
use prof_io::{NoMemory, Source};
use prof_json::Event;
use prof_raw::{ListFault, MOST_THREADS, Rule, State};
use std::alloc::Global;

/// The list of threads that is gathered: its first rows, at most one more than it may have. `bad` is the first row that
/// is no object; it stands in the list as a thread without members.
#[derive(Drop)]
pub struct ThreadList {
    pub state: State,
    pub threads: Vec<GeckoThread>,
    pub bad: Option<u32>,
}

impl ThreadList {
    /// What is gathered where no member has the list.
    pub fn absent(alloc: Global) -> Self
        ensures { IsThreadList None result }
    {
        ThreadList {
            state: State::Absent,
            threads: Vec::new(alloc),
            bad: None,
        }
    }

    /// The first rule that the list breaks.
    pub fn fault(&self) -> Option<ListFault>
        ensures { (member : Option Value) → IsThreadList member self.now
            → result ≡ needed_list_fault is_object MOST_THREADS member }
    {
        match self.state {
            State::Absent => Some(whole(Rule::Missing)),
            State::NotArray => Some(whole(Rule::WrongKind)),
            State::Array if self.threads.len() > MOST_THREADS as usize => {
                Some(whole(Rule::RowLimit))
            }
            State::Array => self.bad.map(|row| ListFault {
                rule: Rule::WrongKind,
                row: Some(row),
            }),
        }
    }

    /// Adds the thread of an item that is no object.
    fn add_other(&mut self, alloc: Global) -> Result<(), NoMemory>
        requires { vec_len self.old.threads ≤ MOST_THREADS }
        ensures { OnOk result ((v : Value) → is_object v ≡ false → (first : ThreadList)
            (vs : List Value) → AreThreadsOf first vs self.old
            → AreThreadsOf first (vs ++ v ∷ []) self.new) }
    {
        let thread = ThreadMembers::none(alloc)?.thread(alloc)?;
        let row = self.threads.len() as u32;
        self.threads.push(thread)?;
        self.bad = self.bad.or(Some(row));
        Ok(())
    }
}

impl FromItems for ThreadList {
    ghost use Rattle.prof_processes.specs.Processes.{AreThreadsOf};

    ghost is = { λ first vs l. AreThreadsOf first vs l };

    fn take_item<R: Source, W: Start>(
        &mut self,
        alloc: Global,
        feed: &mut Feed<R, W>,
        first: Event,
    ) -> Result<(), GatherRefusal> {
        if self.threads.len() > MOST_THREADS as usize {
            return skip_behind(alloc, feed, first);
        }
        match first {
            Event::ObjectStart => {
                let members = members(alloc, feed, ThreadMembers::none(alloc)?)?;
                self.threads.push(members.thread(alloc)?)?;
            }
            _ => {
                skip_behind(alloc, feed, first)?;
                self.add_other(alloc)?;
            }
        }
        Ok(())
    }
}

/// Reads a member's value as the list of threads.
pub fn thread_list<R: Source, W: Start>(
    alloc: Global,
    feed: &mut Feed<R, W>,
) -> Result<ThreadList, GatherRefusal>
    requires { IsWithin in_member feed.old }
    ensures ok { OnOk result (Passes feed.old feed.new) }
    ensures list { IfOk result (λ l. (v : Value) × Reads feed.old feed.new v
        × IsThreadList (Some v) l) }
    ensures err { IfErr result (λ r. Refuses r feed.new) }
{
    let mut list = ThreadList::absent(alloc);
    let kind = array(alloc, feed, &mut list)?;
    list.state = state_of(kind, true);
    Ok(list)
}
