//! The list of threads, each gathered in both ways.
ghost use Rattle.std.specs.Prelude.{◌≡◌, ◌≤◌, ◌++◌, ◌∷◌, [], List, None, Some, IfOk, OnOk, IfErr, true, All, if◌then◌else◌};
ghost use Rattle.prof_gather.specs.Feeding.{IsWithin, Passes, Refuses, in_member};
ghost use Rattle.prof_gather.specs.Taking.{Reads};
ghost use Rattle.prof_gecko.specs.Processes.{ThreadHasRanges};
ghost use Rattle.prof_grammar.specs.Value.{Value, Members};
ghost use Rattle.prof_layout.specs.Lists.{is_object};
ghost use Rattle.prof_members.specs.Gathered as named;
ghost use Rattle.prof_members.specs.Columns.{IsThreadListOf};
ghost use Rattle.prof_processes.specs.Processes as rows;
ghost use Rattle.prof_processes.specs.Threads.{AreThread};
ghost use Rattle.prof_either.specs.Threads.{AreListsOf, AreThreadLists, IsEither, IsRowThread};

use crate::gathered::ThreadLists;
use crate::thread::EitherThread;
use prof_column::state_of;
use prof_gather::{Feed, FromItems, GatherRefusal, Start, array, members, skip_behind};
use prof_io::{NoMemory, Source};
use prof_json::Event;
use prof_members::{ThreadList as NamedThreads, ThreadParts};
use prof_processes::{ThreadList as RowThreads, ThreadMembers};
use prof_raw::MOST_THREADS;
use std::alloc::Global;

/// The row of an item that is no object.
fn bad_row(fits: bool, row: usize) -> Option<u32>
    requires { row ≤ 1024 }
    ensures { result ≡ (if fits then None else Some row) }
{
    if fits {
        return None;
    }
    Some(row as u32)
}

/// Adds a thread of a processed profile, unless there are more than the most already. `fits` says that its item is an
/// object.
fn add_named(list: &mut NamedThreads, thread: ThreadParts, fits: bool) -> Result<(), NoMemory>
    ensures { OnOk result ((v : Value) → fits ≡ is_object v → named.IsThread v thread
        → (first : NamedThreads) (vs : List Value) → IsThreadListOf first vs list.old
        → IsThreadListOf first (vs ++ v ∷ []) list.new) }
{
    if list.threads.len() > MOST_THREADS as usize {
        return Ok(());
    }
    let bad = bad_row(fits, list.threads.len());
    list.threads.push(thread)?;
    list.bad = list.bad.or(bad);
    Ok(())
}

/// The same of a Gecko profile.
fn add_rows(
    alloc: Global,
    list: &mut RowThreads,
    thread: ThreadMembers,
    fits: bool,
) -> Result<(), NoMemory>
    requires { (ms : Members) × AreThread ms thread }
    ensures thread { OnOk result ((v : Value) → fits ≡ is_object v → IsRowThread v thread
        → (first : RowThreads) (vs : List Value) → rows.AreThreadsOf first vs list.old
        → rows.AreThreadsOf first (vs ++ v ∷ []) list.new) }
    ensures ranges { All ThreadHasRanges list.old.threads.items
        → All ThreadHasRanges list.new.threads.items }
{
    if list.threads.len() > MOST_THREADS as usize {
        return Ok(());
    }
    let bad = bad_row(fits, list.threads.len());
    let thread = thread.thread(alloc)?;
    list.threads.push(thread)?;
    list.bad = list.bad.or(bad);
    Ok(())
}

impl ThreadLists {
    ghost use Rattle.prof_either.specs.Threads.{AreThreadLists};

    /// What is gathered where no member has the list.
    pub fn absent(alloc: Global) -> Self
        ensures { AreThreadLists None result }
    {
        ThreadLists {
            named: NamedThreads::absent(alloc),
            rows: RowThreads::absent(alloc),
        }
    }

    /// Whether another thread changes nothing.
    fn are_full(&self) -> bool
        ensures { result ≡ true → (v : Value) (first : ThreadLists) (vs : List Value)
            → AreListsOf first vs self.now → AreListsOf first (vs ++ v ∷ []) self.now }
    {
        self.named.threads.len() > MOST_THREADS as usize
            && self.rows.threads.len() > MOST_THREADS as usize
    }

    /// Adds a thread. `fits` says that its item is an object.
    fn add(&mut self, alloc: Global, thread: EitherThread, fits: bool) -> Result<(), NoMemory>
        requires { (ms : Members) × AreThread ms thread.rows }
        ensures { OnOk result ((v : Value) → fits ≡ is_object v → IsEither v thread
            → (first : ThreadLists) (vs : List Value) → AreListsOf first vs self.old
            → AreListsOf first (vs ++ v ∷ []) self.new) }
    {
        let EitherThread { named, rows } = thread;
        add_named(&mut self.named, named, fits)?;
        add_rows(alloc, &mut self.rows, rows, fits)?;
        Ok(())
    }
}

impl FromItems for ThreadLists {
    ghost use Rattle.prof_either.specs.Threads.{AreListsOf};

    ghost is = { λ first vs l. AreListsOf first vs l };

    fn take_item<R: Source, W: Start>(
        &mut self,
        alloc: Global,
        feed: &mut Feed<R, W>,
        first: Event,
    ) -> Result<(), GatherRefusal> {
        if self.are_full() {
            return skip_behind(alloc, feed, first);
        }
        let none = EitherThread::none(alloc)?;
        match first {
            Event::ObjectStart => {
                let thread = members(alloc, feed, none)?;
                self.add(alloc, thread, true)?;
            }
            _ => {
                skip_behind(alloc, feed, first)?;
                self.add(alloc, none, false)?;
            }
        }
        Ok(())
    }
}

/// Reads a member's value as the list of threads.
pub fn thread_lists<R: Source, W: Start>(
    alloc: Global,
    feed: &mut Feed<R, W>,
) -> Result<ThreadLists, GatherRefusal>
    requires { IsWithin in_member feed.old }
    ensures ok { OnOk result (Passes feed.old feed.new) }
    ensures lists { IfOk result (λ l. (v : Value) × Reads feed.old feed.new v
        × AreThreadLists (Some v) l) }
    ensures err { IfErr result (λ r. Refuses r feed.new) }
{
    let mut lists = ThreadLists::absent(alloc);
    let kind = array(alloc, feed, &mut lists)?;
    let ThreadLists {
        mut named,
        mut rows,
        ..
    } = lists;
    named.state = state_of(kind, true);
    rows.state = state_of(kind, true);
    Ok(ThreadLists { named, rows })
}
