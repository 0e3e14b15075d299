//! Processes within processes. They may stand as deep in one another as a text's values may.
ghost use Rattle.std.specs.Prelude.{◌≡◌, ◌+◌, ◌++◌, ◌∷◌, [], All, List, Option, None, Some, IfOk, OnOk, IfErr, IfSome, IfNone, false, codes};
ghost use Rattle.std.specs.Option.{option_and_then};
ghost use Rattle.prof_gather.specs.Feeding.{Told, IsWithin, IsNamed, IsBegun, Passes, Finishes, Refuses, in_object, in_array, in_member};
ghost use Rattle.prof_gather.specs.Taking.{IsFoundIn, Reads, Begins, ReadsMembers, ReadsItems, TakesMember, TakesItem};
ghost use Rattle.prof_grammar.specs.Value.{Value, Values, Members, same_text, field};
ghost use Rattle.prof_layout.specs.Lists.{is_object};
ghost use Rattle.prof_gecko.specs.Processes.{HasRanges, ThreadHasRanges};
ghost use Rattle.prof_gecko_layout.specs.GeckoProfile.{entries, listed, listed_items};
ghost use Rattle.prof_processes.specs.Named.{process_name};
ghost use Rattle.prof_processes.specs.Libs.{IsMeta, IsStart};
ghost use Rattle.prof_processes.specs.Processes as kept;
ghost use Rattle.prof_processes.specs.Processes.{KeepEntries, AreChildrenOf, AreProcessMembers, child_entries};

use crate::libs::{LibList, lib_list};
use crate::list::{ThreadList, thread_list};
use crate::start::ProcessStart;
use prof_column::whole;
use prof_gather::{Feed, Found, GatherRefusal, Start, object, skip_behind};
use prof_gecko::GeckoProcess;
use prof_io::{NoMemory, Source};
use prof_json::Event;
use prof_raw::{ListFault, Rule};
use std::alloc::Global;

/// The processes below a process that stand before the first item that breaks a rule. `row` is the number of items up to
/// that one; an item that is null is passed over.
#[derive(Drop)]
pub struct Children {
    pub list: Vec<GeckoProcess>,
    pub row: u32,
    pub fault: Option<ListFault>,
}

impl Children {
    ghost use Rattle.prof_processes.specs.Processes.{AreChildren};

    /// None.
    pub fn none(alloc: Global) -> Self
        ensures { AreChildren [] result }
    {
        Children {
            list: Vec::new(alloc),
            row: 0,
            fault: None,
        }
    }

    /// What is gathered of a value that is no array.
    fn other(alloc: Global) -> Self
        ensures list { result.list.items ≡ [] }
        ensures fault { result.fault ≡ Some (record { rule = Rule.WrongKind; row = None }) }
    {
        Children {
            list: Vec::new(alloc),
            row: 0,
            fault: Some(whole(Rule::WrongKind)),
        }
    }

    /// Counts an item.
    fn count(&mut self) -> Result<(), NoMemory>
        ensures { OnOk result (self.new ≡ record self.old { row = self.old.row + 1 }) }
    {
        if self.row == u32::MAX {
            return Err(NoMemory);
        }
        self.row += 1;
        Ok(())
    }

    /// Adds a process.
    #[tactic(auto, using(crate::proofs::ChildLists::child_added))]
    fn add(&mut self, process: GeckoProcess) -> Result<(), NoMemory>
        requires { self.old.fault ≡ None }
        ensures { OnOk result ((ms : Members) → KeepEntries (entries (Value.object ms)) process
            → (first : Children) (vs : List Value) → AreChildrenOf first vs self.old
            → AreChildrenOf first (vs ++ Value.object ms ∷ []) self.new) }
    {
        self.count()?;
        self.list.push(process)?;
        Ok(())
    }

    /// Passes over an item that is null, and takes any other for a fault.
    #[tactic(auto, using(crate::proofs::ChildLists::null_passed, crate::proofs::ChildLists::other_failed))]
    fn pass(&mut self, null: bool) -> Result<(), NoMemory>
        requires { self.old.fault ≡ None }
        ensures { OnOk result ((v : Value) → is_object v ≡ false → null ≡ kept.is_null v
            → (first : Children) (vs : List Value) → AreChildrenOf first vs self.old
            → AreChildrenOf first (vs ++ v ∷ []) self.new) }
    {
        if null {
            return self.count();
        }
        self.fault = Some(ListFault {
            rule: Rule::WrongKind,
            row: Some(self.row),
        });
        Ok(())
    }
}

/// What is gathered of the members of a process.
#[derive(Drop)]
pub struct ProcessMembers {
    pub meta: Found<ProcessStart>,
    pub libs: LibList,
    pub threads: ThreadList,
    pub children: Children,
}

enum ProcessMember {
    Meta,
    Libs,
    Threads,
    Processes,
}

fn process_member(name: &str) -> Option<ProcessMember>
    ensures some { IfSome result (λ m. name.now ≡ process_name m) }
    ensures none { IfNone result ((m : ProcessMember)
        → same_text name.now (process_name m) ≡ false) }
{
    match name {
        "meta" => Some(ProcessMember::Meta),
        "libs" => Some(ProcessMember::Libs),
        "threads" => Some(ProcessMember::Threads),
        "processes" => Some(ProcessMember::Processes),
        _ => None,
    }
}

/// Whether the value is null that this event has begun.
fn is_null(first: Event) -> bool
    ensures { (t : Told) (v : Value) → IsBegun first t → Begins t v → result ≡ kept.is_null v }
{
    match first {
        Event::Null => true,
        _ => false,
    }
}

/// The start that the members of `meta` say.
fn start_in(meta: Found<ProcessStart>) -> ProcessStart
    ensures { (member : Option Value) → IsFoundIn IsMeta member meta
        → IsStart (option_and_then (field (codes "startTime")) member) result }
{
    match meta {
        Found::Object(start) => start,
        Found::Absent | Found::Null | Found::Other => ProcessStart::unsaid(),
    }
}

impl ProcessMembers {
    ghost use Rattle.prof_grammar.specs.Value.{no_members};

    /// What is gathered of no member.
    pub fn none(alloc: Global) -> Self
        ensures { AreProcessMembers no_members result }
    {
        ProcessMembers {
            meta: Found::Absent,
            libs: LibList::absent(alloc),
            threads: ThreadList::absent(alloc),
            children: Children::none(alloc),
        }
    }

    /// The process that has these members.
    pub fn process(self) -> GeckoProcess
        ensures entries { (ms : Members) → AreProcessMembers ms self
            → KeepEntries (entries (Value.object ms)) result }
        ensures ranges { All ThreadHasRanges self.threads.threads.items
            → All HasRanges (child_entries self.children) → All HasRanges result }
    {
        let start = start_in(self.meta);
        let threads_fault = self.threads.fault();
        GeckoProcess {
            start: start.start,
            start_fault: start.fault,
            libs: self.libs.libs,
            libs_fault: self.libs.fault,
            threads: self.threads.threads,
            threads_fault,
            children: self.children.list,
            children_fault: self.children.fault,
        }
    }
}

/// Reads the members of a process, which has begun, and its end.
#[cycle(reading)]
pub fn read_process<R: Source, W: Start>(
    alloc: Global,
    feed: &mut Feed<R, W>,
) -> Result<GeckoProcess, GatherRefusal>
    requires within { IsWithin in_object feed.old }
    ensures ok { OnOk result (Passes feed.old feed.new) }
    ensures process { IfOk result (λ p. (ms : Members) × ReadsMembers feed.old feed.new ms
        × KeepEntries (entries (Value.object ms)) p) }
    ensures err { IfErr result (λ r. Refuses r feed.new) }
{
    let mut found = ProcessMembers::none(alloc);
    'members: loop {
        let event = feed.next(alloc)?;
        match event {
            Event::ObjectEnd => return Ok(found.process()),
            Event::Name => member(alloc, feed, &mut found)?,
            _ => unreachable!(),
        }
    }
}

/// Reads the value of the member of a process that was named.
#[cycle(reading)]
fn member<R: Source, W: Start>(
    alloc: Global,
    feed: &mut Feed<R, W>,
    found: &mut ProcessMembers,
) -> Result<(), GatherRefusal>
    requires { IsNamed feed.old }
    ensures ok { OnOk result (Passes feed.old feed.new) }
    ensures member { OnOk result (TakesMember (λ ms p. AreProcessMembers ms p) feed.old feed.new
        found.old found.new) }
    ensures err { IfErr result (λ r. Refuses r feed.new) }
{
    match process_member(feed.name()) {
        Some(ProcessMember::Meta) => found.meta = object(alloc, feed, ProcessStart::unsaid())?,
        Some(ProcessMember::Libs) => found.libs = lib_list(alloc, feed)?,
        Some(ProcessMember::Threads) => found.threads = thread_list(alloc, feed)?,
        Some(ProcessMember::Processes) => found.children = child_list(alloc, feed)?,
        None => feed.skip_member(alloc)?,
    }
    Ok(())
}

/// Reads a member's value as the processes below a process.
#[cycle(reading)]
pub fn child_list<R: Source, W: Start>(
    alloc: Global,
    feed: &mut Feed<R, W>,
) -> Result<Children, GatherRefusal>
    requires { IsWithin in_member feed.old }
    ensures ok { OnOk result (Passes feed.old feed.new) }
    ensures children { IfOk result (λ c. (v : Value) × Reads feed.old feed.new v
        × KeepEntries (listed v) (child_entries c)) }
    ensures err { IfErr result (λ r. Refuses r feed.new) }
{
    let first = feed.next(alloc)?;
    match first {
        Event::ArrayStart => child_items(alloc, feed),
        _ => {
            skip_behind(alloc, feed, first)?;
            Ok(Children::other(alloc))
        }
    }
}

/// Reads the items of the list of processes, which has begun, and its end.
#[cycle(reading)]
fn child_items<R: Source, W: Start>(
    alloc: Global,
    feed: &mut Feed<R, W>,
) -> Result<Children, GatherRefusal>
    requires within { IsWithin in_array feed.old }
    ensures ok { OnOk result (Passes feed.old feed.new) }
    ensures items { IfOk result (λ c. (vs : Values) × ReadsItems feed.old feed.new vs
        × KeepEntries (listed_items 0 vs) (child_entries c)) }
    ensures err { IfErr result (λ r. Refuses r feed.new) }
{
    let mut list = Children::none(alloc);
    'items: loop {
        let event = feed.next(alloc)?;
        match event {
            Event::ArrayEnd => return Ok(list),
            Event::Name | Event::ObjectEnd | Event::End => unreachable!(),
            first => child(alloc, feed, first, &mut list)?,
        }
    }
}

/// Reads the item of the list of processes that this event has begun.
#[cycle(reading)]
fn child<R: Source, W: Start>(
    alloc: Global,
    feed: &mut Feed<R, W>,
    first: Event,
    list: &mut Children,
) -> Result<(), GatherRefusal>
    requires { IsBegun first feed.old }
    ensures ok { OnOk result (Finishes first feed.old feed.new) }
    ensures item { OnOk result (TakesItem (λ a vs b. AreChildrenOf a vs b) feed.old feed.new
        list.old list.new) }
    ensures err { IfErr result (λ r. Refuses r feed.new) }
{
    if list.fault.is_some() {
        return skip_behind(alloc, feed, first);
    }
    match first {
        Event::ObjectStart => {
            let process = read_process(alloc, feed)?;
            list.add(process)?;
        }
        _ => {
            skip_behind(alloc, feed, first)?;
            list.pass(is_null(first))?;
        }
    }
    Ok(())
}
