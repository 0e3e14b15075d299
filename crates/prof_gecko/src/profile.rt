//! The profile that a Gecko profile stands for.
ghost use Rattle.std.specs.Prelude.{◌≡◌, ◌<◌, ◌≤◌, ◌^◌, ◌∷◌, ◌++◌, length, IfOk, OnOk, All, map, vec_len};
ghost use Rattle.prof_tables.specs.Builds.{Builds};
ghost use Rattle.prof_raw.specs.Checks.{Passes};
ghost use Rattle.prof_gecko.specs.Gathered.{process, joined, fault_entries};
ghost use Rattle.prof_gecko.specs.Work.{work_entries, work_broken, entries_left};
ghost use Rattle.prof_gecko.specs.Processes.{HasRanges, root_start, entries_broken, entries_threads, profile_broken, profile_of};

use crate::gathered::{GeckoProcess, GeckoProfile};
use crate::process::{OneProcess, add_process};
use crate::thread::Common;
use crate::work::Work;
use prof_io::NoMemory;
use prof_raw::{Broken, Column, ListFault, Place, Table, pass};
use prof_tables::{BuildRefusal, Profile, Thread};
use std::alloc::Global;
use std::rc::Rc;

/// The process that comes next, or the fault of a list of processes at its place.
fn process_of(next: Work) -> Result<GeckoProcess, Broken>
    ensures broken { Passes result (work_broken next) }
    ensures entries { IfOk result (λ p. p ≡ work_entries next) }
{
    match next {
        Work::Process(process) => Ok(process),
        Work::Fault(fault) => Err(Broken {
            rule: fault.rule,
            thread: None,
            table: Table::Processes,
            column: Column::List,
            row: fault.row,
        }),
    }
}

/// Puts the fault of a list of processes on top of what is left to check.
fn add_fault(work: &mut Vec<Work>, fault: Option<ListFault>) -> Result<(), NoMemory>
    ensures { OnOk result
        (entries_left work.new.items ≡ fault_entries fault ++ entries_left work.old.items) }
{
    match fault {
        Some(fault) => Ok(work.push(Work::Fault(fault))?),
        None => Ok(()),
    }
}

/// Puts processes on top of what is left to check, the first of them topmost.
fn add_children(work: &mut Vec<Work>, mut children: Vec<GeckoProcess>) -> Result<(), NoMemory>
    ensures { OnOk result
        (entries_left work.new.items ≡ joined children.items ++ entries_left work.old.items) }
{
    while let Some(child) = children.pop() {
        work.push(Work::Process(child))?;
    }
    Ok(())
}

/// Takes a process apart: what stands below it goes on top of what is left to check.
fn take_apart(work: &mut Vec<Work>, p: GeckoProcess) -> Result<OneProcess, NoMemory>
    ensures { IfOk result (λ one.
        process one ∷ entries_left work.new.items ≡ p ++ entries_left work.old.items) }
{
    let GeckoProcess {
        start,
        start_fault,
        libs,
        libs_fault,
        threads,
        threads_fault,
        children,
        children_fault,
    } = p;
    add_fault(work, children_fault)?;
    add_children(work, children)?;
    Ok(OneProcess {
        start,
        start_fault,
        libs,
        libs_fault,
        threads,
        threads_fault,
    })
}

/// The threads of a process and of those below it, or the first rule that they break.
fn threads_of(
    alloc: Global,
    common: Common,
    root: GeckoProcess,
) -> Result<Vec<Rc<Thread>>, BuildRefusal>
    requires default { common.default < common.categories }
    requires ranges { All HasRanges root }
    ensures built { Builds (λ threads. map (λ t. t.value) threads.items) result
        (entries_broken common.categories common.root 0 root)
        (entries_threads common.categories common.default common.root root) }
    ensures few { IfOk result (λ threads. vec_len threads ≤ 1024) }
{
    let mut threads = Vec::new(alloc);
    let mut work = Vec::new(alloc);
    work.push(Work::Process(root))?;
    'walk: while let Some(next) = work.pop() {
        let process = process_of(next)?;
        let one = take_apart(&mut work, process)?;
        add_process(alloc, common, one, &mut threads)?;
    }
    Ok(threads)
}

/// The start of a process.
fn start_of(root: &GeckoProcess) -> i64
    ensures { result ≡ root_start root.now }
{
    root.start
}

/// The profile of a Gecko profile, or the first rule that it breaks.
pub fn convert(alloc: Global, g: GeckoProfile) -> Result<Profile, BuildRefusal>
    requires default { g.default < length g.categories }
    requires few { length g.categories < 2 ^ 32 }
    requires ranges { All HasRanges g.entries }
    ensures { Builds (λ p. p) result (profile_broken g) (profile_of g) }
{
    let GeckoProfile {
        categories,
        default,
        category_fault,
        root,
    } = g;
    let list = Place::at(None, Table::Meta, Column::Categories);
    pass(list, category_fault)?;
    let common = Common {
        categories: categories.len() as u32,
        default,
        root: start_of(&root),
    };
    let threads = threads_of(alloc, common, root)?;
    Ok(Profile {
        threads,
        categories,
        default,
    })
}
