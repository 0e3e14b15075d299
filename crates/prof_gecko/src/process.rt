//! The threads of a process by itself.
ghost use Rattle.std.specs.Prelude.{◌≡◌, ◌+◌, ◌<◌, ◌≤◌, ◌++◌, All, map, vec_len};
ghost use Rattle.std.specs.Option.{option_map};
ghost use Rattle.prof_raw.specs.Rules.{whole_fault};
ghost use Rattle.prof_raw.specs.Checks.{Passes};
ghost use Rattle.prof_tables.specs.Builds.{Builds};
ghost use Rattle.prof_gecko.specs.Columns.{shift_of};
ghost use Rattle.prof_gecko.specs.Checks.{gecko_thread_broken};
ghost use Rattle.prof_gecko.specs.Converted.{gecko_thread};
ghost use Rattle.prof_gecko.specs.Processes.{ThreadHasRanges, first_thread, head_broken, process_broken, process_threads};

use crate::gathered::GeckoThread;
use crate::shift::Shift;
use crate::thread::{Common, build_thread};
use prof_gecko_names::Lib;
use prof_raw::{
    Broken, Column, ListFault, MOST_THREADS, Place, Rule, Size, Table, pass, size_fault,
    whole_fault,
};
use prof_tables::{BuildRefusal, Thread};
use std::alloc::Global;
use std::marker::Model;
use std::rc::Rc;

/// A process without those below it.
#[derive(Drop)]
pub(crate) struct OneProcess {
    pub(crate) start: i64,
    pub(crate) start_fault: Option<Rule>,
    pub(crate) libs: Vec<Lib>,
    pub(crate) libs_fault: Option<ListFault>,
    pub(crate) threads: Vec<GeckoThread>,
    pub(crate) threads_fault: Option<ListFault>,
}

impl Model for OneProcess {
    ghost use Rattle.prof_gecko.specs.Gathered.{ProcessCells};

    ghost Value = { ProcessCells };

    ghost view = { λ p. record {
      start = p.start;
      start_fault = p.start_fault;
      libs = p.libs.items;
      libs_fault = p.libs_fault;
      threads = p.threads.items;
      threads_fault = p.threads_fault;
    } };
}

impl OneProcess {
    /// What its times are moved by.
    fn shift(&self, root: i64) -> Shift
        ensures { result ≡ record { start = self.now.start; root = root } }
    {
        Shift {
            start: self.start,
            root,
        }
    }
}

/// A rule as a fault of the whole.
fn start_fault(rule: Option<Rule>) -> Option<ListFault>
    ensures { result ≡ option_map whole_fault rule }
{
    match rule {
        Some(rule) => Some(whole_fault(rule)),
        None => None,
    }
}

/// Checks a process up to its threads, which stand behind so many others.
#[tactic(auto, unfolding(crate::specs::Processes::head_broken))]
fn check_head(number: usize, p: &OneProcess) -> Result<(), Broken>
    requires { number ≤ 1024 }
    ensures { Passes result (head_broken number p.now) }
{
    let start = Place::at(None, Table::Meta, Column::StartTime);
    pass(start, start_fault(p.start_fault))?;
    pass(Place::at(None, Table::Libs, Column::List), p.libs_fault)?;
    let threads = Place::at(None, Table::Threads, Column::List);
    pass(threads, p.threads_fault)?;
    let count = number + p.threads.len();
    pass(threads, size_fault(Size::AtMost(MOST_THREADS), count))
}

/// Adds threads of a process with these libraries, whose times are moved, up to the first that breaks a rule.
fn add_threads(
    alloc: Global,
    common: Common,
    shift: Shift,
    libs: &[Lib],
    gathered: Vec<GeckoThread>,
    threads: &mut Vec<Rc<Thread>>,
) -> Result<(), BuildRefusal>
    requires default { common.default < common.categories }
    requires few { vec_len threads.old + vec_len gathered ≤ 1024 }
    requires ranges { All ThreadHasRanges gathered.items }
    ensures { Builds (λ _. map (λ t. t.value) threads.new.items) result
        (first_thread
        (λ k g. gecko_thread_broken k common.categories libs.now (shift_of shift) g)
        (vec_len threads.old) gathered.items)
        (map (λ t. t.value) threads.old.items
        ++ map (gecko_thread common.categories common.default libs.now (shift_of shift))
        gathered.items) }
{
    for cells in gathered {
        let number = threads.len() as u32;
        let thread = build_thread(alloc, common, shift, libs, cells, number)?;
        let thread = Rc::new(alloc, thread)?;
        threads.push(thread)?;
    }
    Ok(())
}

/// Adds the threads of a process, or names the first rule that it breaks.
pub(crate) fn add_process(
    alloc: Global,
    common: Common,
    p: OneProcess,
    threads: &mut Vec<Rc<Thread>>,
) -> Result<(), BuildRefusal>
    requires default { common.default < common.categories }
    requires few { vec_len threads.old ≤ 1024 }
    requires ranges { All ThreadHasRanges p.threads }
    ensures { Builds (λ _. map (λ t. t.value) threads.new.items) result
        (process_broken common.categories common.root (vec_len threads.old) p)
        (map (λ t. t.value) threads.old.items
        ++ process_threads common.categories common.default common.root p) }
{
    check_head(threads.len(), &p)?;
    let shift = p.shift(common.root);
    let OneProcess {
        libs,
        threads: gathered,
        ..
    } = p;
    add_threads(alloc, common, shift, &libs, gathered, threads)
}
