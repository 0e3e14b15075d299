//! The path of a stack.
ghost use Rattle.std.specs.Prelude.{◌≡◌, ◌+◌, ◌<◌, ◌≤◌, length, IfOk, IfSome};
ghost use Rattle.prof_tables.specs.Paths.{path};

use crate::lists::StepList;
use prof_io::{NoMemory, Steps};
use prof_tables::{Step, Thread, path_of_row};
use std::alloc::Global;
use std::sync::ledger::Ledger;

/// The path of a stack, from the root on. It reads each row on it once, at most.
pub fn path_of<L: Ledger>(
    alloc: Global,
    thread: &Thread,
    stack: Option<u32>,
    reads: &mut Steps<L>,
) -> Result<StepList, NoMemory>
    requires { IfSome stack (λ i. i < length thread.now.shared.stacks) }
    ensures path { IfOk result (λ x. x ≡ path thread.now.shared.stacks stack) }
    ensures reads { reads.new ≤ reads.old + length (path thread.now.shared.stacks stack) }
{
    path_of_row();
    let stacks = thread.stacks();
    // `count` says that prefixes are smaller rows.
    let _count = stacks.count();
    let mut steps = Vec::new(alloc);
    let mut next = stack;
    while let Some(i) = next {
        let row = stacks.row(i, reads);
        steps.push(Step {
            func: row.func,
            category: row.category,
        })?;
        next = row.prefix;
    }
    steps.reverse();
    Ok(StepList::of(steps))
}
