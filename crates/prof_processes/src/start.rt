//! The start of a process, which its `meta` says.
ghost use Rattle.std.specs.Prelude.{◌≡◌, None, Some, IfOk, OnOk, IfErr};
ghost use Rattle.prof_gather.specs.Feeding.{IsWithin, Passes, Refuses, in_member};
ghost use Rattle.prof_gather.specs.Taking.{Reads};
ghost use Rattle.prof_grammar.specs.Value.{Value};
ghost use Rattle.prof_layout.specs.Columns.{read_cell};
ghost use Rattle.prof_processes.specs.Libs.{IsStart};

use prof_column::{Cell, cell};
use prof_gather::{Feed, FromMembers, GatherRefusal, Start, skip_behind};
use prof_io::Source;
use prof_layout::Reading;
use prof_raw::Rule;
use std::alloc::Global;

/// The start of a process in nanoseconds, and the rule that it breaks. One that isn't said is 0.
#[derive(Drop)]
pub struct ProcessStart {
    pub start: i64,
    pub fault: Option<Rule>,
}

impl ProcessStart {
    /// The start where no member says it.
    pub fn unsaid() -> Self
        ensures { IsStart None result }
    {
        ProcessStart {
            start: 0,
            fault: None,
        }
    }

    /// The start that a cell says.
    fn of(cell: Cell) -> Self
        ensures { (v : Value) → cell ≡ read_cell Reading.Time v → IsStart (Some v) result }
    {
        match cell {
            Ok(Some(start)) => ProcessStart { start, fault: None },
            Ok(None) => ProcessStart::unsaid(),
            Err(rule) => ProcessStart {
                start: 0,
                fault: Some(rule),
            },
        }
    }
}

/// Reads a member's value as the start of a process.
pub fn process_start<R: Source, W: Start>(
    alloc: Global,
    feed: &mut Feed<R, W>,
) -> Result<ProcessStart, GatherRefusal>
    requires { IsWithin in_member feed.old }
    ensures ok { OnOk result (Passes feed.old feed.new) }
    ensures start { IfOk result (λ s. (v : Value) × Reads feed.old feed.new v
        × IsStart (Some v) s) }
    ensures err { IfErr result (λ r. Refuses r feed.new) }
{
    let first = feed.next(alloc)?;
    let cell = cell(feed, Reading::Time, first);
    skip_behind(alloc, feed, first)?;
    Ok(ProcessStart::of(cell))
}

impl FromMembers for ProcessStart {
    ghost use Rattle.prof_processes.specs.Libs.{IsMeta};

    ghost is = { λ ms s. IsMeta ms s };

    fn take_member<R: Source, W: Start>(
        &mut self,
        alloc: Global,
        feed: &mut Feed<R, W>,
    ) -> Result<(), GatherRefusal> {
        match feed.name() {
            "startTime" => *self = process_start(alloc, feed)?,
            _ => feed.skip_member(alloc)?,
        }
        Ok(())
    }
}
