//! A thread.
ghost use Rattle.std.specs.Prelude.{◌≡◌, ◌≤◌, ◌+◌, ◌*◌, ◌++◌, codes, length};
ghost use Rattle.prof_io.specs.Outside.{seen};
ghost use Rattle.prof_page.specs.Gathering.{Gathers};
ghost use Rattle.prof_write.specs.Cells.{column};
ghost use Rattle.prof_write.specs.Compact.{compact};
ghost use Rattle.prof_write.specs.Written.{thread_value};
ghost use Rattle.prof_writer.specs.Writing.{quoted};
ghost use Rattle.prof_grammar.specs.Value.{string};

use crate::arrays::add_array;
use crate::frames::add_frames;
use crate::funcs::{Strings, add_funcs, add_resources};
use crate::markers::add_markers;
use crate::samples::add_samples;
use crate::stacks::add_stacks;
use prof_io::{OutFault, Sink, Steps};
use prof_page::{Page, add_string, add_text};
use prof_tables::Thread;
use std::sync::ledger::Ledger;

/// Adds the strings.
fn add_strings<S: Sink>(out: &mut S, page: &mut Page, thread: &Thread) -> Result<(), OutFault>
    ensures { Gathers (seen S.Counted out.old) (seen S.Counted out.new) result page.old.bytes
        (codes ",\"stringArray\":" ++ compact (column string thread.now.shared.strings)) page.new.bytes }
{
    add_array(out, page, ",\"stringArray\":[", &Strings { thread })
}

/// Adds the name.
fn add_name<S: Sink>(out: &mut S, page: &mut Page, thread: &Thread) -> Result<(), OutFault>
    ensures { Gathers (seen S.Counted out.old) (seen S.Counted out.new) result page.old.bytes
        (quoted thread.now.name) page.new.bytes }
{
    add_string(out, page, thread.name())
}

/// Adds a thread.
pub(crate) fn add_thread<S: Sink, L: Ledger>(
    out: &mut S,
    page: &mut Page,
    thread: &Thread,
    reads: &mut Steps<L>,
) -> Result<(), OutFault>
    ensures text { Gathers (seen S.Counted out.old) (seen S.Counted out.new) result page.old.bytes
        (compact (thread_value thread.now)) page.new.bytes }
    ensures reads { reads.new ≤ reads.old + 2 * length thread.now.shared.stacks }
{
    add_text(out, page, "{\"name\":")?;
    add_name(out, page, thread)?;
    add_strings(out, page, thread)?;
    add_resources(out, page, thread)?;
    add_funcs(out, page, thread)?;
    add_frames(out, page, thread)?;
    add_stacks(out, page, thread, reads)?;
    add_samples(out, page, thread)?;
    add_markers(out, page, thread)?;
    add_text(out, page, "}")
}
