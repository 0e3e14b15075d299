//! A profile.
ghost use Rattle.std.specs.Prelude.{◌≤◌, ◌+◌, ◌*◌, ◌++◌, codes, map, length, nat_lt};
ghost use Rattle.std.specs.List.{enumerate_from, join_with_byte};
ghost use Rattle.prof_io.specs.Outside.{seen};
ghost use Rattle.prof_io.specs.Sinks.{Wrote};
ghost use Rattle.prof_page.specs.Gathering.{Gathers};
ghost use Rattle.prof_write.specs.Cells.{category_value, texts_of_cells};
ghost use Rattle.prof_write.specs.Compact.{compact};
ghost use Rattle.prof_write.specs.Written.{meta_value, profile_value, stack_rows, thread_value};
ghost use Rattle.prof_writer.specs.Writing.{comma_text};

use crate::arrays::add_comma_before;
use crate::categories::add_categories;
use crate::thread::add_thread;
use prof_io::{OutFault, Sink, Steps};
use prof_page::{Page, add_text, write_page};
use prof_tables::{Profile, Thread};
use std::rc::Rc;
use std::sync::ledger::Ledger;

/// Adds the categories of a profile.
fn add_profile_categories<S: Sink>(
    out: &mut S,
    page: &mut Page,
    profile: &Profile,
) -> Result<(), OutFault>
    ensures { Gathers (seen S.Counted out.old) (seen S.Counted out.new) result page.old.bytes
        (join_with_byte 44 (texts_of_cells (category_value profile.now.default)
        (enumerate_from 0 profile.now.categories))) page.new.bytes }
{
    add_categories(out, page, &profile.categories, profile.default)
}

/// Adds what stands before the threads: the form of the text, and the categories.
fn add_meta<S: Sink>(out: &mut S, page: &mut Page, profile: &Profile) -> Result<(), OutFault>
    ensures { Gathers (seen S.Counted out.old) (seen S.Counted out.new) result page.old.bytes
        (codes "{\"meta\":" ++ compact (meta_value profile.now)) page.new.bytes }
{
    add_text(
        out,
        page,
        "{\"meta\":{\"preprocessedProfileVersion\":0,\"categories\":[",
    )?;
    add_profile_categories(out, page, profile)?;
    add_text(out, page, "]}")
}

/// Adds a thread, behind a comma where it isn't the first.
fn add_next_thread<S: Sink, L: Ledger>(
    out: &mut S,
    page: &mut Page,
    place: usize,
    thread: &Thread,
    reads: &mut Steps<L>,
) -> Result<(), OutFault>
    ensures text { Gathers (seen S.Counted out.old) (seen S.Counted out.new) result page.old.bytes
        (comma_text (nat_lt 0 place) ++ compact (thread_value thread.now)) page.new.bytes }
    ensures reads { reads.new ≤ reads.old + 2 * length thread.now.shared.stacks }
{
    add_comma_before(out, page, place)?;
    add_thread(out, page, thread, reads)
}

fn add_threads<S: Sink, L: Ledger>(
    out: &mut S,
    page: &mut Page,
    threads: &[Rc<Thread>],
    reads: &mut Steps<L>,
) -> Result<(), OutFault>
    ensures text { Gathers (seen S.Counted out.old) (seen S.Counted out.new) result page.old.bytes
        (join_with_byte 44 (texts_of_cells thread_value (map (λ t. t.value) threads.now)))
        page.new.bytes }
    ensures reads { reads.new ≤ reads.old + 2 * stack_rows (map (λ t. t.value) threads.now) }
{
    for (place, thread) in threads.iter().enumerate() {
        add_next_thread(out, page, place, thread, reads)?;
    }
    Ok(())
}

/// Adds the threads of a profile.
fn add_profile_threads<S: Sink, L: Ledger>(
    out: &mut S,
    page: &mut Page,
    profile: &Profile,
    reads: &mut Steps<L>,
) -> Result<(), OutFault>
    ensures text { Gathers (seen S.Counted out.old) (seen S.Counted out.new) result page.old.bytes
        (join_with_byte 44 (texts_of_cells thread_value profile.now.threads)) page.new.bytes }
    ensures reads { reads.new ≤ reads.old + 2 * stack_rows profile.now.threads }
{
    add_threads(out, page, &profile.threads, reads)
}

/// Adds a profile.
fn add_profile<S: Sink, L: Ledger>(
    out: &mut S,
    page: &mut Page,
    profile: &Profile,
    reads: &mut Steps<L>,
) -> Result<(), OutFault>
    ensures text { Gathers (seen S.Counted out.old) (seen S.Counted out.new) result page.old.bytes
        (compact (profile_value profile.now)) page.new.bytes }
    ensures reads { reads.new ≤ reads.old + 2 * stack_rows profile.now.threads }
{
    add_meta(out, page, profile)?;
    add_text(out, page, ",\"libs\":[],\"threads\":[")?;
    add_profile_threads(out, page, profile, reads)?;
    add_text(out, page, "]}")
}

/// Writes a profile as a JSON text, in pages. It takes no memory, and reads each stack row of each thread at most twice.
pub fn write_profile<S: Sink, L: Ledger>(
    profile: &Profile,
    out: &mut S,
    reads: &mut Steps<L>,
) -> Result<(), OutFault>
    ensures written { Wrote (seen S.Counted out.old) (seen S.Counted out.new) result
        (compact (profile_value profile.now)) }
    ensures reads { reads.new ≤ reads.old + 2 * stack_rows profile.now.threads }
{
    let mut page = Page::new();
    add_profile(out, &mut page, profile, reads)?;
    write_page(out, &mut page)
}
