// The summary of a profile.
ghost use Rattle.std.specs.Prelude.{◌≡◌, ◌≤◌, ◌++◌, codes, length, map};
ghost use Rattle.std.specs.Fmt.{decimal};
ghost use Rattle.std.specs.List.{enumerate_from, flat_map};
ghost use Rattle.hex.specs.Hex.{encode_lower};
ghost use Rattle.prof_desk.specs.Lines.{thread_head};
ghost use Rattle.prof_desk.specs.Summary.{form_text, summary_text, thread_line};
ghost use Rattle.prof_reply.specs.Lines.{line};
ghost use Rattle.prof_io.specs.Outside.{seen};
ghost use Rattle.prof_io.specs.Sinks.{Wrote};
ghost use Rattle.prof_page.specs.Gathering.{Gathers};

use crate::lines::thread_head;
use arrayvec::ArrayString;
use hex::encode_to_slice;
use prof_io::{OutFault, Sink, copy_out};
use prof_page::{Line, Page, add_line, add_string, add_text, push_number, write_page};
use prof_read::{Digest, Form};
use prof_tables::{Profile, Thread};
use std::rc::Rc;

fn form_text(form: Form) -> &'static str
    ensures name { result.now ≡ form_text form }
    ensures short { length result.now ≤ 9 }
{
    match form {
        Form::Processed => "processed",
        Form::Gecko => "gecko",
    }
}

/// What stands before the digest.
fn summary_head(form: Form, threads: u32) -> Line
    ensures { result.bytes
        ≡ codes "ok " ++ form_text form ++ codes " threads " ++ decimal threads ++ codes " digest " }
{
    let mut line = ArrayString::new();
    line.push_str("ok ");
    line.push_str(form_text(form));
    line.push_str(" threads ");
    push_number(&mut line, threads, " digest ");
    line
}

fn digits_of(digest: &Digest) -> [u8; 64]
    ensures { result ≡ encode_lower digest.now }
{
    let mut digits = [0; 64];
    let _written = encode_to_slice(digest.as_slice(), &mut digits);
    digits
}

/// Writes the first line.
fn write_head<S: Sink>(
    out: &mut S,
    form: Form,
    threads: u32,
    digest: &Digest,
) -> Result<(), OutFault>
    ensures { Wrote (seen S.Counted out.old) (seen S.Counted out.new) result
        (line (codes "ok " ++ form_text form ++ codes " threads " ++ decimal threads ++ codes " digest "
        ++ encode_lower digest.now)) }
{
    copy_out(out, summary_head(form, threads).as_str().as_bytes())?;
    copy_out(out, &digits_of(digest))?;
    copy_out(out, b"\n")
}

/// What stands before a thread's name.
fn head_of(number: usize, thread: &Thread) -> Line
    ensures { result.bytes ≡ thread_head number (length thread.now.shared.funcs)
        (length thread.now.shared.stacks) (length thread.now.samples)
        (length thread.now.markers.rows) }
{
    thread_head(
        number,
        thread.func_count(),
        thread.stacks().count(),
        thread.sample_count(),
        thread.markers().rows.len(),
    )
}

/// Adds a thread's line to the page.
fn add_thread<S: Sink>(
    out: &mut S,
    page: &mut Page,
    number: usize,
    thread: &Thread,
) -> Result<(), OutFault>
    ensures { Gathers (seen S.Counted out.old) (seen S.Counted out.new) result
        page.old.bytes (thread_line (number, thread.now)) page.new.bytes }
{
    add_line(out, page, &head_of(number, thread))?;
    add_string(out, page, thread.name())?;
    add_text(out, page, "\n")
}

/// Writes the lines of threads.
fn write_threads<S: Sink>(out: &mut S, threads: &[Rc<Thread>]) -> Result<(), OutFault>
    ensures { Wrote (seen S.Counted out.old) (seen S.Counted out.new) result
        (flat_map thread_line (enumerate_from 0 (map (λ t. t.value) threads.now))) }
{
    let mut page = Page::new();
    for (number, thread) in threads.iter().enumerate() {
        add_thread(out, &mut page, number, thread)?;
    }
    write_page(out, &mut page)
}

/// How many threads a profile has.
pub fn thread_count(profile: &Profile) -> u32
    ensures { result ≡ length profile.now.threads }
{
    profile.keeps();
    profile.threads.len() as u32
}

/// Writes the summary of a profile, of which this is the digest and the form.
pub fn write_summary<S: Sink>(
    out: &mut S,
    profile: &Profile,
    digest: &Digest,
    form: Form,
) -> Result<(), OutFault>
    ensures { Wrote (seen S.Counted out.old) (seen S.Counted out.new) result
        (summary_text profile.now digest.now form) }
{
    write_head(out, form, thread_count(profile), digest)?;
    write_threads(out, &profile.threads)
}
