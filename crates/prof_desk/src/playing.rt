// The answers to an order, over the profile that it reads.
ghost use Rattle.std.specs.Prelude.{◌≡◌, ◌≤◌, ◌+◌, ◌*◌, ◌++◌, codes, Some, Ok, Err, OnOk, OnErr};
ghost use Rattle.prof_desk.specs.Playing.{Leaves, status_of};
ghost use Rattle.prof_desk.specs.Summary.{summary_text};
ghost use Rattle.prof_demo.specs.Generated.{generated};
ghost use Rattle.prof_io.specs.Outside.{seen};
ghost use Rattle.prof_io.specs.Sinks.{Wrote};
ghost use Rattle.prof_write.specs.Compact.{compact};
ghost use Rattle.prof_write.specs.Written.{profile_value, stack_rows};

use crate::summary::write_summary;
use prof_demo::generate;
use prof_io::{OutFault, Sink, Steps};
use prof_read::{Digest, Form};
use prof_script::PlayEnd;
use prof_tables::Profile;
use prof_write::write_profile;
use std::alloc::Global;
use std::sync::ledger::Ledger;

/// How the answers ended by a text that was all that was left to write.
fn played(written: Result<(), OutFault>) -> Result<(), PlayEnd>
    ensures ok { OnOk written (result ≡ Ok tt) }
    ensures err { OnErr written (result ≡ Err PlayEnd.OutFault) }
{
    match written {
        Ok(()) => Ok(()),
        Err(_) => Err(PlayEnd::OutFault),
    }
}

/// Writes the summary of a profile, of which this is the digest and the form.
pub fn write_check<S: Sink>(
    profile: &Profile,
    digest: &Digest,
    form: Form,
    out: &mut S,
) -> Result<(), PlayEnd>
    ensures { Leaves (seen S.Counted out.old) (seen S.Counted out.new) (status_of result)
        (summary_text profile.now digest.now form) }
{
    played(write_summary(out, profile, digest, form))
}

/// Writes a profile as a text. Each stack row of each thread is read at most twice.
pub fn write_converted<S: Sink, L: Ledger>(
    profile: &Profile,
    out: &mut S,
    reads: &mut Steps<L>,
) -> Result<(), PlayEnd>
    ensures written { Leaves (seen S.Counted out.old) (seen S.Counted out.new) (status_of result)
        (compact (profile_value profile.now)) }
    ensures readings { reads.new ≤ reads.old + 2 * stack_rows profile.now.threads }
{
    played(write_profile(profile, out, reads))
}

/// Writes the text of the profile that the number makes.
pub fn write_generated<S: Sink>(number: u32, out: &mut S) -> Result<(), PlayEnd>
    ensures { Leaves (seen S.Counted out.old) (seen S.Counted out.new) (status_of result)
        (generated number) }
{
    played(generate(number, out))
}
