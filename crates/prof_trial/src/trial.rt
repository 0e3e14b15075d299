//! The demo.
ghost use Rattle.std.specs.Prelude.{◌≡◌, ◌≤◌, ◌+◌, [], IfOk};
ghost use Rattle.prof_io.specs.Outside.{seen};
ghost use Rattle.prof_trial.specs.Trial.{Puts, trial_profiles, trial_readings, trial_text};

use crate::playing::play_lines;
use crate::profile::made_profile;
use prof_io::{NoMemory, Sink, Steps};
use prof_memory::SteadyKeeper;
use prof_script::PlayEnd;
use prof_session_desk::Desk;
use std::alloc::Global;
use std::sync::ledger::Ledger;

/// A desk that has the profile that the number makes, and nothing else.
fn trial_desk(alloc: Global, number: u32) -> Result<Desk, NoMemory>
    ensures { IfOk result (λ desk. desk ≡ record { profiles = trial_profiles number; seats = [] }) }
{
    let (profile, digest) = made_profile(alloc, number)?;
    let mut desk = Desk::new(alloc);
    desk.add_profile(alloc, "main", profile, digest)?;
    Ok(desk)
}

/// Plays the demo on the profile that the number makes, and writes the first line of each reply. That profile is never
/// refused, and no keeper but one in memory is asked. A tree reads each stack row once, and once more for each transform
/// that isn't settled yet.
pub fn play_trial<S: Sink, L: Ledger>(
    alloc: Global,
    number: u32,
    out: &mut S,
    reads: &mut Steps<L>,
) -> Result<(), PlayEnd>
    ensures written { Puts (seen S.Counted out.old) (seen S.Counted out.new) result (trial_text number) }
    ensures readings { reads.new ≤ reads.old + trial_readings number }
{
    let Ok(mut desk) = trial_desk(alloc, number) else {
        return Err(PlayEnd::NoMemory);
    };
    play_lines(alloc, &mut desk, &mut SteadyKeeper::new(alloc), out, reads)
}
