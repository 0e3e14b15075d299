//! The demo's lines, answered on a desk.
ghost use Rattle.std.specs.Prelude.{◌≡◌, ◌<◌, ◌∷◌, [], ℕ, List, Some, slice_get, true};
ghost use Rattle.prof_io.specs.Outside.{seen};
ghost use Rattle.prof_machine.specs.Known.{Known};
ghost use Rattle.prof_machine.specs.Play.{Held, Line};
ghost use Rattle.prof_script.specs.Lines.{lines_of};
ghost use Rattle.prof_script.specs.Playing.{IsHeld, stage};
ghost use Rattle.prof_script.specs.Readings.{AreLaid, Laid};
ghost use Rattle.prof_trial.specs.Trial.{PlaysFirsts, asked, trial_lines};

use crate::first::write_first;
use crate::kept::KeptText;
use prof_io::{Keeper, Sink, Steps};
use prof_script::{PlayEnd, play_script};
use prof_session_desk::Desk;
use std::alloc::Global;
use std::sync::ledger::Ledger;

/// The line of the demo at a place.
fn line_at(place: usize) -> &'static str
    requires { place < 9 }
    ensures { slice_get trial_lines place ≡ Some result.now }
{
    match place {
        0 => "d open main 0",
        2 => "d push 0 mf-1",
        4 => "d push 1 ff-7",
        6 => "d popto 2 1",
        7 => "d undo 3",
        _ => "d tree",
    }
}

/// Answers a line, and writes the first line of its reply.
fn play_first<K: Keeper, S: Sink, L: Ledger>(
    alloc: Global,
    desk: &mut Desk,
    line: &str,
    keeper: &mut K,
    out: &mut S,
    reads: &mut Steps<L>,
) -> Result<(), PlayEnd>
    ensures plays { (held : Held) (laid : List (List ℕ × Laid)) (l : Line) → K.sure keeper.old → lines_of line.now ≡ l ∷ [] →
        IsHeld desk.old.profiles true desk.old (K.texts keeper.old) held → AreLaid desk.old laid →
        PlaysFirsts desk.old.profiles held laid (l ∷ [])
        (stage K.Counted K.Keeper.own S.Counted desk.old keeper.old out.old reads.old)
        (stage K.Counted K.Keeper.own S.Counted desk.new keeper.new out.new reads.new) result }
    ensures sure { K.sure keeper.old → K.sure keeper.new }
    ensures profiles { desk.new.profiles ≡ desk.old.profiles }
{
    let mut reply = KeptText::new(alloc);
    match play_script(alloc, desk, line.as_bytes(), keeper, &mut reply, reads) {
        Ok(()) => {}
        Err(_) => return Err(PlayEnd::NoMemory),
    }
    match write_first(out, reply.bytes()) {
        Ok(()) => Ok(()),
        Err(_) => Err(PlayEnd::OutFault),
    }
}

/// Answers the demo's lines one after another, and writes the first line of each reply.
pub(crate) fn play_lines<K: Keeper, S: Sink, L: Ledger>(
    alloc: Global,
    desk: &mut Desk,
    keeper: &mut K,
    out: &mut S,
    reads: &mut Steps<L>,
) -> Result<(), PlayEnd>
    ensures { (held : Held) (laid : List (List ℕ × Laid)) → K.sure keeper.old →
        IsHeld desk.old.profiles true desk.old (K.texts keeper.old) held → AreLaid desk.old laid →
        PlaysFirsts desk.old.profiles held laid asked
        (stage K.Counted K.Keeper.own S.Counted desk.old keeper.old out.old reads.old)
        (stage K.Counted K.Keeper.own S.Counted desk.new keeper.new out.new reads.new) result }
{
    for place in 0..9 {
        play_first(alloc, desk, line_at(place), keeper, out, reads)?;
    }
    Ok(())
}
