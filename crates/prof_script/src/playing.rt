//! The lines of a script, answered one after another.
ghost use Rattle.std.specs.Prelude.{◌≡◌, ◌≢◌, ◌≤◌, ◌∷◌, [], ℕ, Bool, List, Ok, Err, map, option_copied, ⊤};
ghost use Rattle.prof_io.specs.Outside.{seen};
ghost use Rattle.prof_io.specs.Sinks.{Wrote};
ghost use Rattle.prof_machine.specs.Play.{Held};
ghost use Rattle.prof_request.proofs.OutcomeLemmas.{line_of};
ghost use Rattle.prof_reply.specs.Replies.{reply_bytes};
ghost use Rattle.prof_script.specs.Lines.{lines_of, some_line};
ghost use Rattle.prof_script.specs.Playing.{IsHeld, Plays, output_end, stage};
ghost use Rattle.prof_script.specs.Readings.{AreLaid, Laid};

use crate::lines::{behind, front, line_len};
use prof_io::{Keeper, Sink, Steps};
use prof_machine::{Refusal, Reply};
use prof_reply::reply_text;
use prof_request::{LineRefusal, Request, read_request};
use prof_session_desk::Desk;
use prof_tables::Thread;
use std::alloc::Global;
use std::sync::ledger::Ledger;

/// Why the answers stopped.
#[derive(Clone, Copy, Debug, PartialEq, Eq)]
pub enum PlayEnd {
    /// The output counted a fault.
    OutFault,
    NoMemory,
}

/// Writes a reply.
fn put_reply<S: Sink>(thread: Option<&Thread>, reply: &Reply, out: &mut S) -> Result<(), PlayEnd>
    ensures written { Wrote (seen S.Counted out.old) (seen S.Counted out.new) (output_end result)
        (reply_bytes (option_copied thread.entry) reply.now) }
    ensures unstarved { result ≢ Err PlayEnd.NoMemory }
{
    match reply_text(thread, reply, out) {
        Ok(()) => Ok(()),
        Err(_) => Err(PlayEnd::OutFault),
    }
}

/// Answers a request, and writes the reply. Where memory runs out there is none.
pub fn play_request<K: Keeper, S: Sink, L: Ledger>(
    alloc: Global,
    desk: &mut Desk,
    request: &Request,
    keeper: &mut K,
    out: &mut S,
    reads: &mut Steps<L>,
) -> Result<(), PlayEnd>
    ensures plays { (told : Bool) (held : Held) (laid : List (List ℕ × Laid)) → IsHeld desk.old.profiles told desk.old (K.texts keeper.old) held → AreLaid desk.old laid →
        Plays desk.old.profiles told held laid (Ok request.now ∷ []) (stage K.Counted K.Keeper.own S.Counted desk.old keeper.old out.old reads.old)
        (stage K.Counted K.Keeper.own S.Counted desk.new keeper.new out.new reads.new) result }
    ensures profiles { desk.new.profiles ≡ desk.old.profiles }
    ensures called { K.called_at keeper.new ≡ K.called_at keeper.old }
    ensures returned { K.returned_at keeper.new ≡ K.returned_at keeper.old }
    ensures later { K.faults keeper.old ≤ K.faults keeper.new }
    ensures sure { K.sure keeper.old → K.sure keeper.new }
{
    match desk.answer(alloc, request, keeper, reads) {
        Reply::NoMemory => Err(PlayEnd::NoMemory),
        reply => put_reply(desk.thread_of(request.session.as_str()), &reply, out),
    }
}

/// Answers a line, if it isn't empty, and writes the reply.
fn play_line<K: Keeper, S: Sink, L: Ledger>(
    alloc: Global,
    desk: &mut Desk,
    line: &[u8],
    keeper: &mut K,
    out: &mut S,
    reads: &mut Steps<L>,
) -> Result<(), PlayEnd>
    ensures plays { (told : Bool) (held : Held) (laid : List (List ℕ × Laid)) → IsHeld desk.old.profiles told desk.old (K.texts keeper.old) held → AreLaid desk.old laid →
        Plays desk.old.profiles told held laid (map line_of (some_line line.now)) (stage K.Counted K.Keeper.own S.Counted desk.old keeper.old out.old reads.old)
        (stage K.Counted K.Keeper.own S.Counted desk.new keeper.new out.new reads.new) result }
    ensures profiles { desk.new.profiles ≡ desk.old.profiles }
    ensures called { K.called_at keeper.new ≡ K.called_at keeper.old }
    ensures returned { K.returned_at keeper.new ≡ K.returned_at keeper.old }
    ensures later { K.faults keeper.old ≤ K.faults keeper.new }
    ensures sure { K.sure keeper.old → K.sure keeper.new }
{
    if line.is_empty() {
        return Ok(());
    }
    match read_request(alloc, line) {
        Ok(request) => play_request(alloc, desk, &request, keeper, out, reads),
        Err(LineRefusal::BadText { at }) => {
            put_reply(None, &Reply::Refused(Refusal::BadText { at }), out)
        }
        Err(LineRefusal::NoMemory) => Err(PlayEnd::NoMemory),
    }
}

/// Answers the lines of a script one after another, and writes the replies. A line ends at a line feed or at the script's
/// end, and an empty one is passed over. Where memory runs out in a line, no later one is answered.
pub fn play_script<K: Keeper, S: Sink, L: Ledger>(
    alloc: Global,
    desk: &mut Desk,
    script: &[u8],
    keeper: &mut K,
    out: &mut S,
    reads: &mut Steps<L>,
) -> Result<(), PlayEnd>
    ensures plays { (told : Bool) (held : Held) (laid : List (List ℕ × Laid)) → IsHeld desk.old.profiles told desk.old (K.texts keeper.old) held → AreLaid desk.old laid →
        Plays desk.old.profiles told held laid (lines_of script.now) (stage K.Counted K.Keeper.own S.Counted desk.old keeper.old out.old reads.old)
        (stage K.Counted K.Keeper.own S.Counted desk.new keeper.new out.new reads.new) result }
    ensures profiles { desk.new.profiles ≡ desk.old.profiles }
    ensures called { K.called_at keeper.new ≡ K.called_at keeper.old }
    ensures returned { K.returned_at keeper.new ≡ K.returned_at keeper.old }
    ensures later { K.faults keeper.old ≤ K.faults keeper.new }
    ensures sure { K.sure keeper.old → K.sure keeper.new }
{
    let mut rest = script;
    while !rest.is_empty() {
        let len = line_len(rest);
        let line = front(rest, len);
        play_line(alloc, desk, line, keeper, out, reads)?;
        rest = behind(rest, len);
    }
    Ok(())
}
