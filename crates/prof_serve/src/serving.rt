//! A connection served to its end.
ghost use Rattle.std.specs.Prelude.{◌≡◌, ◌≢◌, ◌≤◌, ℕ, Bool, List};
ghost use Rattle.prof_io.specs.Causes.{Rose};
ghost use Rattle.prof_machine.specs.Play.{Held};
ghost use Rattle.prof_script.specs.Playing.{IsHeld, stage};
ghost use Rattle.prof_script.specs.Readings.{AreLaid, Laid};
ghost use Rattle.prof_serve.specs.Serving.{Serves};

use crate::answering::answer_message;
use prof_io::{Hall, Keeper, Steps};
use prof_session_desk::Desk;
use prof_wire::{Routes, Wire, WireEnd, write_refusal};
use std::alloc::Global;
use std::sync::ledger::Ledger;

/// How a connection ended.
#[derive(Clone, Copy, Debug, PartialEq, Eq)]
pub enum ConnEnd {
    /// Its bytes ended between messages, or its last message was answered.
    Ended,
    /// A message was refused, and the refusal was written.
    Refused,
    /// The hall has failed, and has counted it.
    Faulted,
}

/// Serves the connection that the hall serves now, to its end: each message is a request to the desk, whose reply is the
/// response. Where memory runs out for a request it changes nothing, that is answered, and the connection goes on.
pub fn serve_connection<H: Hall, K: Keeper, L: Ledger>(
    alloc: Global,
    desk: &mut Desk,
    wire: &mut Wire,
    routes: &Routes,
    hall: &mut H,
    keeper: &mut K,
    reads: &mut Steps<L>,
) -> ConnEnd
    ensures serves { (told : Bool) (held : Held) (laid : List (List ℕ × Laid)) →
        IsHeld desk.old.profiles told desk.old (K.texts keeper.old) held → AreLaid desk.old laid →
        Serves desk.old.profiles told held laid (stage K.Counted K.Keeper.own H.Counted desk.old keeper.old hall.old reads.old)
        (stage K.Counted K.Keeper.own H.Counted desk.new keeper.new hall.new reads.new) result }
    ensures place { H.place hall.new ≡ H.place hall.old }
    ensures faulted { result ≡ ConnEnd.Faulted → Rose (H.faults hall.old) (H.faults hall.new) }
    ensures calm { result ≢ ConnEnd.Faulted → H.faults hall.new ≡ H.faults hall.old }
    ensures higher { H.faults hall.old ≤ H.faults hall.new }
    ensures steady { H.sure hall.old → H.sure hall.new }
    ensures profiles { desk.new.profiles ≡ desk.old.profiles }
    ensures called { K.called_at keeper.new ≡ K.called_at keeper.old }
    ensures returned { K.returned_at keeper.new ≡ K.returned_at keeper.old }
    ensures later { K.faults keeper.old ≤ K.faults keeper.new }
    ensures sure { K.sure keeper.old → K.sure keeper.new }
{
    wire.reset();
    'messages: for _count in 0..1000u16 {
        match wire.next_message(hall) {
            Ok(message) => {
                let last = message.last;
                match answer_message(alloc, desk, routes, message, hall, keeper, reads) {
                    Ok(()) => {}
                    Err(_) => return ConnEnd::Faulted,
                }
                if last {
                    return ConnEnd::Ended;
                }
            }
            Err(WireEnd::End) => return ConnEnd::Ended,
            Err(WireEnd::HallFault) => return ConnEnd::Faulted,
            Err(end) => {
                return match write_refusal(hall, end) {
                    Ok(()) => ConnEnd::Refused,
                    Err(_) => ConnEnd::Faulted,
                };
            }
        }
    }
    ConnEnd::Ended
}
