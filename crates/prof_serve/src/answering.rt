//! Messages, answered as requests to a desk.
ghost use Rattle.std.specs.Prelude.{◌≡◌, ◌≤◌, ℕ, Bool, List};
ghost use Rattle.prof_io.specs.Outside.{seen};
ghost use Rattle.prof_io.specs.Sinks.{Wrote};
ghost use Rattle.prof_machine.specs.Play.{Held};
ghost use Rattle.prof_script.specs.Playing.{IsHeld, stage};
ghost use Rattle.prof_script.specs.Readings.{AreLaid, Laid};
ghost use Rattle.prof_wire.specs.Lent.{asked_of};
ghost use Rattle.prof_wire.specs.Messages.{Asked};
ghost use Rattle.prof_serve.specs.Errands.{AsksLine};
ghost use Rattle.prof_serve.specs.Serving.{Answers};

use crate::asking::request_line;
use crate::replying::{put_reply, put_starved};
use http::StatusCode;
use prof_io::{Hall, Keeper, Steps};
use prof_machine::{Refusal, Reply};
use prof_request::{LineRefusal, read_request};
use prof_session_desk::Desk;
use prof_wire::{HallFault, Message, Route, Routes, write_response};
use std::alloc::Global;
use std::sync::ledger::Ledger;

/// Answers the request of a line, and writes the response. `last` says that the connection ends after it.
fn answer_line<H: Hall, K: Keeper, L: Ledger>(
    alloc: Global,
    desk: &mut Desk,
    line: &[u8],
    last: bool,
    hall: &mut H,
    keeper: &mut K,
    reads: &mut Steps<L>,
) -> Result<(), HallFault>
    ensures answers { (told : Bool) (held : Held) (laid : List (List ℕ × Laid)) →
        IsHeld desk.old.profiles told desk.old (K.texts keeper.old) held → AreLaid desk.old laid →
        (asked : Asked) → AsksLine asked line.now → asked.last ≡ last →
        Answers desk.old.profiles told held laid asked
        (stage K.Counted K.Keeper.own H.Counted desk.old keeper.old hall.old reads.old)
        (stage K.Counted K.Keeper.own H.Counted desk.new keeper.new hall.new reads.new) result }
    ensures wrote { (text : List ℕ) × Wrote (seen H.Counted hall.old) (seen H.Counted hall.new) result text }
    ensures profiles { desk.new.profiles ≡ desk.old.profiles }
    ensures called { K.called_at keeper.new ≡ K.called_at keeper.old }
    ensures returned { K.returned_at keeper.new ≡ K.returned_at keeper.old }
    ensures later { K.faults keeper.old ≤ K.faults keeper.new }
    ensures sure { K.sure keeper.old → K.sure keeper.new }
{
    match read_request(alloc, line) {
        Ok(request) => {
            let reply = desk.answer(alloc, &request, keeper, reads);
            let thread = desk.thread_of(request.session.as_str());
            put_reply(alloc, hall, last, thread, &reply)
        }
        Err(LineRefusal::BadText { at }) => {
            let reply = Reply::Refused(Refusal::BadText { at });
            put_reply(alloc, hall, last, None, &reply)
        }
        Err(LineRefusal::NoMemory) => put_starved(hall, last),
    }
}

/// Answers a message, and writes the response.
pub fn answer_message<H: Hall, K: Keeper, L: Ledger>(
    alloc: Global,
    desk: &mut Desk,
    routes: &Routes,
    message: Message<'_>,
    hall: &mut H,
    keeper: &mut K,
    reads: &mut Steps<L>,
) -> Result<(), HallFault>
    ensures answers { (told : Bool) (held : Held) (laid : List (List ℕ × Laid)) →
        IsHeld desk.old.profiles told desk.old (K.texts keeper.old) held → AreLaid desk.old laid →
        Answers desk.old.profiles told held laid (asked_of message.entry)
        (stage K.Counted K.Keeper.own H.Counted desk.old keeper.old hall.old reads.old)
        (stage K.Counted K.Keeper.own H.Counted desk.new keeper.new hall.new reads.new) result }
    ensures wrote { (text : List ℕ) × Wrote (seen H.Counted hall.old) (seen H.Counted hall.new) result text }
    ensures profiles { desk.new.profiles ≡ desk.old.profiles }
    ensures called { K.called_at keeper.new ≡ K.called_at keeper.old }
    ensures returned { K.returned_at keeper.new ≡ K.returned_at keeper.old }
    ensures later { K.faults keeper.old ≤ K.faults keeper.new }
    ensures sure { K.sure keeper.old → K.sure keeper.new }
{
    let last = message.last;
    match routes.route(message.method, message.target) {
        Route::Line { session, command } => {
            match request_line(alloc, session, command, message.body) {
                Ok(line) => answer_line(alloc, desk, &line, last, hall, keeper, reads),
                Err(_) => put_starved(hall, last),
            }
        }
        Route::NoRoute => {
            write_response(
                hall,
                StatusCode::NOT_FOUND,
                None,
                last,
                b"refused NoRoute\n",
            )
        }
        Route::NoMethod { get } => write_response(
            hall,
            StatusCode::METHOD_NOT_ALLOWED,
            Some(get),
            last,
            b"refused NoMethod\n",
        ),
    }
}
