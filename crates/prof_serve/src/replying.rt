//! Replies, written as responses.
ghost use Rattle.std.specs.Prelude.{◌++◌, ◌≡◌, Bool, None, codes, decimal, option_copied};
ghost use Rattle.prof_io.specs.Outside.{seen};
ghost use Rattle.prof_io.specs.Sinks.{Wrote};
ghost use Rattle.prof_reply.specs.Lines.{line};
ghost use Rattle.prof_serve.specs.Answers.{Tells, reply_response, reply_told};

use crate::body::Body;
use crate::statuses::status_of;
use arrayvec::ArrayString;
use http::StatusCode;
use itoa::Buffer;
use prof_io::Hall;
use prof_machine::Reply;
use prof_reply::reply_text;
use prof_tables::Thread;
use prof_wire::{HallFault, write_response};
use std::alloc::Global;

// How many bytes the text of a change has at most.
const ROOM: usize = 32;

/// The text of a request that was done, which takes no memory.
fn done_text(version: u32) -> ArrayString<ROOM>
    ensures { result.bytes ≡ line (codes "ok " ++ decimal version) }
{
    let mut text = ArrayString::new();
    let mut buffer = Buffer::new();
    text.push_str("ok ");
    text.push_str(buffer.format(version));
    text.push_str("\n");
    text
}

/// Writes the text of a reply as a response, or that there was no memory for it.
fn put_text<H: Hall>(
    alloc: Global,
    hall: &mut H,
    last: bool,
    thread: Option<&Thread>,
    reply: &Reply,
) -> Result<(), HallFault>
    ensures { (said : Bool) × Wrote (seen H.Counted hall.old) (seen H.Counted hall.new) result
        (reply_response last (option_copied thread.entry) (reply_told reply.now said)) }
{
    let mut body = Body::new(alloc);
    match reply_text(thread, reply, &mut body) {
        Ok(()) => write_response(hall, status_of(reply), None, last, body.as_slice()),
        Err(_) => put_starved(hall, last),
    }
}

/// Writes that memory ran out, as a response.
pub fn put_starved<H: Hall>(hall: &mut H, last: bool) -> Result<(), HallFault>
    ensures { Wrote (seen H.Counted hall.old) (seen H.Counted hall.new) result (reply_response last None Reply.NoMemory) }
{
    write_response(
        hall,
        StatusCode::INSUFFICIENT_STORAGE,
        None,
        last,
        b"refused S27 NoMemory\n",
    )
}

/// Writes a reply as a response. The thread is that of the session's present view. A reply that tells of a change takes no
/// memory; where there is none for the text of another one, that is told in its place.
pub fn put_reply<H: Hall>(
    alloc: Global,
    hall: &mut H,
    last: bool,
    thread: Option<&Thread>,
    reply: &Reply,
) -> Result<(), HallFault>
    ensures { (said : Bool) × Tells reply.now said × Wrote (seen H.Counted hall.old) (seen H.Counted hall.new) result
        (reply_response last (option_copied thread.entry) (reply_told reply.now said)) }
{
    match reply {
        Reply::Done { version } => {
            let text = done_text(*version);
            write_response(hall, StatusCode::OK, None, last, text.as_bytes())
        }
        Reply::Closed => write_response(hall, StatusCode::OK, None, last, b"ok\n"),
        _ => put_text(alloc, hall, last, thread, reply),
    }
}
