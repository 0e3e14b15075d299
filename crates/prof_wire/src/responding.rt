// Responses, as they are written.
ghost use Rattle.std.specs.Prelude.{◌≡◌, ◌≤◌, ◌++◌, length, IfSome};
ghost use Rattle.prof_io.specs.Outside.{seen};
ghost use Rattle.prof_io.specs.Sinks.{Wrote};
ghost use Rattle.prof_wire.specs.Responses.{IsStatus, reason, allow_line, close_line, response_head, response_bytes};

use arrayvec::{ArrayString, ArrayVec};
use http::StatusCode;
use itoa::Buffer;
use prof_io::{Hall, OutFault, copy_out};
use thiserror::Error;

/// The hall has failed, and has counted it.
#[derive(Clone, Copy, Debug, PartialEq, Eq, Error)]
#[error("the hall failed")]
pub struct HallFault;

// How many bytes the longest head of a response needs at most.
const ROOM: usize = 256;

type Line = ArrayString<ROOM>;

// How long a response may be that is written in one piece, so that the system is asked once.
const SHORT: usize = 1024;

type Short = ArrayVec<u8, SHORT>;

// The phrase of a status.
fn phrase(status: StatusCode) -> &'static str
    requires { IsStatus status }
    ensures value { result.now ≡ reason status }
    ensures short { length result.now ≤ 31 }
{
    status.canonical_reason().unwrap_or("")
}

// The field that names the methods which a command serves.
fn allow_line(allow: Option<bool>) -> &'static str
    ensures value { result.now ≡ allow_line allow }
    ensures short { length result.now ≤ 18 }
{
    match allow {
        None => "",
        Some(true) => "allow: GET, POST\r\n",
        Some(false) => "allow: POST\r\n",
    }
}

// The field that says that the connection ends after the response.
fn close_line(last: bool) -> &'static str
    ensures value { result.now ≡ close_line last }
    ensures short { length result.now ≤ 19 }
{
    if last { "connection: close\r\n" } else { "" }
}

// What stands before the body of a response.
#[tactic(auto, unfolding(crate::specs::Responses::response_head))]
fn response_head(status: StatusCode, allow: Option<bool>, last: bool, size: usize) -> Line
    requires { IsStatus status }
    ensures { result.bytes ≡ response_head status allow last size }
{
    let mut line = ArrayString::new();
    let mut buffer = Buffer::new();
    line.push_str("HTTP/1.1 ");
    line.push_str(status.as_str());
    line.push_str(" ");
    line.push_str(phrase(status));
    line.push_str("\r\ncontent-type: text/plain; charset=utf-8\r\ncontent-length: ");
    line.push_str(buffer.format(size));
    line.push_str("\r\n");
    line.push_str(allow_line(allow));
    line.push_str(close_line(last));
    line.push_str("\r\n");
    line
}

// Both texts in one, where that is short.
fn joined(head: &[u8], body: &[u8]) -> Option<Short>
    ensures { IfSome result (λ short. short.items ≡ head.now ++ body.now) }
{
    let mut short = ArrayVec::new();
    short.try_extend_from_slice(head).ok()?;
    short.try_extend_from_slice(body).ok()?;
    Some(short)
}

// Writes both texts, in one piece where they are short.
fn put_both<H: Hall>(hall: &mut H, head: &[u8], body: &[u8]) -> Result<(), OutFault>
    ensures { Wrote (seen H.Counted hall.old) (seen H.Counted hall.new) result (head.now ++ body.now) }
{
    if let Some(short) = joined(head, body) {
        return copy_out(hall, short.as_slice());
    }
    match copy_out(hall, head) {
        Ok(()) => copy_out(hall, body),
        Err(fault) => Err(fault),
    }
}

/// Writes a response into the connection that the hall serves. `allow` stands in an answer to a wrong
/// method: whether `GET` serves the command, besides `POST`. `last` says that the connection ends
/// after it.
///
/// Where the hall fails, a front part of the response was written.
pub fn write_response<H: Hall>(
    hall: &mut H,
    status: StatusCode,
    allow: Option<bool>,
    last: bool,
    body: &[u8],
) -> Result<(), HallFault>
    requires { IsStatus status }
    ensures { Wrote (seen H.Counted hall.old) (seen H.Counted hall.new) result (response_bytes status allow last body.now) }
{
    let head = response_head(status, allow, last, body.len());
    match put_both(hall, head.as_bytes(), body) {
        Ok(()) => Ok(()),
        Err(_) => Err(HallFault),
    }
}
