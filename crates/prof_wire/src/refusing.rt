// The answers to messages that are refused before they are looked at.
ghost use Rattle.std.specs.Prelude.{◌≡◌, Some, None, MatchOption};
ghost use Rattle.prof_io.specs.Outside.{seen};
ghost use Rattle.prof_io.specs.Sinks.{Wrote};
ghost use Rattle.prof_wire.specs.Responses.{IsStatus, refusal_of, refusal_bytes};

use crate::messages::{Why, WireEnd};
use crate::responding::{HallFault, write_response};
use http::StatusCode;
use prof_io::Hall;

// The status and the body of the answer, if there is one.
fn refusal(end: WireEnd) -> Option<(StatusCode, &'static str)>
    ensures value { MatchOption result (refusal_of end ≡ None) (λ r. refusal_of end ≡ Some (r.0, r.1.now)) }
    ensures known { MatchOption result (refusal_of end ≡ None) (λ r. IsStatus r.0) }
{
    match end {
        WireEnd::End | WireEnd::HallFault => None,
        WireEnd::Bad(Why::Head) => Some((StatusCode::BAD_REQUEST, "refused Bad Head\n")),
        WireEnd::Bad(Why::Cut) => Some((StatusCode::BAD_REQUEST, "refused Bad Cut\n")),
        WireEnd::Bad(Why::Host) => Some((StatusCode::BAD_REQUEST, "refused Bad Host\n")),
        WireEnd::Bad(Why::Length) => Some((StatusCode::BAD_REQUEST, "refused Bad Length\n")),
        WireEnd::HeadTooLong => Some((
            StatusCode::REQUEST_HEADER_FIELDS_TOO_LARGE,
            "refused HeadTooLong\n",
        )),
        WireEnd::BodyTooLong => Some((StatusCode::PAYLOAD_TOO_LARGE, "refused BodyTooLong\n")),
        WireEnd::Coded => Some((StatusCode::NOT_IMPLEMENTED, "refused Coded\n")),
        WireEnd::Expect => Some((StatusCode::EXPECTATION_FAILED, "refused Expect\n")),
    }
}

/// Writes the answer to a message that the wire refused, after which the connection ends. The end of a
/// connection between messages and a fault of the hall have no answer, and then nothing is written.
///
/// Where the hall fails, a front part of the answer was written.
pub fn write_refusal<H: Hall>(hall: &mut H, end: WireEnd) -> Result<(), HallFault>
    ensures { Wrote (seen H.Counted hall.old) (seen H.Counted hall.new) result (refusal_bytes end) }
{
    match refusal(end) {
        None => Ok(()),
        Some((status, body)) => write_response(hall, status, None, true, body.as_bytes()),
    }
}
