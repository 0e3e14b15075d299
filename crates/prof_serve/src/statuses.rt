//! The statuses of replies.
ghost use Rattle.std.specs.Prelude.{◌≡◌};
ghost use Rattle.prof_wire.specs.Responses.{IsStatus};
ghost use Rattle.prof_serve.specs.Statuses.{refusal_status, status_of};

use http::StatusCode;
use prof_machine::{Refusal, Reply};

/// The status of a refusal.
fn refusal_status(refusal: &Refusal) -> StatusCode
    ensures value { result ≡ refusal_status refusal.now }
    ensures known { IsStatus result }
{
    match refusal {
        Refusal::BadAddress { .. } | Refusal::BadText { .. } => StatusCode::BAD_REQUEST,
        Refusal::NoSession | Refusal::NoProfile | Refusal::NoThread { .. } | Refusal::NotSaved => {
            StatusCode::NOT_FOUND
        }
        Refusal::NameTaken
        | Refusal::Stale { .. }
        | Refusal::NothingToUndo
        | Refusal::NothingToRedo
        | Refusal::BadSaved { .. }
        | Refusal::OtherProfile { .. }
        | Refusal::VersionEnd => StatusCode::CONFLICT,
        Refusal::TooManySessions | Refusal::KeeperFault => StatusCode::SERVICE_UNAVAILABLE,
        Refusal::FuncOut { .. }
        | Refusal::ResourceOut { .. }
        | Refusal::CategoryOut { .. }
        | Refusal::EmptyPath
        | Refusal::LongPath { .. }
        | Refusal::TooManyTransforms
        | Refusal::BadRange
        | Refusal::TooManyRanges
        | Refusal::DepthOut { .. }
        | Refusal::TooManyNodes { .. }
        | Refusal::LongSearch => StatusCode::UNPROCESSABLE_ENTITY,
    }
}

/// The status of a reply.
pub fn status_of(reply: &Reply) -> StatusCode
    ensures value { result ≡ status_of reply.now }
    ensures known { IsStatus result }
{
    match reply {
        Reply::Refused(refusal) => refusal_status(refusal),
        Reply::NoMemory => StatusCode::INSUFFICIENT_STORAGE,
        Reply::Done { .. }
        | Reply::Closed
        | Reply::Tree(_)
        | Reply::Inverted(_)
        | Reply::Markers(_)
        | Reply::Address(_) => StatusCode::OK,
    }
}
