// How the reading of a file, and an order, ended.
ghost use Rattle.std.specs.Prelude.{◌≡◌};
ghost use Rattle.prof_desk.specs.Outcomes.{ended_by, stopped_by};

use crate::Status;
use crate::breaks::Break;

/// Why a file isn't accepted.
#[derive(Clone, Copy, Debug, PartialEq, Eq)]
pub enum Stop {
    Broken(Break),
    /// The files counted a fault.
    FileFault,
    NoMemory,
}

/// How an order ended: after so many accepted files, and why the next one isn't accepted, where it is told of that.
#[derive(Clone, Copy, Debug, PartialEq, Eq)]
pub struct Outcome {
    pub status: Status,
    pub accepted: usize,
    pub broken: Option<Break>,
}

impl Outcome {
    /// By the file behind so many, which isn't accepted.
    pub fn stopped(accepted: usize, stop: Stop) -> Self
        ensures { result ≡ stopped_by accepted stop }
    {
        match stop {
            Stop::Broken(broken) => Outcome {
                status: Status::Broken,
                accepted,
                broken: Some(broken),
            },
            Stop::FileFault => Outcome::ended(accepted, Status::FileFault),
            Stop::NoMemory => Outcome::ended(accepted, Status::NoMemory),
        }
    }

    /// By anything else, after so many.
    pub fn ended(accepted: usize, status: Status) -> Self
        ensures { result ≡ ended_by accepted status }
    {
        Outcome {
            status,
            accepted,
            broken: None,
        }
    }
}
