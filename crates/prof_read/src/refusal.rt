//! Why a profile wasn't read.
use prof_gather::GatherRefusal;
use prof_io::NoMemory;
use prof_json::JsonFault;
use prof_tables::{Broken, BuildRefusal};
use std::alloc::{AllocError, AllocFailed};

/// Why a profile wasn't read.
#[derive(Clone, Copy, Debug, PartialEq, Eq)]
pub enum ReadRefusal {
    /// The bytes are no text that is accepted. It is never `ReadFault` or `NoMemory`, which stand below.
    Json(JsonFault),
    /// The first check that fails.
    Broken(Broken),
    /// The source failed.
    ReadFault,
    /// Memory ran out.
    NoMemory,
}

impl From<GatherRefusal> for ReadRefusal {
    ghost use Rattle.std.specs.Prelude.{◌≡◌};
    ghost use Rattle.prof_read.specs.Refusals.{ungathered};

    ghost from_gives = { λ refused answer. answer ≡ ungathered refused };

    fn from(refused: GatherRefusal) -> Self {
        match refused {
            GatherRefusal::Json(fault) => ReadRefusal::Json(fault),
            GatherRefusal::ReadFault => ReadRefusal::ReadFault,
            GatherRefusal::NoMemory => ReadRefusal::NoMemory,
        }
    }
}

impl From<Broken> for ReadRefusal {
    ghost use Rattle.std.specs.Prelude.{◌≡◌};
    ghost use Rattle.prof_read.specs.declared.refusal.ReadRefusal.TheVariants as refusal;

    ghost from_gives = { λ broken refused. refused ≡ refusal.Broken broken };

    fn from(broken: Broken) -> Self {
        ReadRefusal::Broken(broken)
    }
}

impl From<BuildRefusal> for ReadRefusal {
    ghost use Rattle.std.specs.Prelude.{◌≡◌};
    ghost use Rattle.prof_read.specs.Refusals.{unbuilt};

    ghost from_gives = { λ refused answer. answer ≡ unbuilt refused };

    fn from(refused: BuildRefusal) -> Self {
        match refused {
            BuildRefusal::Broken(broken) => ReadRefusal::Broken(broken),
            BuildRefusal::NoMemory => ReadRefusal::NoMemory,
        }
    }
}

impl From<NoMemory> for ReadRefusal {
    ghost use Rattle.std.specs.Prelude.{◌≡◌};
    ghost use Rattle.prof_read.specs.declared.refusal.ReadRefusal.TheVariants as refusal;

    ghost from_gives = { λ _ refused. refused ≡ refusal.NoMemory };

    fn from(_error: NoMemory) -> Self {
        ReadRefusal::NoMemory
    }
}

impl From<AllocError> for ReadRefusal {
    ghost use Rattle.std.specs.Prelude.{◌≡◌};
    ghost use Rattle.prof_read.specs.declared.refusal.ReadRefusal.TheVariants as refusal;

    ghost from_gives = { λ _ refused. refused ≡ refusal.NoMemory };

    fn from(_error: AllocError) -> Self {
        ReadRefusal::NoMemory
    }
}

impl<T: Drop> From<AllocFailed<T>> for ReadRefusal {
    ghost use Rattle.std.specs.Prelude.{◌≡◌};
    ghost use Rattle.prof_read.specs.declared.refusal.ReadRefusal.TheVariants as refusal;

    ghost from_gives = { λ _ refused. refused ≡ refusal.NoMemory };

    fn from(_error: AllocFailed<T>) -> Self {
        ReadRefusal::NoMemory
    }
}
