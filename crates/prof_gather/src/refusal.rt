//! Why a text wasn't gathered.
use prof_io::NoMemory;
use prof_json::JsonFault;
use std::alloc::{AllocError, AllocFailed};

/// Why a text wasn't gathered.
#[derive(Clone, Copy, Debug, PartialEq, Eq)]
pub enum GatherRefusal {
    /// The bytes are no text that is accepted. It is never `ReadFault` or `NoMemory`, which stand below.
    Json(JsonFault),
    /// The source failed.
    ReadFault,
    /// Memory ran out.
    NoMemory,
}

impl From<JsonFault> for GatherRefusal {
    ghost use Rattle.std.specs.Prelude.{◌≡◌};
    ghost use Rattle.prof_gather.specs.Refusals.{refusal_of};

    ghost from_gives = { λ fault refused. refused ≡ refusal_of fault };

    fn from(fault: JsonFault) -> Self {
        match fault {
            JsonFault::ReadFault => GatherRefusal::ReadFault,
            JsonFault::NoMemory => GatherRefusal::NoMemory,
            JsonFault::NotJson { at } => GatherRefusal::Json(JsonFault::NotJson { at }),
            JsonFault::TooDeep { at } => GatherRefusal::Json(JsonFault::TooDeep { at }),
            JsonFault::TooLong => GatherRefusal::Json(JsonFault::TooLong),
        }
    }
}

impl From<NoMemory> for GatherRefusal {
    ghost use Rattle.std.specs.Prelude.{◌≡◌};
    ghost use Rattle.prof_gather.specs.declared.refusal.GatherRefusal.TheVariants as refusal;

    ghost from_gives = { λ _ refused. refused ≡ refusal.NoMemory };

    fn from(_error: NoMemory) -> Self {
        GatherRefusal::NoMemory
    }
}

impl From<AllocError> for GatherRefusal {
    ghost use Rattle.std.specs.Prelude.{◌≡◌};
    ghost use Rattle.prof_gather.specs.declared.refusal.GatherRefusal.TheVariants as refusal;

    ghost from_gives = { λ _ refused. refused ≡ refusal.NoMemory };

    fn from(_error: AllocError) -> Self {
        GatherRefusal::NoMemory
    }
}

impl<T: Drop> From<AllocFailed<T>> for GatherRefusal {
    ghost use Rattle.std.specs.Prelude.{◌≡◌};
    ghost use Rattle.prof_gather.specs.declared.refusal.GatherRefusal.TheVariants as refusal;

    ghost from_gives = { λ _ refused. refused ≡ refusal.NoMemory };

    fn from(_error: AllocFailed<T>) -> Self {
        GatherRefusal::NoMemory
    }
}
