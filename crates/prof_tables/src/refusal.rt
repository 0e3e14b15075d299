//! Why tables weren't built.
ghost use Rattle.std.specs.Prelude.{◌≡◌};

use prof_io::NoMemory;
use prof_raw::Broken;
use std::alloc::{AllocError, AllocFailed};

/// Why tables weren't built.
#[derive(Debug, Drop)]
pub enum BuildRefusal {
    Broken(Broken),
    NoMemory,
}

impl From<Broken> for BuildRefusal {
    ghost use Rattle.prof_tables.specs.declared.refusal.BuildRefusal.TheVariants as refusal;

    ghost from_gives = { λ broken refused. refused ≡ refusal.Broken broken };

    fn from(broken: Broken) -> Self {
        BuildRefusal::Broken(broken)
    }
}

impl From<NoMemory> for BuildRefusal {
    ghost use Rattle.prof_tables.specs.declared.refusal.BuildRefusal.TheVariants as refusal;

    ghost from_gives = { λ _ refused. refused ≡ refusal.NoMemory };

    fn from(_error: NoMemory) -> Self {
        BuildRefusal::NoMemory
    }
}

impl From<AllocError> for BuildRefusal {
    ghost use Rattle.prof_tables.specs.declared.refusal.BuildRefusal.TheVariants as refusal;

    ghost from_gives = { λ _ refused. refused ≡ refusal.NoMemory };

    fn from(_error: AllocError) -> Self {
        BuildRefusal::NoMemory
    }
}

impl<T: Drop> From<AllocFailed<T>> for BuildRefusal {
    ghost use Rattle.prof_tables.specs.declared.refusal.BuildRefusal.TheVariants as refusal;

    ghost from_gives = { λ _ refused. refused ≡ refusal.NoMemory };

    fn from(_error: AllocFailed<T>) -> Self {
        BuildRefusal::NoMemory
    }
}
