//! An index that may be none, in four bytes.
ghost use Rattle.std.specs.Prelude.{◌≡◌, ◌<◌, IfSome};

use std::marker::Model;

/// The number that stands for none.
const NONE: u32 = u32::MAX;

/// An index below 2^32 - 1, or none.
#[derive(Drop)]
pub(crate) struct MaybeIndex {
    number: u32,
}

impl Model for MaybeIndex {
    ghost use Rattle.std.specs.Prelude.{ℕ, Option, Some, None, nat_eq, if◌then◌else◌};

    ghost Value = { Option ℕ };

    ghost view = { λ m. if nat_eq m.number 4294967295 then None else Some m.number };
}

impl MaybeIndex {
    pub(crate) fn of(index: Option<u32>) -> Self
        requires { IfSome index (λ n. n < 4294967295) }
        ensures { result ≡ index }
    {
        let number = match index {
            Some(number) => number,
            None => NONE,
        };
        MaybeIndex { number }
    }

    pub(crate) fn get(&self) -> Option<u32>
        ensures { result ≡ self.now }
    {
        if self.number == NONE {
            None
        } else {
            Some(self.number)
        }
    }
}
