//! A source whose bytes are hashed as they pass.
ghost use Rattle.prof_gather.specs.Hashing.{HoldsFront};

use prof_io::{Counted, Failed, Source};
use sha2::{Digest, Sha256};
use std::marker::{Brand, PhantomData};

/// What a source was when its reading began.
pub trait Start {
    ghost use Rattle.std.specs.Prelude.{ℕ, List};
    ghost use Rattle.std.specs.declared.option.Option.{Option};
    ghost use Rattle.prof_io.specs.Shelf.{Place};

    /// The bytes that it had left, where they are told.
    ghost text: { Option (List ℕ) };

    ghost written: { Option (List ℕ) };

    ghost place: { Place };

    ghost faults: { ℕ };

    ghost sure: { Type 0 };
}

impl Start for Brand {
    ghost use Rattle.std.specs.Prelude.{None};
    ghost use Rattle.prof_io.specs.Shelf.{nowhere};

    ghost text = { None };

    ghost written = { None };

    ghost place = { nowhere };

    ghost faults = { 0 };

    ghost sure = { ⊥ };
}

/// A source, and a hasher that has taken what came out of it.
#[derive(Drop)]
pub struct Hashed<R: Source, W: Start> {
    pub src: R,
    pub hasher: Sha256,
    pub of: PhantomData<W>,
    ghost front: { ∥ HoldsFront W.text (R.left src) hasher ∥₁ },
}

impl<R: Source, W: Start> Counted for Hashed<R, W> {
    ghost faults = { λ h. R.faults h.src };

    ghost left = { λ h. R.left h.src };

    ghost written = { λ h. R.written h.src };

    ghost place = { λ h. R.place h.src };

    ghost sure = { λ h. R.sure h.src };
}

impl<R: Source, W: Start> Source for Hashed<R, W> {
    fn read(&mut self, buf: &mut [u8]) -> Result<usize, Failed> {
        let count = self.src.read(buf)?;
        self.hasher.update(&buf[..count]);
        Ok(count)
    }
}
