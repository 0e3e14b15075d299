//! A text that is put together in memory.
ghost use Rattle.std.specs.Prelude.{◌≡◌, [], Some};

use prof_io::{Counted, Failed, Sink};
use std::alloc::Global;

/// A sink that keeps what is written to it. A write fails only for want of memory, and that is counted.
#[derive(Drop)]
pub(crate) struct KeptText {
    bytes: Vec<u8>,
    faults: u64,
}

impl KeptText {
    /// A sink to which nothing was written yet.
    pub(crate) fn new(alloc: Global) -> KeptText
        ensures { ⟦<KeptText as Counted>⟧.written result ≡ Some [] }
    {
        KeptText {
            bytes: Vec::new(alloc),
            faults: 0,
        }
    }

    /// What was written.
    pub(crate) fn bytes(&self) -> &[u8]
        ensures { ⟦<KeptText as Counted>⟧.written self.now ≡ Some result.now }
    {
        &self.bytes
    }
}

impl Counted for KeptText {
    ghost faults = { λ s. s.faults };

    ghost written = { λ s. Some s.bytes.items };
}

impl Sink for KeptText {
    fn write(&mut self, piece: &[u8]) -> Result<usize, Failed> {
        if self.bytes.extend_from_slice(piece).is_err() {
            self.faults = self.faults.saturating_add(1);
            return Err(Failed);
        }
        Ok(piece.len())
    }
}
