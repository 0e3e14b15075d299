//! The body of a response, before it is written.
ghost use Rattle.std.specs.Prelude.{◌≡◌, ◌<◌, ◌≤◌, [], length, IfOk};
ghost use Rattle.std.specs.Io.KnownBytes.{WriteAppends};
ghost use Rattle.prof_io.specs.Bytes.{UsesRoom};
ghost use Rattle.prof_io.specs.Causes.{HasCause};

use prof_io::{Counted, Failed, Sink};
use std::alloc::Global;

/// A text that grows in memory. Where memory runs out a write fails.
#[derive(Drop)]
pub struct Body {
    bytes: Vec<u8>,
    faults: u64,
}

impl Body {
    /// An empty text, which takes no memory yet.
    pub fn new(alloc: Global) -> Self
        ensures { result.bytes.items ≡ [] }
    {
        Body {
            bytes: Vec::new(alloc),
            faults: 0,
        }
    }

    /// The text.
    pub fn as_slice(&self) -> &[u8]
        ensures { result.now ≡ self.now.bytes.items }
    {
        &self.bytes
    }
}

impl Counted for Body {
    ghost use Rattle.std.specs.Prelude.{Some};

    ghost faults = { λ b. b.faults };

    ghost written = { λ b. Some b.bytes.items };
}

impl Sink for Body {
    fn write(&mut self, piece: &[u8]) -> Result<usize, Failed>
        requires { 0 < length piece.now }
        ensures bound { IfOk result (λ n. (1 ≤ n) × (n ≤ length piece.now)) }
        ensures bytes { WriteAppends (⟦<Body as Counted>⟧.written self.old) (⟦<Body as Counted>⟧.written self.new) result piece.now }
        ensures left { ⟦<Body as Counted>⟧.left self.new ≡ ⟦<Body as Counted>⟧.left self.old }
        ensures place { ⟦<Body as Counted>⟧.place self.new ≡ ⟦<Body as Counted>⟧.place self.old }
        ensures room { UsesRoom (⟦<Body as Counted>⟧.room self.old) (⟦<Body as Counted>⟧.room self.new) result }
        ensures sure { ⟦<Body as Counted>⟧.sure self.old → ⟦<Body as Counted>⟧.sure self.new }
        ensures cause { HasCause (⟦<Body as Counted>⟧.faults self.old) (⟦<Body as Counted>⟧.faults self.new) result }
    {
        match self.bytes.extend_from_slice(piece) {
            Ok(()) => Ok(piece.len()),
            Err(_) => {
                self.faults = self.faults.saturating_add(1);
                Err(Failed)
            }
        }
    }
}
