// A source and a sink in memory, whose calls can be made to fail.
ghost use Rattle.std.specs.Prelude.{◌≡◌, ℕ, ◌≤◌, ◌<◌, ◌-◌, ◌⊎◌, ◌↔◌, List, [], length, min, drop, None, Some, IfOk, IfSome, IsOk, IsErr, vec_len};
ghost use Rattle.std.specs.Io.{ReadsAtMost};
ghost use Rattle.std.specs.Io.KnownBytes.{ReadConsumes, WriteAppends};
ghost use Rattle.prof_io.specs.Causes.{HasCause};
ghost use Rattle.prof_io.specs.Bytes.{UsesRoom};
ghost use Rattle.prof_memory.specs.Memory.{room_of};
ghost use Rattle.prof_memory.specs.Plans.{counted, Strikes};

use crate::buffer::Buffer;
use crate::giving::give;
use crate::trouble::{Planned, Trouble};
use prof_io::{Counted, Failed, NoMemory, Sink, Source};
use std::alloc::Global;

/// Bytes in memory, of which a read gives at most one piece.
#[derive(Drop)]
pub struct MemSource {
    bytes: Vec<u8>,
    at: usize,
    piece: usize,
    trouble: Trouble,
    ghost within: { at ≤ vec_len bytes },
    ghost some: { 0 < piece },
}

impl MemSource {
    /// A source of these bytes.
    pub fn new(bytes: Vec<u8>, piece: usize, failing: Vec<u64>) -> MemSource
        requires { 1 ≤ piece }
        ensures left { ⟦<MemSource as Counted>⟧.left result ≡ Some bytes.items }
        ensures sure { failing.items ≡ [] → ⟦<MemSource as Counted>⟧.sure result }
        ensures faults { ⟦<MemSource as Counted>⟧.faults result ≡ 0 }
        ensures plan { ⟦<MemSource as Planned>⟧.plan result ≡ record { failing = failing.items; calls = 0; piece = piece } }
    {
        MemSource {
            bytes,
            at: 0,
            piece,
            trouble: Trouble::new(failing),
        }
    }
}

impl Counted for MemSource {
    ghost faults = { λ s. s.trouble.faults };

    ghost left = { λ s. Some (drop s.at s.bytes.items) };

    ghost sure = { λ s. s.trouble.failing.items ≡ [] };
}

impl Planned for MemSource {
    ghost plan = { λ s. record { failing = s.trouble.failing.items; calls = s.trouble.calls; piece = s.piece } };
}

impl Source for MemSource {
    fn read(&mut self, buf: &mut [u8]) -> Result<usize, Failed>
        requires { 0 < length buf.old }
        ensures bound { ReadsAtMost result buf.new }
        ensures bytes { ReadConsumes (⟦<MemSource as Counted>⟧.left self.old) (⟦<MemSource as Counted>⟧.left self.new) result buf.new }
        ensures amount { IfOk result (λ n. IfSome (⟦<MemSource as Counted>⟧.left self.old) (λ left. n ≡ min (⟦<MemSource as Planned>⟧.plan self.old).piece (min (length left) (length buf.old)))) }
        ensures written { ⟦<MemSource as Counted>⟧.written self.new ≡ ⟦<MemSource as Counted>⟧.written self.old }
        ensures place { ⟦<MemSource as Counted>⟧.place self.new ≡ ⟦<MemSource as Counted>⟧.place self.old }
        ensures room { ⟦<MemSource as Counted>⟧.room self.new ≡ ⟦<MemSource as Counted>⟧.room self.old }
        ensures sure { ⟦<MemSource as Counted>⟧.sure self.old → IsOk result × ⟦<MemSource as Counted>⟧.sure self.new }
        ensures cause { HasCause (⟦<MemSource as Counted>⟧.faults self.old) (⟦<MemSource as Counted>⟧.faults self.new) result }

        // It fails at the calls that are listed, and at no others.
        ensures plan { ⟦<MemSource as Planned>⟧.plan self.new ≡ counted (⟦<MemSource as Planned>⟧.plan self.old) }
        ensures listed { IsErr result ↔ Strikes (⟦<MemSource as Planned>⟧.plan self.old) }
    {
        if self.trouble.strikes() {
            return Err(Failed);
        }
        let count = give(&self.bytes, self.at, self.piece, buf);
        self.at += count;
        Ok(count)
    }
}

/// A sink in memory, which can be given so many bytes in all, of which a write takes at most one piece.
#[derive(Drop)]
pub struct MemSink {
    buffer: Buffer,
    piece: usize,
    trouble: Trouble,
    ghost some: { 0 < piece },
}

impl MemSink {
    /// An empty sink, which takes all its memory now.
    pub fn new(
        alloc: Global,
        room: usize,
        piece: usize,
        failing: Vec<u64>,
    ) -> Result<MemSink, NoMemory>
        requires { 1 ≤ piece }
        ensures written { IfOk result (λ sink. ⟦<MemSink as Counted>⟧.written sink ≡ Some []) }
        ensures sure { failing.items ≡ [] → IfOk result (λ sink. ⟦<MemSink as Counted>⟧.sure sink) }
        ensures room { failing.items ≡ [] → IfOk result (λ sink. ⟦<MemSink as Counted>⟧.room sink ≡ Some room) }
        ensures faults { IfOk result (λ sink. ⟦<MemSink as Counted>⟧.faults sink ≡ 0) }
        ensures plan { IfOk result (λ sink. ⟦<MemSink as Planned>⟧.plan sink ≡ record { failing = failing.items; calls = 0; piece = piece }) }
        ensures space { IfOk result (λ sink. ⟦<MemSink as Planned>⟧.space sink ≡ room) }
    {
        let buffer = Buffer::new(alloc, room)?;
        Ok(MemSink {
            buffer,
            piece,
            trouble: Trouble::new(failing),
        })
    }

    /// What was written.
    pub fn bytes(&self) -> &[u8]
        ensures { ⟦<MemSink as Counted>⟧.written self.now ≡ Some result.now }
    {
        &self.buffer.bytes
    }
}

impl Counted for MemSink {
    ghost faults = { λ s. s.trouble.faults };

    ghost written = { λ s. Some s.buffer.bytes.items };

    ghost sure = { λ s. s.trouble.failing.items ≡ [] };

    ghost room = { λ s. room_of s.trouble.failing.items (s.buffer.room - vec_len s.buffer.bytes) };
}

impl Planned for MemSink {
    ghost plan = { λ s. record { failing = s.trouble.failing.items; calls = s.trouble.calls; piece = s.piece } };

    ghost space = { λ s. s.buffer.room - vec_len s.buffer.bytes };
}

impl Sink for MemSink {
    fn write(&mut self, piece: &[u8]) -> Result<usize, Failed>
        requires { 0 < length piece.now }
        ensures bound { IfOk result (λ n. (1 ≤ n) × (n ≤ length piece.now)) }
        ensures bytes { WriteAppends (⟦<MemSink as Counted>⟧.written self.old) (⟦<MemSink as Counted>⟧.written self.new) result piece.now }
        ensures left { ⟦<MemSink as Counted>⟧.left self.new ≡ ⟦<MemSink as Counted>⟧.left self.old }
        ensures place { ⟦<MemSink as Counted>⟧.place self.new ≡ ⟦<MemSink as Counted>⟧.place self.old }
        ensures room { UsesRoom (⟦<MemSink as Counted>⟧.room self.old) (⟦<MemSink as Counted>⟧.room self.new) result }
        ensures sure { ⟦<MemSink as Counted>⟧.sure self.old → ⟦<MemSink as Counted>⟧.sure self.new }
        ensures cause { HasCause (⟦<MemSink as Counted>⟧.faults self.old) (⟦<MemSink as Counted>⟧.faults self.new) result }

        // It fails at the calls that are listed and where no room is left, and at no others.
        ensures plan { ⟦<MemSink as Planned>⟧.plan self.new ≡ counted (⟦<MemSink as Planned>⟧.plan self.old) }
        ensures listed { IsErr result ↔ (Strikes (⟦<MemSink as Planned>⟧.plan self.old) ⊎ (⟦<MemSink as Planned>⟧.space self.old ≡ 0)) }
        ensures amount { IfOk result (λ n. n ≡ min (⟦<MemSink as Planned>⟧.plan self.old).piece (min (length piece.now) (⟦<MemSink as Planned>⟧.space self.old))) }
    {
        if self.trouble.strikes() {
            return Err(Failed);
        }
        let count = self.buffer.take(piece, self.piece);
        if count == 0 {
            self.trouble.count();
            return Err(Failed);
        }
        Ok(count)
    }
}
