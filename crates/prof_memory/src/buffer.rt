// Bytes that were written, where there is room for so many.
ghost use Rattle.std.specs.Prelude.{◌≡◌, ◌≤◌, ◌<◌, ◌-◌, [], ◌++◌, length, take, min, IfOk, vec_len, vec_capacity};

use prof_io::NoMemory;
use std::alloc::Global;

/// The bytes that were written, and how many there can be in all.
#[derive(Drop)]
pub struct Buffer {
    pub bytes: Vec<u8>,
    pub room: usize,
    ghost within: { vec_len bytes ≤ room },
    ghost fits: { room ≤ vec_capacity bytes },
}

impl Buffer {
    /// An empty buffer, which takes all its memory now.
    pub fn new(alloc: Global, room: usize) -> Result<Buffer, NoMemory>
        ensures bytes { IfOk result (λ buffer. buffer.bytes.items ≡ []) }
        ensures room { IfOk result (λ buffer. buffer.room ≡ room) }
    {
        let bytes = Vec::with_capacity(alloc, room)?;
        Ok(Buffer { bytes, room })
    }

    /// Takes bytes from the front of a piece, at most so many, as far as there is room.
    pub fn take(&mut self, piece: &[u8], most: usize) -> usize
        ensures count { result ≡ min most (min (length piece.now) (self.old.room - vec_len self.old.bytes)) }
        ensures bytes { self.new.bytes.items ≡ self.old.bytes.items ++ take result piece.now }
        ensures room { self.new.room ≡ self.old.room }
    {
        let count = most.min(piece.len().min(self.room - self.bytes.len()));
        match self.bytes.extend_from_slice(&piece[..count]) {
            Ok(()) => count,
            Err(_) => unreachable!(),
        }
    }
}
