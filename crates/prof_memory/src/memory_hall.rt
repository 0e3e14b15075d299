// A hall in memory, whose calls can be made to fail.
ghost use Rattle.std.specs.Prelude.{◌≡◌, ◌≢◌, ℕ, ◌≤◌, ◌<◌, ◌+◌, ◌-◌, ◌⊎◌, ◌↔◌, List, [], ◌++◌, length, min, drop, map, if◌then◌else◌, is_some, true, false, None, Some, Ok, IfOk, IfSome, IsOk, IsErr, vec_len, vec_capacity, slice_get};
ghost use Rattle.std.specs.Option.{option_map, option_copied};
ghost use Rattle.std.specs.VecDeque.{deque_len};
ghost use Rattle.std.specs.Io.{ReadsAtMost};
ghost use Rattle.std.specs.Io.KnownBytes.{ReadConsumes, WriteAppends};
ghost use Rattle.prof_io.specs.Causes.{HasCause};
ghost use Rattle.prof_io.specs.Bytes.{UsesRoom};
ghost use Rattle.prof_io.specs.Shelf.{Place, nowhere, Served};
ghost use Rattle.prof_io.specs.Connections.{GivesNext, stayed, served};
ghost use Rattle.prof_memory.specs.Memory.{parts_of, room_of};
ghost use Rattle.prof_memory.specs.Plans.{counted, Strikes};
ghost use Rattle.prof_memory.specs.Halls.{left_on, present_on, served_in, AreWithin};

use crate::buffer::Buffer;
use crate::giving::give;
use crate::seats::{Ended, Seat, close};
use crate::trouble::{Planned, Trouble};
use prof_io::{Counted, Failed, Hall, NoMemory, Sink, Source};
use std::alloc::Global;
use std::collections::VecDeque;

/// A hall in memory, to which the given connections come, one after another.
///
/// A read gives, and a write takes, at most one piece. It can be given so many bytes in all.
#[derive(Drop)]
pub struct MemHall {
    coming: VecDeque<Vec<u8>>,
    ended: Vec<Ended>,
    present: Option<Seat>,
    // how many bytes of the present connection were read
    at: usize,
    // all that was written, and where the bytes of the present connection begin
    buffer: Buffer,
    start: usize,
    piece: usize,
    trouble: Trouble,
    called_at: u64,
    returned_at: u64,
    ghost some: { 0 < piece },
    ghost begun: { start ≤ vec_len buffer.bytes },
    ghost within: { AreWithin (vec_len buffer.bytes) ended.items },
    ghost seats: { vec_len ended + (if is_some present then 1 else 0) + deque_len coming ≤ vec_capacity ended },
}

impl MemHall {
    /// A hall to which nothing has come yet. It takes all its memory now.
    pub fn new(
        alloc: Global,
        coming: Vec<Vec<u8>>,
        room: usize,
        piece: usize,
        failing: Vec<u64>,
    ) -> Result<MemHall, NoMemory>
        requires { 1 ≤ piece }
        ensures left { IfOk result (λ hall. ⟦<MemHall as Counted>⟧.left hall ≡ Some []) }
        ensures written { IfOk result (λ hall. ⟦<MemHall as Counted>⟧.written hall ≡ Some []) }
        ensures place { IfOk result (λ hall. ⟦<MemHall as Counted>⟧.place hall ≡ record nowhere { coming = Some (parts_of coming.items); earlier = Some [] }) }
        ensures sure { failing.items ≡ [] → IfOk result (λ hall. ⟦<MemHall as Counted>⟧.sure hall) }
        ensures room { failing.items ≡ [] → IfOk result (λ hall. ⟦<MemHall as Counted>⟧.room hall ≡ Some room) }
        ensures faults { IfOk result (λ hall. ⟦<MemHall as Counted>⟧.faults hall ≡ 0) }
        ensures plan { IfOk result (λ hall. ⟦<MemHall as Planned>⟧.plan hall ≡ record { failing = failing.items; calls = 0; piece = piece }) }
        ensures space { IfOk result (λ hall. ⟦<MemHall as Planned>⟧.space hall ≡ room) }
    {
        let ended = Vec::with_capacity(alloc, coming.len())?;
        let buffer = Buffer::new(alloc, room)?;
        Ok(MemHall {
            coming: VecDeque::from_vec(coming),
            ended,
            present: None,
            at: 0,
            buffer,
            start: 0,
            piece,
            trouble: Trouble::new(failing),
            called_at: 0,
            returned_at: 0,
        })
    }

    // Makes the next connection the present one; a count of faults is when this began.
    fn seat(&mut self, came: Vec<u8>, before: u64)
        requires { vec_len self.old.ended + (if is_some self.old.present then 1 else 0) + deque_len self.old.coming < vec_capacity self.old.ended }
        ensures present { present_on self.new.present ≡ Some (record { came = came.items; first = self.old.trouble.faults; second = None }) }
        ensures left { left_on self.new.present self.new.at ≡ came.items }
        ensures earlier { map (served_in self.new.buffer.bytes.items) self.new.ended.items
            ≡ served (map (served_in self.old.buffer.bytes.items) self.old.ended.items) (present_on self.old.present) (drop self.old.start self.old.buffer.bytes.items) before }
        ensures written { drop self.new.start self.new.buffer.bytes.items ≡ [] }
        ensures buffer { self.new.buffer ≡ self.old.buffer }
        ensures coming { self.new.coming ≡ self.old.coming }
        ensures trouble { self.new.trouble ≡ self.old.trouble }
        ensures piece { self.new.piece ≡ self.old.piece }
        ensures called { self.new.called_at ≡ self.old.called_at }
        ensures returned { self.new.returned_at ≡ self.old.returned_at }
    {
        let first = self.trouble.faults;
        let end = self.buffer.bytes.len();
        let next = Seat {
            came,
            first,
            second: None,
        };
        if let Some(last) = self.present.replace(next) {
            self.ended.push_reserved(Ended {
                came: last.came,
                start: self.start,
                end,
                first: last.first,
                second: last.second.unwrap_or(before),
            });
        }
        self.at = 0;
        self.start = end;
    }

    /// What was written to a served connection, by its number from 0; the present one is the last.
    pub fn answer(&self, number: usize) -> Option<&[u8]>
        ensures { IfSome (⟦<MemHall as Counted>⟧.place self.now).earlier (λ earlier. IfSome (⟦<MemHall as Counted>⟧.written self.now) (λ written.
            option_copied result ≡ option_map (λ (one : Served). one.answered) (slice_get (served earlier (⟦<MemHall as Counted>⟧.place self.now).present written 0) number))) }
    {
        if number < self.ended.len() {
            let ended = &self.ended[number];
            return Some(&self.buffer.bytes[ended.start..ended.end]);
        }
        if number == self.ended.len() && self.present.is_some() {
            return Some(&self.buffer.bytes[self.start..]);
        }
        None
    }
}

impl Counted for MemHall {
    ghost faults = { λ s. s.trouble.faults };

    ghost left = { λ s. Some (left_on s.present s.at) };

    ghost written = { λ s. Some (drop s.start s.buffer.bytes.items) };

    ghost place = { λ s. record nowhere {
      called_at = s.called_at;
      returned_at = s.returned_at;
      coming = Some (parts_of s.coming.items);
      earlier = Some (map (served_in s.buffer.bytes.items) s.ended.items);
      present = present_on s.present;
    } };

    ghost sure = { λ s. s.trouble.failing.items ≡ [] };

    ghost room = { λ s. room_of s.trouble.failing.items (s.buffer.room - vec_len s.buffer.bytes) };
}

impl Planned for MemHall {
    ghost plan = { λ s. record { failing = s.trouble.failing.items; calls = s.trouble.calls; piece = s.piece } };

    ghost space = { λ s. s.buffer.room - vec_len s.buffer.bytes };
}

impl Source for MemHall {
    fn read(&mut self, buf: &mut [u8]) -> Result<usize, Failed>
        requires { 0 < length buf.old }
        ensures bound { ReadsAtMost result buf.new }
        ensures bytes { ReadConsumes (⟦<MemHall as Counted>⟧.left self.old) (⟦<MemHall as Counted>⟧.left self.new) result buf.new }
        ensures amount { IfOk result (λ n. IfSome (⟦<MemHall as Counted>⟧.left self.old) (λ left. n ≡ min (⟦<MemHall as Planned>⟧.plan self.old).piece (min (length left) (length buf.old)))) }
        ensures written { ⟦<MemHall as Counted>⟧.written self.new ≡ ⟦<MemHall as Counted>⟧.written self.old }
        ensures place { ⟦<MemHall as Counted>⟧.place self.new ≡ ⟦<MemHall as Counted>⟧.place self.old }
        ensures room { ⟦<MemHall as Counted>⟧.room self.new ≡ ⟦<MemHall as Counted>⟧.room self.old }
        ensures sure { ⟦<MemHall as Counted>⟧.sure self.old → IsOk result × ⟦<MemHall as Counted>⟧.sure self.new }
        ensures cause { HasCause (⟦<MemHall as Counted>⟧.faults self.old) (⟦<MemHall as Counted>⟧.faults self.new) result }

        // It fails at the calls that are listed, and at no others.
        ensures plan { ⟦<MemHall as Planned>⟧.plan self.new ≡ counted (⟦<MemHall as Planned>⟧.plan self.old) }
        ensures listed { IsErr result ↔ Strikes (⟦<MemHall as Planned>⟧.plan self.old) }
    {
        if self.trouble.strikes() {
            return Err(Failed);
        }
        let Some(present) = &self.present else {
            return Ok(0);
        };
        let count = give(&present.came, self.at, self.piece, buf);
        self.at += count;
        Ok(count)
    }
}

impl Sink for MemHall {
    fn write(&mut self, piece: &[u8]) -> Result<usize, Failed>
        requires { 0 < length piece.now }
        ensures bound { IfOk result (λ n. (1 ≤ n) × (n ≤ length piece.now)) }
        ensures bytes { WriteAppends (⟦<MemHall as Counted>⟧.written self.old) (⟦<MemHall as Counted>⟧.written self.new) result piece.now }
        ensures left { ⟦<MemHall as Counted>⟧.left self.new ≡ ⟦<MemHall as Counted>⟧.left self.old }
        ensures place { ⟦<MemHall as Counted>⟧.place self.new ≡ ⟦<MemHall as Counted>⟧.place self.old }
        ensures room { UsesRoom (⟦<MemHall as Counted>⟧.room self.old) (⟦<MemHall as Counted>⟧.room self.new) result }
        ensures sure { ⟦<MemHall as Counted>⟧.sure self.old → ⟦<MemHall as Counted>⟧.sure self.new }
        ensures cause { HasCause (⟦<MemHall as Counted>⟧.faults self.old) (⟦<MemHall as Counted>⟧.faults self.new) result }

        // It fails at the calls that are listed and where no room is left, and at no others.
        ensures plan { ⟦<MemHall as Planned>⟧.plan self.new ≡ counted (⟦<MemHall as Planned>⟧.plan self.old) }
        ensures listed { IsErr result ↔ (Strikes (⟦<MemHall as Planned>⟧.plan self.old) ⊎ (⟦<MemHall as Planned>⟧.space self.old ≡ 0)) }
        ensures amount { IfOk result (λ n. n ≡ min (⟦<MemHall as Planned>⟧.plan self.old).piece (min (length piece.now) (⟦<MemHall as Planned>⟧.space self.old))) }
    {
        if self.trouble.strikes() {
            return Err(Failed);
        }
        let count = self.buffer.take(piece, self.piece);
        if count == 0 {
            self.trouble.count();
            return Err(Failed);
        }
        Ok(count)
    }
}

impl Hall for MemHall {
    fn listen(&mut self, _port: u16) -> Result<(), Failed>
        ensures left { ⟦<MemHall as Counted>⟧.left self.new ≡ ⟦<MemHall as Counted>⟧.left self.old }
        ensures written { ⟦<MemHall as Counted>⟧.written self.new ≡ ⟦<MemHall as Counted>⟧.written self.old }
        ensures place { ⟦<MemHall as Counted>⟧.place self.new ≡ record (⟦<MemHall as Counted>⟧.place self.old) {
          called_at = ⟦<MemHall as Counted>⟧.faults self.old;
          returned_at = ⟦<MemHall as Counted>⟧.faults self.new;
        } }
        ensures room { ⟦<MemHall as Counted>⟧.room self.new ≡ ⟦<MemHall as Counted>⟧.room self.old }
        ensures sure { ⟦<MemHall as Counted>⟧.sure self.old → IsOk result × ⟦<MemHall as Counted>⟧.sure self.new }
        ensures cause { HasCause (⟦<MemHall as Counted>⟧.faults self.old) (⟦<MemHall as Counted>⟧.faults self.new) result }

        // It fails at the calls that are listed, and at no others.
        ensures plan { ⟦<MemHall as Planned>⟧.plan self.new ≡ counted (⟦<MemHall as Planned>⟧.plan self.old) }
        ensures listed { IsErr result ↔ Strikes (⟦<MemHall as Planned>⟧.plan self.old) }
    {
        self.called_at = self.trouble.faults;
        let fails = self.trouble.strikes();
        self.returned_at = self.trouble.faults;
        if fails { Err(Failed) } else { Ok(()) }
    }

    fn next(&mut self) -> Result<bool, Failed>
        ensures given { result ≡ Ok true → GivesNext (⟦<MemHall as Counted>⟧.place self.old) (⟦<MemHall as Counted>⟧.place self.new) (⟦<MemHall as Counted>⟧.left self.new)
            (⟦<MemHall as Counted>⟧.written self.old) (⟦<MemHall as Counted>⟧.written self.new) (⟦<MemHall as Counted>⟧.faults self.old) (⟦<MemHall as Counted>⟧.faults self.new) }
        ensures end { result ≡ Ok false → IfSome (⟦<MemHall as Counted>⟧.place self.old).coming (λ coming. coming ≡ []) }
        ensures stayed { result ≢ Ok true → ⟦<MemHall as Counted>⟧.place self.new ≡ stayed (⟦<MemHall as Counted>⟧.place self.old) (⟦<MemHall as Counted>⟧.faults self.old) (⟦<MemHall as Counted>⟧.faults self.new) }
        ensures left { result ≢ Ok true → ⟦<MemHall as Counted>⟧.left self.new ≡ ⟦<MemHall as Counted>⟧.left self.old }
        ensures written { result ≢ Ok true → ⟦<MemHall as Counted>⟧.written self.new ≡ ⟦<MemHall as Counted>⟧.written self.old }
        ensures room { ⟦<MemHall as Counted>⟧.room self.new ≡ ⟦<MemHall as Counted>⟧.room self.old }
        ensures sure { ⟦<MemHall as Counted>⟧.sure self.old → IsOk result × ⟦<MemHall as Counted>⟧.sure self.new }
        ensures cause { HasCause (⟦<MemHall as Counted>⟧.faults self.old) (⟦<MemHall as Counted>⟧.faults self.new) result }

        // It fails at the calls that are listed, and at no others.
        ensures plan { ⟦<MemHall as Planned>⟧.plan self.new ≡ counted (⟦<MemHall as Planned>⟧.plan self.old) }
        ensures listed { IsErr result ↔ Strikes (⟦<MemHall as Planned>⟧.plan self.old) }
    {
        let before = self.trouble.faults;
        self.called_at = before;
        let fails = self.trouble.strikes();
        self.returned_at = self.trouble.faults;
        if fails {
            close(&mut self.present, before);
            return Err(Failed);
        }
        match self.coming.pop_front() {
            None => {
                close(&mut self.present, before);
                Ok(false)
            }
            Some(came) => {
                self.seat(came, before);
                Ok(true)
            }
        }
    }
}
