// The outside in memory, as it is when nothing fails.
ghost use Rattle.std.specs.Prelude.{◌≡◌, ◌≤◌, ◌<◌, List, ℕ, drop, map, length, min, Some, None, OnOk, OnErr, IfOk, IfSome, IsOk, vec_len, [], refl, ⊤};
ghost use Rattle.std.specs.Io.{ReadsAtMost};
ghost use Rattle.std.specs.Io.KnownBytes.{ReadConsumes, WriteAppends};
ghost use Rattle.prof_io.specs.Causes.{HasCause};
ghost use Rattle.prof_io.specs.Bytes.{UsesRoom};
ghost use Rattle.prof_io.specs.Shelf.{Place, nowhere, content, file_at};
ghost use Rattle.prof_memory.specs.Memory.{shelf_of, bytes_at, parts_of, part_before};
ghost use Rattle.prof_memory.specs.Keeping.{texts_under};

use crate::giving::{give, give_of};
use crate::texts::Texts;
use crate::trouble::Planned;
use prof_io::{Counted, Failed, Files, Hall, KeepRefusal, Keeper, Sink, Source, Text, find};
use std::alloc::Global;

/// Bytes in memory, of which a read gives at most one piece. It never fails.
#[derive(Drop)]
pub struct SteadySource {
    bytes: Vec<u8>,
    at: usize,
    piece: usize,
    ghost within: { at ≤ vec_len bytes },
    ghost some: { 0 < piece },
}

impl SteadySource {
    /// A source of these bytes.
    pub fn new(bytes: Vec<u8>, piece: usize) -> SteadySource
        requires { 1 ≤ piece }
        ensures left { ⟦<SteadySource as Counted>⟧.left result ≡ Some bytes.items }
        ensures sure { ⟦<SteadySource as Counted>⟧.sure result }
        ensures faults { ⟦<SteadySource as Counted>⟧.faults result ≡ 0 }
        ensures piece { (⟦<SteadySource as Planned>⟧.plan result).piece ≡ piece }
    {
        SteadySource {
            bytes,
            at: 0,
            piece,
        }
    }
}

impl Planned for SteadySource {
    ghost plan = { λ s. record { failing = []; calls = 0; piece = s.piece } };
}

impl Counted for SteadySource {
    ghost faults = { λ _. 0 };

    ghost sure = { λ _. ⊤ };

    ghost left = { λ s. Some (drop s.at s.bytes.items) };
}

impl Source for SteadySource {
    fn read(&mut self, buf: &mut [u8]) -> Result<usize, Failed>
        requires { 0 < length buf.old }
        ensures bound { ReadsAtMost result buf.new }
        ensures bytes { ReadConsumes (⟦<SteadySource as Counted>⟧.left self.old) (⟦<SteadySource as Counted>⟧.left self.new) result buf.new }
        ensures amount { IfOk result (λ n. IfSome (⟦<SteadySource as Counted>⟧.left self.old) (λ left. n ≡ min (⟦<SteadySource as Planned>⟧.plan self.old).piece (min (length left) (length buf.old)))) }
        ensures written { ⟦<SteadySource as Counted>⟧.written self.new ≡ ⟦<SteadySource as Counted>⟧.written self.old }
        ensures place { ⟦<SteadySource as Counted>⟧.place self.new ≡ ⟦<SteadySource as Counted>⟧.place self.old }
        ensures room { ⟦<SteadySource as Counted>⟧.room self.new ≡ ⟦<SteadySource as Counted>⟧.room self.old }
        ensures sure { IsOk result × ⟦<SteadySource as Counted>⟧.sure self.new }
        ensures plan { ⟦<SteadySource as Planned>⟧.plan self.new ≡ ⟦<SteadySource as Planned>⟧.plan self.old }
        ensures cause { HasCause (⟦<SteadySource as Counted>⟧.faults self.old) (⟦<SteadySource as Counted>⟧.faults self.new) result }
    {
        let count = give(&self.bytes, self.at, self.piece, buf);
        self.at += count;
        Ok(count)
    }
}

/// A sink that takes at most one piece a write, and keeps none. It never fails.
#[derive(Drop)]
pub struct SteadySink {
    piece: usize,
    ghost some: { 0 < piece },
}

impl SteadySink {
    /// A sink, which is asked for nothing yet.
    pub fn new(piece: usize) -> SteadySink
        requires { 1 ≤ piece }
        ensures sure { ⟦<SteadySink as Counted>⟧.sure result }
        ensures faults { ⟦<SteadySink as Counted>⟧.faults result ≡ 0 }
        ensures piece { (⟦<SteadySink as Planned>⟧.plan result).piece ≡ piece }
    {
        SteadySink { piece }
    }
}

impl Planned for SteadySink {
    ghost plan = { λ s. record { failing = []; calls = 0; piece = s.piece } };
}

impl Counted for SteadySink {
    ghost faults = { λ _. 0 };

    ghost sure = { λ _. ⊤ };
}

impl Sink for SteadySink {
    fn write(&mut self, piece: &[u8]) -> Result<usize, Failed>
        requires { 0 < length piece.now }
        ensures bound { IfOk result (λ n. (1 ≤ n) × (n ≤ length piece.now)) }
        ensures bytes { WriteAppends (⟦<SteadySink as Counted>⟧.written self.old) (⟦<SteadySink as Counted>⟧.written self.new) result piece.now }
        ensures amount { IfOk result (λ n. n ≡ min (⟦<SteadySink as Planned>⟧.plan self.old).piece (length piece.now)) }
        ensures left { ⟦<SteadySink as Counted>⟧.left self.new ≡ ⟦<SteadySink as Counted>⟧.left self.old }
        ensures place { ⟦<SteadySink as Counted>⟧.place self.new ≡ ⟦<SteadySink as Counted>⟧.place self.old }
        ensures room { UsesRoom (⟦<SteadySink as Counted>⟧.room self.old) (⟦<SteadySink as Counted>⟧.room self.new) result }
        ensures sure { IsOk result × ⟦<SteadySink as Counted>⟧.sure self.new }
        ensures plan { ⟦<SteadySink as Planned>⟧.plan self.new ≡ ⟦<SteadySink as Planned>⟧.plan self.old }
        ensures cause { HasCause (⟦<SteadySink as Counted>⟧.faults self.old) (⟦<SteadySink as Counted>⟧.faults self.new) result }
    {
        Ok(self.piece.min(piece.len()))
    }
}

/// Files in memory, of which a read gives at most one piece. They never fail.
#[derive(Drop)]
pub struct SteadyFiles {
    files: Vec<(Text, Vec<u8>)>,
    piece: usize,
    // the place of the file that is read, past the last where there is none, and the place in it
    file: usize,
    at: usize,
    begins: u64,
    ghost some: { 0 < piece },
}

impl SteadyFiles {
    /// These files by their names, of which none is begun yet.
    pub fn new(files: Vec<(Text, Vec<u8>)>, piece: usize) -> SteadyFiles
        requires { 1 ≤ piece }
        ensures left { ⟦<SteadyFiles as Counted>⟧.left result ≡ Some [] }
        ensures place { ⟦<SteadyFiles as Counted>⟧.place result ≡ record nowhere { files = Some (shelf_of files.items) } }
        ensures sure { ⟦<SteadyFiles as Counted>⟧.sure result }
        ensures faults { ⟦<SteadyFiles as Counted>⟧.faults result ≡ 0 }
        ensures piece { (⟦<SteadyFiles as Planned>⟧.plan result).piece ≡ piece }
    {
        let file = files.len();
        SteadyFiles {
            files,
            piece,
            file,
            at: 0,
            begins: 0,
        }
    }
}

impl Planned for SteadyFiles {
    ghost plan = { λ s. record { failing = []; calls = 0; piece = s.piece } };
}

impl Counted for SteadyFiles {
    ghost faults = { λ _. 0 };

    ghost sure = { λ _. ⊤ };

    ghost left = { λ s. Some (drop s.at (bytes_at (shelf_of s.files.items) s.file)) };

    ghost place = { λ s. record nowhere { files = Some (shelf_of s.files.items); begins = s.begins } };
}

impl Source for SteadyFiles {
    fn read(&mut self, buf: &mut [u8]) -> Result<usize, Failed>
        requires { 0 < length buf.old }
        ensures bound { ReadsAtMost result buf.new }
        ensures bytes { ReadConsumes (⟦<SteadyFiles as Counted>⟧.left self.old) (⟦<SteadyFiles as Counted>⟧.left self.new) result buf.new }
        ensures amount { IfOk result (λ n. IfSome (⟦<SteadyFiles as Counted>⟧.left self.old) (λ left. n ≡ min (⟦<SteadyFiles as Planned>⟧.plan self.old).piece (min (length left) (length buf.old)))) }
        ensures written { ⟦<SteadyFiles as Counted>⟧.written self.new ≡ ⟦<SteadyFiles as Counted>⟧.written self.old }
        ensures place { ⟦<SteadyFiles as Counted>⟧.place self.new ≡ ⟦<SteadyFiles as Counted>⟧.place self.old }
        ensures room { ⟦<SteadyFiles as Counted>⟧.room self.new ≡ ⟦<SteadyFiles as Counted>⟧.room self.old }
        ensures sure { IsOk result × ⟦<SteadyFiles as Counted>⟧.sure self.new }
        ensures plan { ⟦<SteadyFiles as Planned>⟧.plan self.new ≡ ⟦<SteadyFiles as Planned>⟧.plan self.old }
        ensures cause { HasCause (⟦<SteadyFiles as Counted>⟧.faults self.old) (⟦<SteadyFiles as Counted>⟧.faults self.new) result }
    {
        let count = give_of(&self.files, self.file, self.at, self.piece, buf);
        self.at += count;
        Ok(count)
    }
}

impl Files for SteadyFiles {
    fn begin(&mut self, name: &str) -> Result<(), Failed> {
        self.begins = self.begins.saturating_add(1);
        self.at = 0;
        self.file = find(&self.files, name);
        Ok(())
    }
}

/// A hall in memory, of which a read gives at most one piece, and a write takes at most one piece
/// and keeps none. It never fails.
#[derive(Drop)]
pub struct SteadyHall {
    coming: Vec<Vec<u8>>,
    piece: usize,
    // how many connections were given, and the place in the last of them
    given: usize,
    at: usize,
    ghost some: { 0 < piece },
    ghost within: { given ≤ vec_len coming },
}

impl SteadyHall {
    /// A hall to which nothing has come yet.
    pub fn new(coming: Vec<Vec<u8>>, piece: usize) -> SteadyHall
        requires { 1 ≤ piece }
        ensures left { ⟦<SteadyHall as Counted>⟧.left result ≡ Some [] }
        ensures place { ⟦<SteadyHall as Counted>⟧.place result ≡ record nowhere { coming = Some (parts_of coming.items) } }
        ensures sure { ⟦<SteadyHall as Counted>⟧.sure result }
        ensures faults { ⟦<SteadyHall as Counted>⟧.faults result ≡ 0 }
        ensures piece { (⟦<SteadyHall as Planned>⟧.plan result).piece ≡ piece }
    {
        SteadyHall {
            coming,
            piece,
            given: 0,
            at: 0,
        }
    }
}

impl Planned for SteadyHall {
    ghost plan = { λ s. record { failing = []; calls = 0; piece = s.piece } };
}

impl Counted for SteadyHall {
    ghost faults = { λ _. 0 };

    ghost sure = { λ _. ⊤ };

    ghost left = { λ s. Some (drop s.at (part_before (parts_of s.coming.items) s.given)) };

    ghost place = { λ s. record nowhere { coming = Some (drop s.given (parts_of s.coming.items)) } };
}

impl Source for SteadyHall {
    fn read(&mut self, buf: &mut [u8]) -> Result<usize, Failed>
        requires { 0 < length buf.old }
        ensures bound { ReadsAtMost result buf.new }
        ensures bytes { ReadConsumes (⟦<SteadyHall as Counted>⟧.left self.old) (⟦<SteadyHall as Counted>⟧.left self.new) result buf.new }
        ensures amount { IfOk result (λ n. IfSome (⟦<SteadyHall as Counted>⟧.left self.old) (λ left. n ≡ min (⟦<SteadyHall as Planned>⟧.plan self.old).piece (min (length left) (length buf.old)))) }
        ensures written { ⟦<SteadyHall as Counted>⟧.written self.new ≡ ⟦<SteadyHall as Counted>⟧.written self.old }
        ensures place { ⟦<SteadyHall as Counted>⟧.place self.new ≡ ⟦<SteadyHall as Counted>⟧.place self.old }
        ensures room { ⟦<SteadyHall as Counted>⟧.room self.new ≡ ⟦<SteadyHall as Counted>⟧.room self.old }
        ensures sure { IsOk result × ⟦<SteadyHall as Counted>⟧.sure self.new }
        ensures plan { ⟦<SteadyHall as Planned>⟧.plan self.new ≡ ⟦<SteadyHall as Planned>⟧.plan self.old }
        ensures cause { HasCause (⟦<SteadyHall as Counted>⟧.faults self.old) (⟦<SteadyHall as Counted>⟧.faults self.new) result }
    {
        if self.given == 0 {
            return Ok(0);
        }
        let count = give(&self.coming[self.given - 1], self.at, self.piece, buf);
        self.at += count;
        Ok(count)
    }
}

impl Sink for SteadyHall {
    fn write(&mut self, piece: &[u8]) -> Result<usize, Failed>
        requires { 0 < length piece.now }
        ensures bound { IfOk result (λ n. (1 ≤ n) × (n ≤ length piece.now)) }
        ensures bytes { WriteAppends (⟦<SteadyHall as Counted>⟧.written self.old) (⟦<SteadyHall as Counted>⟧.written self.new) result piece.now }
        ensures amount { IfOk result (λ n. n ≡ min (⟦<SteadyHall as Planned>⟧.plan self.old).piece (length piece.now)) }
        ensures left { ⟦<SteadyHall as Counted>⟧.left self.new ≡ ⟦<SteadyHall as Counted>⟧.left self.old }
        ensures place { ⟦<SteadyHall as Counted>⟧.place self.new ≡ ⟦<SteadyHall as Counted>⟧.place self.old }
        ensures room { UsesRoom (⟦<SteadyHall as Counted>⟧.room self.old) (⟦<SteadyHall as Counted>⟧.room self.new) result }
        ensures sure { IsOk result × ⟦<SteadyHall as Counted>⟧.sure self.new }
        ensures plan { ⟦<SteadyHall as Planned>⟧.plan self.new ≡ ⟦<SteadyHall as Planned>⟧.plan self.old }
        ensures cause { HasCause (⟦<SteadyHall as Counted>⟧.faults self.old) (⟦<SteadyHall as Counted>⟧.faults self.new) result }
    {
        Ok(self.piece.min(piece.len()))
    }
}

impl Hall for SteadyHall {
    fn listen(&mut self, _port: u16) -> Result<(), Failed> {
        Ok(())
    }

    fn next(&mut self) -> Result<bool, Failed> {
        if self.given >= self.coming.len() {
            return Ok(false);
        }
        self.given += 1;
        self.at = 0;
        Ok(true)
    }
}

/// Texts kept in memory by their keys. They are the texts of every name but the empty one. It never fails.
#[derive(Drop)]
pub struct SteadyKeeper {
    texts: Texts,
}

impl SteadyKeeper {
    /// A keeper of no texts.
    pub fn new(alloc: Global) -> SteadyKeeper
        ensures texts { ⟦<SteadyKeeper as Keeper>⟧.texts result ≡ Some [] }
        ensures got { ⟦<SteadyKeeper as Keeper>⟧.got result ≡ None }
        ensures faults { ⟦<SteadyKeeper as Counted>⟧.faults result ≡ 0 }
        ensures sure { ⟦<SteadyKeeper as Counted>⟧.sure result }
    {
        SteadyKeeper {
            texts: Texts::new(alloc),
        }
    }
}

impl Counted for SteadyKeeper {
    ghost faults = { λ _. 0 };

    ghost sure = { λ _. ⊤ };
}

impl Keeper for SteadyKeeper {
    ghost texts = { λ s. Some s.texts.entries.items };

    ghost begun = { λ s name. Some (texts_under name s.texts.entries.items) };

    ghost called_at = { λ _. 0 };

    ghost returned_at = { λ _. 0 };

    ghost got = { λ s. s.texts.got };

    ghost nothing_nameless = { λ _. refl };

    fn begin(&mut self, _alloc: Global, name: &str) -> Result<(), KeepRefusal> {
        if name.is_empty() {
            self.texts.entries.clear();
        }
        Ok(())
    }

    fn put(&mut self, alloc: Global, key: &str, text: &str) -> Result<(), KeepRefusal> {
        self.texts.put(alloc, key, text)?;
        Ok(())
    }

    fn get(&mut self, alloc: Global, key: &str) -> Result<Option<Text>, KeepRefusal> {
        let text = self.texts.get(alloc, key)?;
        Ok(text)
    }
}
