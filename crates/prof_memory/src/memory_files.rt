// Files in memory, whose calls can be made to fail.
ghost use Rattle.std.specs.Prelude.{◌≡◌, ℕ, ◌≤◌, ◌<◌, ◌-◌, ◌+◌, ◌^◌, ◌⊎◌, ◌↔◌, List, [], length, drop, min, None, Some, IfOk, IfSome, OnOk, IsOk, IsErr, IsSome};
ghost use Rattle.std.specs.Io.{ReadsAtMost};
ghost use Rattle.std.specs.Io.KnownBytes.{ReadConsumes};
ghost use Rattle.prof_io.specs.Causes.{HasCause};
ghost use Rattle.prof_io.specs.Shelf.{content, file_at, nowhere};
ghost use Rattle.prof_memory.specs.Memory.{shelf_of, bytes_at};
ghost use Rattle.prof_memory.specs.Plans.{counted, Strikes};

use crate::giving::give_of;
use crate::trouble::{Planned, Trouble};
use prof_io::{Counted, Failed, Files, Source, Text, find};

/// Files in memory, of which a read gives at most one piece. Of two files with one name the first counts.
#[derive(Drop)]
pub struct MemFiles {
    files: Vec<(Text, Vec<u8>)>,
    piece: usize,
    trouble: Trouble,
    // the place of the file that is read, past the last where there is none, and the place in it
    file: usize,
    at: usize,
    begins: u64,
    begun_at: u64,
    ghost some: { 0 < piece },
}

impl MemFiles {
    /// These files by their names, of which none is begun yet.
    pub fn new(files: Vec<(Text, Vec<u8>)>, piece: usize, failing: Vec<u64>) -> MemFiles
        requires { 1 ≤ piece }
        ensures left { ⟦<MemFiles as Counted>⟧.left result ≡ Some [] }
        ensures sure { failing.items ≡ [] → ⟦<MemFiles as Counted>⟧.sure result }
        ensures place { ⟦<MemFiles as Counted>⟧.place result ≡ record nowhere { files = Some (shelf_of files.items) } }
        ensures faults { ⟦<MemFiles as Counted>⟧.faults result ≡ 0 }
        ensures plan { ⟦<MemFiles as Planned>⟧.plan result ≡ record { failing = failing.items; calls = 0; piece = piece } }
    {
        let file = files.len();
        MemFiles {
            files,
            piece,
            trouble: Trouble::new(failing),
            file,
            at: 0,
            begins: 0,
            begun_at: 0,
        }
    }
}

impl Counted for MemFiles {
    ghost faults = { λ s. s.trouble.faults };

    ghost left = { λ s. Some (drop s.at (bytes_at (shelf_of s.files.items) s.file)) };

    ghost place = { λ s. record nowhere { files = Some (shelf_of s.files.items); begins = s.begins; begun_at = s.begun_at } };

    ghost sure = { λ s. s.trouble.failing.items ≡ [] };
}

impl Planned for MemFiles {
    ghost plan = { λ s. record { failing = s.trouble.failing.items; calls = s.trouble.calls; piece = s.piece } };
}

impl Source for MemFiles {
    fn read(&mut self, buf: &mut [u8]) -> Result<usize, Failed>
        requires { 0 < length buf.old }
        ensures bound { ReadsAtMost result buf.new }
        ensures bytes { ReadConsumes (⟦<MemFiles as Counted>⟧.left self.old) (⟦<MemFiles as Counted>⟧.left self.new) result buf.new }
        ensures amount { IfOk result (λ n. IfSome (⟦<MemFiles as Counted>⟧.left self.old) (λ left. n ≡ min (⟦<MemFiles as Planned>⟧.plan self.old).piece (min (length left) (length buf.old)))) }
        ensures written { ⟦<MemFiles as Counted>⟧.written self.new ≡ ⟦<MemFiles as Counted>⟧.written self.old }
        ensures place { ⟦<MemFiles as Counted>⟧.place self.new ≡ ⟦<MemFiles as Counted>⟧.place self.old }
        ensures room { ⟦<MemFiles as Counted>⟧.room self.new ≡ ⟦<MemFiles as Counted>⟧.room self.old }
        ensures sure { ⟦<MemFiles as Counted>⟧.sure self.old → IsOk result × ⟦<MemFiles as Counted>⟧.sure self.new }
        ensures cause { HasCause (⟦<MemFiles as Counted>⟧.faults self.old) (⟦<MemFiles as Counted>⟧.faults self.new) result }

        // It fails at the calls that are listed, and at no others.
        ensures plan { ⟦<MemFiles as Planned>⟧.plan self.new ≡ counted (⟦<MemFiles as Planned>⟧.plan self.old) }
        ensures listed { IsErr result ↔ Strikes (⟦<MemFiles as Planned>⟧.plan self.old) }
    {
        if self.trouble.strikes() {
            return Err(Failed);
        }
        let count = give_of(&self.files, self.file, self.at, self.piece, buf);
        self.at += count;
        Ok(count)
    }
}

impl Files for MemFiles {
    fn begin(&mut self, name: &str) -> Result<(), Failed>
        ensures bytes { OnOk result (IfSome (⟦<MemFiles as Counted>⟧.place self.old).files (λ files.
            ⟦<MemFiles as Counted>⟧.left self.new ≡ Some (content files name.now))) }
        ensures place { ⟦<MemFiles as Counted>⟧.place self.new ≡ record (⟦<MemFiles as Counted>⟧.place self.old) {
          begins = min ((⟦<MemFiles as Counted>⟧.place self.old).begins + 1) (2 ^ 64 - 1);
          begun_at = ⟦<MemFiles as Counted>⟧.faults self.old;
        } }
        ensures sure { ⟦<MemFiles as Counted>⟧.sure self.old → ⟦<MemFiles as Counted>⟧.sure self.new }
        ensures there { ⟦<MemFiles as Counted>⟧.sure self.old → IfSome (⟦<MemFiles as Counted>⟧.place self.old).files (λ files. IsSome (file_at files name.now) → IsOk result) }
        ensures cause { HasCause (⟦<MemFiles as Counted>⟧.faults self.old) (⟦<MemFiles as Counted>⟧.faults self.new) result }

        // It fails at the calls that are listed and where the file is lacking, and at no others.
        ensures plan { ⟦<MemFiles as Planned>⟧.plan self.new ≡ counted (⟦<MemFiles as Planned>⟧.plan self.old) }
        ensures listed { IsErr result ↔ (Strikes (⟦<MemFiles as Planned>⟧.plan self.old) ⊎ IfSome (⟦<MemFiles as Counted>⟧.place self.old).files (λ files. file_at files name.now ≡ None)) }
        ensures refused { IsErr result → ⟦<MemFiles as Counted>⟧.left self.new ≡ Some [] }
    {
        self.begins = self.begins.saturating_add(1);
        self.begun_at = self.trouble.faults;
        self.at = 0;
        self.file = self.files.len();
        if self.trouble.strikes() {
            return Err(Failed);
        }
        self.file = find(&self.files, name);
        if self.file >= self.files.len() {
            self.trouble.count();
            return Err(Failed);
        }
        Ok(())
    }
}
