// The real files and streams. What they hold is not told.
ghost use Rattle.std.specs.Prelude.{◌≡◌, [], Some, IsTrue, is_none};
ghost use Rattle.prof_io.specs.Shelf.{nowhere, left_untold};

use prof_io::{Counted, Failed, Files, Sink, Source};
use std::io::{Read, Write};
use std::{fs, rt};

/// The files of the system, by their paths. What they hold is not told.
#[derive(Drop)]
pub struct OsFiles<R: rt::Files> {
    runtime: R,
    file: Option<R::File>,
    begins: u64,
    begun_at: u64,
    faults: u64,
    ghost none_begun: { begins ≡ 0 → IsTrue (is_none file) },
}

impl<R: rt::Files> OsFiles<R> {
    /// The files that the runtime reaches, of which none is begun yet.
    pub fn new(runtime: R) -> Self
        ensures left { ⟦<OsFiles<R> as Counted>⟧.left result ≡ Some [] }
        ensures place { ⟦<OsFiles<R> as Counted>⟧.place result ≡ nowhere }
        ensures faults { ⟦<OsFiles<R> as Counted>⟧.faults result ≡ 0 }
    {
        OsFiles {
            runtime,
            file: None,
            begins: 0,
            begun_at: 0,
            faults: 0,
        }
    }
}

impl<R: rt::Files> Counted for OsFiles<R> {
    ghost faults = { λ s. s.faults };

    ghost left = { λ s. left_untold s.begins };

    ghost place = { λ s. record nowhere { begins = s.begins; begun_at = s.begun_at } };
}

impl<R: rt::Files> Source for OsFiles<R> {
    fn read(&mut self, buf: &mut [u8]) -> Result<usize, Failed> {
        let Some(file) = &mut self.file else {
            return Ok(0);
        };
        match file.read(buf) {
            Ok(count) => Ok(count),
            Err(_) => {
                self.faults = self.faults.saturating_add(1);
                Err(Failed)
            }
        }
    }
}

impl<R: rt::Files> Files for OsFiles<R> {
    fn begin(&mut self, name: &str) -> Result<(), Failed> {
        self.begins = self.begins.saturating_add(1);
        self.begun_at = self.faults;
        self.file = None;
        match fs::open(&self.runtime, name) {
            Ok(file) => {
                self.file = Some(file);
                Ok(())
            }
            Err(_) => {
                self.faults = self.faults.saturating_add(1);
                Err(Failed)
            }
        }
    }
}

/// A stream of the system, as standard output, standard error or a file.
///
/// A stream that takes no byte of a piece has failed.
#[derive(Drop)]
pub struct OsSink<W> {
    stream: W,
    faults: u64,
}

impl<W: Write> OsSink<W> {
    /// The stream, to which nothing was written yet.
    pub fn new(stream: W) -> Self
        ensures { ⟦<OsSink<W> as Counted>⟧.faults result ≡ 0 }
    {
        OsSink { stream, faults: 0 }
    }
}

impl<W: Write> Counted for OsSink<W> {
    ghost faults = { λ s. s.faults };
}

impl<W: Write> Sink for OsSink<W> {
    fn write(&mut self, piece: &[u8]) -> Result<usize, Failed> {
        match self.stream.write(piece) {
            Ok(count) if count > 0 => Ok(count),
            _ => {
                self.faults = self.faults.saturating_add(1);
                Err(Failed)
            }
        }
    }
}
