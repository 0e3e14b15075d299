// The hall.
ghost use Rattle.std.specs.Prelude.{◌≡◌, [], Some, IsTrue, is_none, false};
ghost use Rattle.prof_io.specs.Shelf.{nowhere};
ghost use Rattle.prof_listener.specs.Sockets.{left_before};

use crate::peer::Peer;
use prof_io::{Counted, Failed, Hall, Sink, Source};
use std::io::ErrorKind;
use std::net::{Net, OpenListener};

/// A hall of connections to a port of 127.0.0.1. What comes and what is written is not told.
///
/// A client that closes, resets or doesn't read what is written ends its own connection: the read or
/// the write that meets it fails.
#[derive(Drop)]
pub struct OsHall<R: Net> {
    runtime: R,
    listener: Option<R::Listener>,
    peer: Option<Peer<R::Stream>>,
    // a connection was given
    given: bool,
    faults: u64,
    called_at: u64,
    returned_at: u64,
    ghost none_given: { given ≡ false → IsTrue (is_none peer) },
}

impl<R: Net> OsHall<R> {
    /// A hall that isn't open yet.
    pub fn new(runtime: R) -> Self
        ensures left { ⟦<OsHall<R> as Counted>⟧.left result ≡ Some [] }
        ensures place { ⟦<OsHall<R> as Counted>⟧.place result ≡ nowhere }
        ensures faults { ⟦<OsHall<R> as Counted>⟧.faults result ≡ 0 }
    {
        OsHall {
            runtime,
            listener: None,
            peer: None,
            given: false,
            faults: 0,
            called_at: 0,
            returned_at: 0,
        }
    }
}

impl<R: Net> Counted for OsHall<R> {
    ghost faults = { λ s. s.faults };

    ghost left = { λ s. left_before s.given };

    ghost place = { λ s. record nowhere { called_at = s.called_at; returned_at = s.returned_at } };
}

impl<R: Net> Source for OsHall<R> {
    fn read(&mut self, buf: &mut [u8]) -> Result<usize, Failed> {
        let Some(peer) = &mut self.peer else {
            return Ok(0);
        };
        match peer.read(buf) {
            Ok(count) => Ok(count),
            Err(_) => {
                self.faults = self.faults.saturating_add(1);
                Err(Failed)
            }
        }
    }
}

impl<R: Net> Sink for OsHall<R> {
    fn write(&mut self, piece: &[u8]) -> Result<usize, Failed> {
        if let Some(peer) = &mut self.peer {
            match peer.write(piece) {
                Ok(count) if count > 0 => return Ok(count),
                _ => {}
            }
        }
        self.faults = self.faults.saturating_add(1);
        Err(Failed)
    }
}

// The next stream that comes. One whose client went away before it was taken is passed over.
fn accepted<L: OpenListener>(listener: &L) -> Option<L::Stream> {
    for _ in 0..u64::MAX {
        match listener.accept() {
            Ok((stream, _)) => return Some(stream),
            Err(error) if error.kind() == ErrorKind::ConnectionAborted => {}
            Err(_) => return None,
        }
    }
    None
}

impl<R: Net> Hall for OsHall<R> {
    fn listen(&mut self, port: u16) -> Result<(), Failed> {
        self.called_at = self.faults;
        match self.runtime.bind(([127, 0, 0, 1], port).into()) {
            Ok(listener) => {
                self.listener = Some(listener);
                self.returned_at = self.faults;
                Ok(())
            }
            Err(_) => {
                self.faults = self.faults.saturating_add(1);
                self.returned_at = self.faults;
                Err(Failed)
            }
        }
    }

    fn next(&mut self) -> Result<bool, Failed> {
        self.called_at = self.faults;
        self.returned_at = self.faults;
        let Some(listener) = &self.listener else {
            return Ok(false);
        };
        // The last connection is closed now, so that its client need not wait for the next one.
        self.peer = None;
        match accepted(listener) {
            Some(stream) => {
                self.given = true;
                self.peer = Some(Peer::new(stream));
                Ok(true)
            }
            None => {
                self.faults = self.faults.saturating_add(1);
                self.returned_at = self.faults;
                Err(Failed)
            }
        }
    }
}
