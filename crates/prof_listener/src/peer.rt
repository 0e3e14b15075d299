// One client's connection.
ghost use Rattle.std.specs.Io.{ReadsAtMost, WritesAtMost};

use std::io;
use std::io::{Read, Write};
use std::net::{OpenStream, Shutdown};
use std::time::Duration;

// How many seconds a write waits for a client that doesn't read.
const PATIENCE: u64 = 30;

// A stream, whose writing half is shut before it is closed.
pub(crate) struct Peer<S: Read + Write + OpenStream + Drop> {
    stream: S,
}

impl<S: Read + Write + OpenStream + Drop> Peer<S> {
    /// The client at the other end of a stream. What is written goes out at once.
    pub fn new(stream: S) -> Self {
        // A system that can't do these serves more slowly, or waits longer.
        let _ = stream.set_nodelay(true);
        let _ = stream.set_write_timeout(Some(Duration::from_secs(PATIENCE)));
        Peer { stream }
    }

    /// Gives the next bytes.
    pub fn read(&mut self, buf: &mut [u8]) -> io::Result<usize>
        ensures { ReadsAtMost result buf.new }
    {
        self.stream.read(buf)
    }

    /// Sends some of the bytes.
    pub fn write(&mut self, piece: &[u8]) -> io::Result<usize>
        ensures { WritesAtMost result piece.now }
    {
        self.stream.write(piece)
    }
}

impl<S: Read + Write + OpenStream + Drop> Drop for Peer<S> {
    fn drop(self) {
        let Peer { stream } = self;
        let _ = stream.shutdown(Shutdown::Write);
    }
}
