// What is told of a status.
ghost use Rattle.std.specs.Prelude.{◌++◌};
ghost use Rattle.prof_io.specs.Outside.{seen};
ghost use Rattle.prof_io.specs.Sinks.{Wrote};
ghost use Rattle.prof_desk.specs.Telling.{told};
ghost use Rattle.prof_reply.specs.Lines.{line};

use crate::Status;
use prof_io::{OutFault, Sink, copy_out};

/// Writes two texts and an end of line.
fn put_line<E: Sink>(err: &mut E, first: &[u8], second: &[u8]) -> Result<(), OutFault>
    ensures { Wrote (seen E.Counted err.old) (seen E.Counted err.new) result (first.now ++ line second.now) }
{
    copy_out(err, first)?;
    copy_out(err, second)?;
    copy_out(err, b"\n")
}

/// Writes what is told of a status, where the file of that name is at fault, or the text breaks as it is said.
pub fn tell<E: Sink>(err: &mut E, status: Status, name: &str, broken: &str) -> Result<(), OutFault>
    ensures { Wrote (seen E.Counted err.old) (seen E.Counted err.new) result (told status name.now broken.now) }
{
    match status {
        Status::Done => Ok(()),
        Status::Broken => put_line(err, b"", broken.as_bytes()),
        Status::Usage => put_line(
            err,
            b"usage: profdesk ",
            b"tree, markers, script, serve, check, convert, gen, demo, flame, chart, alloc, merge",
        ),
        Status::FileFault => put_line(err, b"file fault ", name.as_bytes()),
        Status::OutFault => put_line(err, b"", b"out fault"),
        Status::HallFault => put_line(err, b"", b"hall fault"),
        Status::NoMemory => put_line(err, b"", b"no memory"),
        Status::KeeperFault => put_line(err, b"", b"keeper fault"),
    }
}
