//! The texts of replies.
ghost use Rattle.std.specs.Prelude.{◌++◌, codes, option_copied};
ghost use Rattle.prof_reply.specs.Lines.{line};
ghost use Rattle.prof_reply.specs.Replies.{reply_bytes};
ghost use Rattle.prof_io.specs.Outside.{seen};
ghost use Rattle.prof_io.specs.Sinks.{Wrote};

use crate::lines::done_line;
use crate::markers::write_markers;
use crate::refusal::write_refusal;
use crate::tree::write_tree;
use prof_io::{OutFault, Sink, copy_out};
use prof_machine::Reply;
use prof_tables::Thread;

/// Writes a view's text.
fn write_address<S: Sink>(out: &mut S, view: &str) -> Result<(), OutFault>
    ensures { Wrote (seen S.Counted out.old) (seen S.Counted out.new) result (line (codes "address " ++ view.now)) }
{
    copy_out(out, b"address ")?;
    copy_out(out, view.as_bytes())?;
    copy_out(out, b"\n")
}

/// Writes a reply's text. The thread is that of the session's present view: without one, trees and markers have no text.
pub fn reply_text<S: Sink>(
    thread: Option<&Thread>,
    reply: &Reply,
    out: &mut S,
) -> Result<(), OutFault>
    ensures { Wrote (seen S.Counted out.old) (seen S.Counted out.new) result
        (reply_bytes (option_copied thread.entry) reply.now) }
{
    match (reply, thread) {
        (Reply::Done { version }, _) => copy_out(out, done_line(*version).as_str().as_bytes()),
        (Reply::Closed, _) => copy_out(out, b"ok\n"),
        (Reply::Tree(tree), Some(thread)) => write_tree(out, "plain", thread, tree),
        (Reply::Inverted(tree), Some(thread)) => write_tree(out, "inverted", thread, tree),
        (Reply::Markers(markers), Some(thread)) => write_markers(out, thread, markers.as_slice()),
        (Reply::Tree(_) | Reply::Inverted(_) | Reply::Markers(_), None) => Ok(()),
        (Reply::Address(view), _) => write_address(out, view.as_str()),
        (Reply::Refused(refusal), _) => write_refusal(out, refusal),
        (Reply::NoMemory, _) => copy_out(out, b"refused S27 NoMemory\n"),
    }
}
