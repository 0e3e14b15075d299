//! Rows of stacks rewritten by a transform.
ghost use Rattle.std.specs.Prelude.{◌≡◌, ◌≤◌, ◌+◌, false, None, length, map, IfOk};
ghost use Rattle.prof_path.specs.Refusals.{refusal_of};
ghost use Rattle.prof_layer.specs.Rewritten.{AreRows, IsRewritten};
ghost use Rattle.prof_layer.specs.Simulates.{is_of_samples};
ghost use Rattle.prof_layer.specs.Following.{follow};

use crate::focusing::focus_inverted;
use crate::passing::{Rewritten, pass};
use prof_io::{NoMemory, Steps};
use prof_path::Transform;
use prof_tables::{Stacks, Thread};
use std::alloc::{AllocError, Global};
use std::sync::ledger::Ledger;

/// The rows that a transform makes of rows, each of which is read once. It is none of samples.
pub(crate) fn rewritten<L: Ledger>(
    alloc: Global,
    t: &Transform,
    thread: &Thread,
    top: &Stacks,
    reads: &mut Steps<L>,
) -> Result<Rewritten, NoMemory>
    requires checked { refusal_of thread.now.shared t.now ≡ None }
    requires of_rows { is_of_samples t.now ≡ false }
    requires rows { AreRows thread.now.shared top.now }
    ensures rewritten { IfOk result (λ made. IsRewritten thread.now.shared t.now top.now made.rows made.outs.items) }
    ensures reads { reads.new ≤ reads.old + length top.now }
{
    match t {
        Transform::FocusSubtree {
            filter,
            path,
            inverted,
        } => {
            if *inverted {
                focus_inverted(alloc, thread, *filter, path.as_slice(), top, reads)
            } else {
                pass(alloc, t, thread, top, reads)
            }
        }
        _ => pass(alloc, t, thread, top, reads),
    }
}

/// Where the path of an entry went.
fn follow(outs: &[Option<u32>], entry: Option<u32>) -> Option<u32>
    ensures { result ≡ follow outs.now entry }
{
    let row = entry?;
    match outs.get(row as usize) {
        Some(out) => *out,
        None => None,
    }
}

/// Where the paths of entries went.
pub(crate) fn followed(
    alloc: Global,
    entries: &[Option<u32>],
    outs: &[Option<u32>],
) -> Result<Vec<Option<u32>>, AllocError>
    ensures { IfOk result (λ list. list.items ≡ map (follow outs.now) entries.now) }
{
    entries
        .iter()
        .map(|entry| follow(outs, *entry))
        .collect(alloc)
}
