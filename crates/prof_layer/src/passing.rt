//! A pass over rows: each is read once, and gives one new row at most.
ghost use Rattle.std.specs.Prelude.{◌≡◌, ◌<◌, ◌≤◌, ◌+◌, None, length, map, IfSome, IfOk};
ghost use Rattle.std.specs.List.{All};
ghost use Rattle.prof_tables.specs.Ties.{IsStackRow};
ghost use Rattle.prof_tables.specs.Paths.{PrefixesBelow};
ghost use Rattle.prof_path.specs.Refusals.{refusal_of};
ghost use Rattle.prof_layer.specs.declared.passing.Place.{Place};
ghost use Rattle.prof_layer.specs.Acts.{act_of, IsStepwise};
ghost use Rattle.prof_layer.specs.Rewritten.{AreRows, IsRewritten};
ghost use Rattle.prof_layer.specs.Passing.{root, place_of, place_after, rows_after, first_after};

use crate::acts::{Act, act_of, next_hit, next_met};
use prof_io::{NoMemory, Steps};
use prof_path::{Step, Transform};
use prof_tables::{Stacks, StacksBuilder, Thread};
use std::alloc::{AllocError, Global};
use std::sync::ledger::Ledger;

/// What a pass keeps of a path.
#[derive(Clone, Copy, Debug, PartialEq, Eq)]
pub(crate) struct Place {
    /// The row of the rewritten path, where that isn't empty.
    out: Option<u32>,
    /// The row of its part up to the first step of the function, where recursion is collapsed.
    first: Option<u32>,
    /// Whether the function has come, or is called at the leaf, or the leaf is inside the resource.
    hit: bool,
    /// How many functions of a call node's path have been met.
    met: Option<usize>,
}

/// The rows that a transform makes of rows, and where the path of each of these went.
#[derive(Drop)]
pub(crate) struct Rewritten {
    pub(crate) rows: Stacks,
    pub(crate) outs: Vec<Option<u32>>,
}

impl Place {
    /// The place of the empty path.
    fn root() -> Self
        ensures { result ≡ root }
    {
        Place {
            out: None,
            first: None,
            hit: false,
            met: Some(0),
        }
    }
}

/// The place of a row's prefix.
fn place_of(places: &[Place], prefix: Option<u32>) -> Place
    requires { IfSome prefix (λ p. p < length places.now) }
    ensures { result ≡ place_of places.now prefix }
{
    match prefix {
        Some(p) => places[p as usize],
        None => Place::root(),
    }
}

/// The row of the path up to the first step of the function, where recursion is collapsed.
fn first_after(t: &Transform, above: Place, out: Option<u32>) -> Option<u32>
    ensures { result ≡ first_after t.now above out }
{
    match t {
        Transform::CollapseRecursion { .. } if above.hit => above.first,
        Transform::CollapseRecursion { .. } => out,
        _ => None,
    }
}

/// The place of a path that goes on with a step, and the row that it needs.
fn place_after(
    t: &Transform,
    thread: &Thread,
    above: Place,
    step: Step,
    rows: &mut StacksBuilder,
) -> Place
    requires room { length rows.old.rows < rows.old.room }
    requires funcs { rows.old.funcs ≡ length thread.now.shared.funcs + length thread.now.shared.resources }
    requires func { step.func < length thread.now.shared.funcs + length thread.now.shared.resources }
    requires category { step.category < rows.old.categories }
    requires out { IfSome above.out (λ p. p < length rows.old.rows) }
    requires checked { refusal_of thread.now.shared t.now ≡ None }
    ensures place { result ≡ place_after thread.now.shared t.now above step (length rows.old.rows) }
    ensures rows { rows.new ≡ record rows.old { rows = rows_after (act_of thread.now.shared t.now above.hit above.met step) above rows.old.rows } }
{
    let out = match act_of(t, thread, above.hit, above.met, step) {
        Act::Stay => above.out,
        Act::Below(step) => Some(rows.add(above.out, step.func, step.category)),
        Act::Empty => None,
        Act::Back => above.first,
    };
    Place {
        out,
        first: first_after(t, above, out),
        hit: next_hit(t, thread, above.hit, step),
        met: next_met(t, thread, above.met, step),
    }
}

/// Where the paths of the places went.
fn outs_of(alloc: Global, places: &[Place]) -> Result<Vec<Option<u32>>, AllocError>
    ensures { IfOk result (λ outs. outs.items ≡ map (λ (p : Place). p.out) places.now) }
{
    places.iter().map(|place| place.out).collect(alloc)
}

/// The rows that a transform makes of rows, in one pass.
pub(crate) fn pass<L: Ledger>(
    alloc: Global,
    t: &Transform,
    thread: &Thread,
    top: &Stacks,
    reads: &mut Steps<L>,
) -> Result<Rewritten, NoMemory>
    requires checked { refusal_of thread.now.shared t.now ≡ None }
    requires stepwise { IsStepwise t.now }
    requires rows { AreRows thread.now.shared top.now }
    ensures rewritten { IfOk result (λ made. IsRewritten thread.now.shared t.now top.now made.rows made.outs.items) }
    ensures reads { reads.new ≤ reads.old + length top.now }
{
    let funcs = thread.func_count() + thread.resource_count();
    let mut rows = StacksBuilder::new(alloc, top.count(), funcs, thread.category_count())?;
    let mut places = Vec::with_capacity(alloc, top.count() as usize)?;
    for i in 0..top.count() {
        let row = top.row(i, reads);
        let step = Step {
            func: row.func,
            category: row.category,
        };
        let above = place_of(&places, row.prefix);
        let place = place_after(t, thread, above, step, &mut rows);
        places.push(place)?;
    }
    let outs = outs_of(alloc, &places)?;
    Ok(Rewritten {
        rows: rows.done(),
        outs,
    })
}
