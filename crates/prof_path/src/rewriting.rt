//! The rewriting of one path.
ghost use Rattle.std.specs.Prelude.{◌≡◌, ◌+◌, ◌<◌, None, [], length, IfOk, if◌then◌else◌};
ghost use Rattle.std.specs.List.{All, list_any};
ghost use Rattle.prof_tables.specs.declared.rows.Step.{Step};
ghost use Rattle.prof_path.specs.Refusals.{refusal_of};
ghost use Rattle.prof_path.specs.Rewriting.{rewrite, is_during};

use crate::call_nodes::{from_call_node, up_to_call_node, without_call_node};
use crate::collapsing::{with_resource, without_direct_recursion};
use crate::functions::{
    from_function, of_category, unless_function, up_to_function, without_function,
    without_recursion,
};
use crate::lists::{Span, SpanList, StepList};
use crate::transform::Transform;
use prof_io::NoMemory;
use prof_tables::{Step, Thread};
use std::alloc::{AllocError, Global};

/// Whether a moment lies in a closed interval.
fn is_during(time: i64, span: Span) -> bool
    ensures { result ≡ is_during time span }
{
    span.start <= time && time <= span.end
}

/// The path, or none where the moment lies in no interval.
fn during(alloc: Global, path: &[Step], time: i64, spans: &[Span]) -> Result<Vec<Step>, AllocError>
    ensures { IfOk result (λ y. y.items ≡ (if list_any (is_during time) spans.now then path.now else [])) }
{
    if spans.iter().any(|span| is_during(time, *span)) {
        return Vec::from_slice(alloc, path);
    }
    Ok(Vec::new(alloc))
}

/// What a transform makes of the path of a sample at `time`. `spans` are the intervals of the markers that the search of
/// a `FilterSamples` finds; the other kinds don't look at them, nor at the time.
pub fn rewrite(
    alloc: Global,
    t: &Transform,
    path: &StepList,
    time: i64,
    spans: &SpanList,
    thread: &Thread,
) -> Result<StepList, NoMemory>
    requires checked { refusal_of thread.now.shared t.now ≡ None }
    requires funcs { All (λ (s : Step). s.func < length thread.now.shared.funcs + length thread.now.shared.resources) path.now }
    ensures { IfOk result (λ y. y ≡ rewrite thread.now.shared t.now spans.now path.now time) }
{
    let steps = path.as_slice();
    let kept = match t {
        Transform::MergeFunction { func } => without_function(alloc, steps, *func),
        Transform::MergeCallNode { filter, path } => without_call_node(
            alloc,
            steps,
            thread,
            *filter,
            path.as_slice(),
        ),
        Transform::DropFunction { func } => unless_function(alloc, steps, *func),
        Transform::FocusSubtree {
            filter,
            path,
            inverted,
        } => {
            if *inverted {
                up_to_call_node(alloc, steps, thread, *filter, path.as_slice())
            } else {
                from_call_node(alloc, steps, thread, *filter, path.as_slice())
            }
        }
        Transform::FocusFunction { func } => from_function(alloc, steps, *func),
        Transform::FocusCategory { category } => of_category(alloc, steps, *category),
        Transform::CollapseResource { filter, resource } => with_resource(
            alloc, steps, thread, *filter, *resource,
        ),
        Transform::CollapseDirectRecursion { filter, func } => {
            without_direct_recursion(alloc, steps, thread, *filter, *func)
        }
        Transform::CollapseRecursion { func } => without_recursion(alloc, steps, *func),
        Transform::CollapseFunctionSubtree { func } => up_to_function(alloc, steps, *func),
        Transform::FilterSamples { .. } => during(alloc, steps, time, spans.as_slice()),
    };
    Ok(StepList::of(kept?))
}
