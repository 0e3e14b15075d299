//! What a pass makes of one step more at the leaf of a path.
ghost use Rattle.std.specs.Prelude.{◌≡◌, ◌<◌, ◌+◌, length, if◌then◌else◌};
ghost use Rattle.prof_path.specs.Refusals.{refusal_of};
ghost use Rattle.prof_path.specs.Rewriting.{is_func, is_hidden, has_resource, meets};
ghost use Rattle.prof_path.specs.Stepwise.{along_next, has_met, completes};
ghost use Rattle.prof_path.specs.declared.transform.Transform.TheVariants.{CollapseResource};
ghost use Rattle.prof_layer.specs.declared.acts.Act.TheVariants.{Stay, Below, Empty};
ghost use Rattle.prof_layer.specs.Acts.{next_hit, next_met, met_after, act_of};

use prof_path::{Implementation, Step, Transform, visible};
use prof_tables::Thread;

/// What becomes of the rewritten path where the path goes one step on.
#[derive(Clone, Copy, Debug, PartialEq, Eq)]
pub(crate) enum Act {
    /// It stays.
    Stay,
    /// It goes this step on.
    Below(Step),
    /// It is empty.
    Empty,
    /// It goes back to its part up to the first step of the function.
    Back,
}

/// Whether a step has a function.
fn has_func(step: Step, func: u32) -> bool
    ensures { result ≡ is_func func step }
{
    step.func == func
}

/// Whether a filter hides a step.
fn is_hidden(thread: &Thread, filter: Implementation, step: Step) -> bool
    requires { step.func < length thread.now.shared.funcs + length thread.now.shared.resources }
    ensures { result ≡ is_hidden thread.now.shared filter step }
{
    !visible(filter, thread, step.func)
}

/// Whether a step has a resource.
fn has_resource(thread: &Thread, resource: u32, step: Step) -> bool
    requires { step.func < length thread.now.shared.funcs + length thread.now.shared.resources }
    ensures { result ≡ has_resource thread.now.shared resource step }
{
    match thread.func_resource(step.func) {
        Some(own) => own == resource,
        None => false,
    }
}

/// What is kept of the functions, the resources and the calls that have come, after one step more.
pub(crate) fn next_hit(t: &Transform, thread: &Thread, hit: bool, step: Step) -> bool
    requires { step.func < length thread.now.shared.funcs + length thread.now.shared.resources }
    ensures { result ≡ next_hit thread.now.shared t.now hit step }
{
    match t {
        Transform::DropFunction { func }
        | Transform::FocusFunction { func }
        | Transform::CollapseRecursion { func }
        | Transform::CollapseFunctionSubtree { func } => hit || has_func(step, *func),
        Transform::CollapseDirectRecursion { filter, func } => {
            has_func(step, *func) || (hit && is_hidden(thread, *filter, step))
        }
        Transform::CollapseResource { filter, resource } => {
            has_resource(thread, *resource, step) || (is_hidden(thread, *filter, step) && hit)
        }
        _ => false,
    }
}

/// Whether that is the function at a place of the list.
fn meets(funcs: &[u32], place: usize, func: u32) -> bool
    ensures { result ≡ meets funcs.now place func }
{
    match funcs.get(place) {
        Some(wanted) => func == *wanted,
        None => false,
    }
}

/// How many of the functions have been met, after one more that is shown.
fn along_next(funcs: &[u32], met: Option<usize>, func: u32) -> Option<usize>
    ensures { result ≡ along_next funcs.now met func }
{
    let met = met?;
    if met == funcs.len() {
        return Some(met);
    }
    if meets(funcs, met, func) {
        Some(met + 1)
    } else {
        None
    }
}

/// How many of the functions have been met, after one step more.
fn met_after(
    thread: &Thread,
    filter: Implementation,
    funcs: &[u32],
    met: Option<usize>,
    step: Step,
) -> Option<usize>
    requires { step.func < length thread.now.shared.funcs + length thread.now.shared.resources }
    ensures { result ≡ met_after thread.now.shared filter funcs.now met step }
{
    if visible(filter, thread, step.func) {
        along_next(funcs, met, step.func)
    } else {
        met
    }
}

/// Whether all of the functions have been met.
fn has_met(funcs: &[u32], met: Option<usize>) -> bool
    ensures { result ≡ has_met funcs.now met }
{
    match met {
        Some(met) => met == funcs.len(),
        None => false,
    }
}

/// Whether a shown function is the last that was missing.
fn completes(funcs: &[u32], met: Option<usize>, func: u32) -> bool
    ensures { result ≡ completes funcs.now met func }
{
    match met {
        Some(met) => meets(funcs, met, func) && met + 1 == funcs.len(),
        None => false,
    }
}

/// How many functions of the path of a call node have been met, after one step more.
pub(crate) fn next_met(
    t: &Transform,
    thread: &Thread,
    met: Option<usize>,
    step: Step,
) -> Option<usize>
    requires { step.func < length thread.now.shared.funcs + length thread.now.shared.resources }
    ensures { result ≡ next_met thread.now.shared t.now met step }
{
    match t {
        Transform::MergeCallNode { filter, path } | Transform::FocusSubtree { filter, path, .. } =>
            { met_after(thread, *filter, path.as_slice(), met, step) }
        _ => met,
    }
}

/// The path goes on, or stays where the step goes away.
fn unless(away: bool, step: Step) -> Act
    ensures { result ≡ (if away then Stay else Below step) }
{
    if away { Act::Stay } else { Act::Below(step) }
}

/// The path goes on where it is kept, and else it is empty.
fn only(kept: bool, step: Step) -> Act
    ensures { result ≡ (if kept then Below step else Empty) }
{
    if kept { Act::Below(step) } else { Act::Empty }
}

/// What becomes of a path whose runs inside a resource are one step each.
fn resource_act(
    thread: &Thread,
    filter: Implementation,
    resource: u32,
    hit: bool,
    step: Step,
) -> Act
    requires func { step.func < length thread.now.shared.funcs + length thread.now.shared.resources }
    requires resource { resource < length thread.now.shared.resources }
    ensures { result ≡ act_of thread.now.shared (CollapseResource filter resource) hit None step }
{
    let now = has_resource(thread, resource, step) || (is_hidden(thread, filter, step) && hit);
    if !now {
        return Act::Below(step);
    }
    unless(
        hit,
        Step {
            func: thread.func_count() + resource,
            category: step.category,
        },
    )
}

/// What becomes of the rewritten path where the path goes one step on.
pub(crate) fn act_of(
    t: &Transform,
    thread: &Thread,
    hit: bool,
    met: Option<usize>,
    step: Step,
) -> Act
    requires func { step.func < length thread.now.shared.funcs + length thread.now.shared.resources }
    requires checked { refusal_of thread.now.shared t.now ≡ None }
    ensures { result ≡ act_of thread.now.shared t.now hit met step }
{
    match t {
        Transform::MergeFunction { func } => unless(has_func(step, *func), step),
        Transform::MergeCallNode { filter, path } => unless(
            visible(*filter, thread, step.func) && completes(path.as_slice(), met, step.func),
            step,
        ),
        Transform::DropFunction { func } => only(!(hit || has_func(step, *func)), step),
        Transform::FocusSubtree {
            filter,
            path,
            inverted: false,
        } => {
            let met = met_after(thread, *filter, path.as_slice(), met, step);
            only(has_met(path.as_slice(), met), step)
        }
        Transform::FocusFunction { func } => only(hit || has_func(step, *func), step),
        Transform::FocusCategory { category } => unless(step.category != *category, step),
        Transform::CollapseResource { filter, resource } => {
            resource_act(thread, *filter, *resource, hit, step)
        }
        Transform::CollapseDirectRecursion { func, .. } => {
            unless(has_func(step, *func) && hit, step)
        }
        Transform::CollapseRecursion { func } if has_func(step, *func) && hit => Act::Back,
        Transform::CollapseFunctionSubtree { .. } => unless(hit, step),
        _ => Act::Below(step),
    }
}
