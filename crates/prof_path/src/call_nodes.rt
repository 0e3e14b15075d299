//! Transforms of the call node that a list of functions leads to.
ghost use Rattle.std.specs.Prelude.{◌≡◌, ◌+◌, ◌<◌, ◌≤◌, [], length, take, drop, IfOk, IfSome, true};
ghost use Rattle.std.specs.List.{remove, All};
ghost use Rattle.std.specs.Option.{option_map_or};
ghost use Rattle.prof_tables.specs.declared.rows.Step.{Step};
ghost use Rattle.prof_path.specs.Rewriting.{end_of, up_to_end, meets};

use crate::shown::visible;
use crate::transform::Implementation;
use prof_tables::{Step, Thread};
use std::alloc::{AllocError, Global};

/// Whether that is the function at a place of the list.
fn meets(funcs: &[u32], place: usize, func: u32) -> bool
    ensures within { result ≡ true → place < length funcs.now }
    ensures meets { result ≡ meets funcs.now place func }
{
    match funcs.get(place) {
        Some(wanted) => func == *wanted,
        None => false,
    }
}

/// The place of the step at which the shown functions are exactly those.
fn end_of(path: &[Step], thread: &Thread, filter: Implementation, funcs: &[u32]) -> Option<usize>
    requires { All (λ (s : Step). s.func < length thread.now.shared.funcs + length thread.now.shared.resources) path.now }
    ensures within { IfSome result (λ k. k < length path.now) }
    ensures place { result ≡ end_of thread.now.shared filter funcs.now path.now }
{
    let mut met = 0;
    for (place, step) in path.iter().enumerate() {
        if visible(filter, thread, step.func) {
            if !meets(funcs, met, step.func) {
                return None;
            }
            met += 1;
            if met == funcs.len() {
                return Some(place);
            }
        }
    }
    None
}

/// How many steps there are up to the one at which the shown functions, read from the leaf, are exactly those, or 0.
fn length_up_to_end(path: &[Step], thread: &Thread, filter: Implementation, funcs: &[u32]) -> usize
    requires { All (λ (s : Step). s.func < length thread.now.shared.funcs + length thread.now.shared.resources) path.now }
    ensures within { result ≤ length path.now }
    ensures steps { take result path.now ≡ up_to_end thread.now.shared filter funcs.now path.now }
{
    let mut met = 0;
    for place in (0..path.len()).rev() {
        let step = path[place];
        if visible(filter, thread, step.func) {
            if !meets(funcs, met, step.func) {
                return 0;
            }
            met += 1;
            if met == funcs.len() {
                return place + 1;
            }
        }
    }
    0
}

/// The path without the call node.
pub(crate) fn without_call_node(
    alloc: Global,
    path: &[Step],
    thread: &Thread,
    filter: Implementation,
    funcs: &[u32],
) -> Result<Vec<Step>, AllocError>
    requires { All (λ (s : Step). s.func < length thread.now.shared.funcs + length thread.now.shared.resources) path.now }
    ensures { IfOk result (λ y. y.items ≡ option_map_or (remove path.now) (end_of thread.now.shared filter funcs.now path.now) path.now) }
{
    let Some(end) = end_of(path, thread, filter, funcs) else {
        return Vec::from_slice(alloc, path);
    };
    let mut kept = Vec::from_slice(alloc, &path[..end])?;
    kept.extend_from_slice(&path[end + 1..])?;
    Ok(kept)
}

/// The path from the call node on.
pub(crate) fn from_call_node(
    alloc: Global,
    path: &[Step],
    thread: &Thread,
    filter: Implementation,
    funcs: &[u32],
) -> Result<Vec<Step>, AllocError>
    requires { All (λ (s : Step). s.func < length thread.now.shared.funcs + length thread.now.shared.resources) path.now }
    ensures { IfOk result (λ y. y.items ≡ option_map_or (λ k. drop k path.now) (end_of thread.now.shared filter funcs.now path.now) []) }
{
    match end_of(path, thread, filter, funcs) {
        None => Ok(Vec::new(alloc)),
        Some(end) => Vec::from_slice(alloc, &path[end..]),
    }
}

/// The path up to the call node that the functions lead to from the leaf.
pub(crate) fn up_to_call_node(
    alloc: Global,
    path: &[Step],
    thread: &Thread,
    filter: Implementation,
    funcs: &[u32],
) -> Result<Vec<Step>, AllocError>
    requires { All (λ (s : Step). s.func < length thread.now.shared.funcs + length thread.now.shared.resources) path.now }
    ensures { IfOk result (λ y. y.items ≡ up_to_end thread.now.shared filter funcs.now path.now) }
{
    let kept = length_up_to_end(path, thread, filter, funcs);
    Vec::from_slice(alloc, &path[..kept])
}
