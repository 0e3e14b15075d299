//! Transforms that look for a function or a category.
ghost use Rattle.std.specs.Prelude.{◌≡◌, ◌==◌, ◌+◌, ◌≤◌, Some, not, [], ◌++◌, length, take, drop, filter, IfOk, if◌then◌else◌};
ghost use Rattle.std.specs.List.{list_any, position};
ghost use Rattle.std.specs.Option.{option_map_or};
ghost use Rattle.prof_path.specs.Rewriting.{is_func, after_last_of};

use prof_tables::Step;
use std::alloc::{AllocError, Global};

/// The path without the steps of a function.
pub(crate) fn without_function(
    alloc: Global,
    path: &[Step],
    func: u32,
) -> Result<Vec<Step>, AllocError>
    ensures { IfOk result (λ y. y.items ≡ filter (λ s. not (is_func func s)) path.now) }
{
    path.iter()
        .copied()
        .filter(|s| s.func != func)
        .collect(alloc)
}

/// The path of the steps of a category.
pub(crate) fn of_category(
    alloc: Global,
    path: &[Step],
    category: u32,
) -> Result<Vec<Step>, AllocError>
    ensures { IfOk result (λ y. y.items ≡ filter (λ s. s.category == category) path.now) }
{
    path.iter()
        .copied()
        .filter(|s| s.category == category)
        .collect(alloc)
}

/// The path, or none where it has the function.
pub(crate) fn unless_function(
    alloc: Global,
    path: &[Step],
    func: u32,
) -> Result<Vec<Step>, AllocError>
    ensures { IfOk result (λ y. y.items ≡ (if list_any (is_func func) path.now then [] else path.now)) }
{
    for step in path {
        if step.func == func {
            return Ok(Vec::new(alloc));
        }
    }
    Vec::from_slice(alloc, path)
}

/// The place of the first step of a function.
fn first_of_function(path: &[Step], func: u32) -> Option<usize>
    ensures { result ≡ position (is_func func) path.now }
{
    for (place, step) in path.iter().enumerate() {
        if step.func == func {
            return Some(place);
        }
    }
    None
}

/// The path from the first step of a function on.
pub(crate) fn from_function(
    alloc: Global,
    path: &[Step],
    func: u32,
) -> Result<Vec<Step>, AllocError>
    ensures { IfOk result (λ y. y.items ≡ option_map_or (λ k. drop k path.now) (position (is_func func) path.now) []) }
{
    match first_of_function(path, func) {
        None => Ok(Vec::new(alloc)),
        Some(first) => Vec::from_slice(alloc, &path[first..]),
    }
}

/// The path up to the first step of a function.
pub(crate) fn up_to_function(
    alloc: Global,
    path: &[Step],
    func: u32,
) -> Result<Vec<Step>, AllocError>
    ensures { IfOk result (λ y. y.items ≡ option_map_or (λ k. take (k + 1) path.now) (position (is_func func) path.now) path.now) }
{
    match first_of_function(path, func) {
        None => Vec::from_slice(alloc, path),
        Some(first) => Vec::from_slice(alloc, &path[..first + 1]),
    }
}

/// The path without what stands after the first step of a function up to the last.
pub(crate) fn without_recursion(
    alloc: Global,
    path: &[Step],
    func: u32,
) -> Result<Vec<Step>, AllocError>
    ensures { IfOk result (λ y. y.items ≡ option_map_or (λ k. take (k + 1) path.now ++ after_last_of func path.now) (position (is_func func) path.now) path.now) }
{
    let Some(first) = first_of_function(path, func) else {
        return Vec::from_slice(alloc, path);
    };
    let end = end_of_function(path, func, first);
    let mut kept = Vec::from_slice(alloc, &path[..first + 1])?;
    kept.extend_from_slice(&path[end..])?;
    Ok(kept)
}

/// The place after the last step of a function, of which one is at `first`.
fn end_of_function(path: &[Step], func: u32, first: usize) -> usize
    requires { position (is_func func) path.now ≡ Some first }
    ensures within { result ≤ length path.now }
    ensures after { drop result path.now ≡ after_last_of func path.now }
{
    let mut end = first + 1;
    for (place, step) in path.iter().enumerate() {
        if step.func == func {
            end = place + 1;
        }
    }
    end
}
