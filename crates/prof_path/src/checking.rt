//! Whether a transform fits a thread.
ghost use Rattle.std.specs.Prelude.{◌≡◌};
ghost use Rattle.std.specs.Result.{result_err};
ghost use Rattle.prof_path.specs.Refusals.{func_refusal, path_refusal, rule_of, refusal_of};

use crate::searching::is_long_search;
use crate::transform::Transform;
use prof_tables::Thread;

const LONGEST_PATH: usize = 4096;

/// Why a transform is refused.
#[derive(Clone, Copy, Debug, PartialEq, Eq)]
pub enum PushRefusal {
    /// No function has this number.
    FuncOut { func: u32 },
    /// No resource has this number.
    ResourceOut { resource: u32 },
    /// No category has this number.
    CategoryOut { category: u32 },
    /// The path of a call node has no function.
    EmptyPath,
    /// The path of a call node has more than 4,096 functions.
    LongPath { length: u64 },
    /// A search is over 256 bytes or 8 terms.
    LongSearch,
}

/// Whether a function stands in the table, or is a collapsed resource.
fn check_func(func: u32, thread: &Thread) -> Result<(), PushRefusal>
    ensures { result_err result ≡ func_refusal thread.now.shared func }
{
    if func < thread.func_count() + thread.resource_count() {
        Ok(())
    } else {
        Err(PushRefusal::FuncOut { func })
    }
}

/// Whether the functions of a call node's path are there, and there are 1 to 4,096.
fn check_path(funcs: &[u32], thread: &Thread) -> Result<(), PushRefusal>
    ensures { result_err result ≡ path_refusal thread.now.shared funcs.now }
{
    let bound = thread.func_count() + thread.resource_count();
    for func in funcs {
        if *func >= bound {
            return Err(PushRefusal::FuncOut { func: *func });
        }
    }
    if funcs.is_empty() {
        return Err(PushRefusal::EmptyPath);
    }
    if funcs.len() > LONGEST_PATH {
        return Err(PushRefusal::LongPath {
            length: funcs.len() as u64,
        });
    }
    Ok(())
}

/// Whether what a transform names is there: each function, resource and category is the thread's, and its path has 1 to
/// 4,096 functions. A function that is out goes before the path's length, and the first such function is named. Searches
/// are not looked at.
pub fn check_rules(t: &Transform, thread: &Thread) -> Result<(), PushRefusal>
    ensures { result_err result ≡ rule_of thread.now.shared t.now }
{
    match t {
        Transform::MergeFunction { func }
        | Transform::DropFunction { func }
        | Transform::FocusFunction { func }
        | Transform::CollapseDirectRecursion { func, .. }
        | Transform::CollapseRecursion { func }
        | Transform::CollapseFunctionSubtree { func } => check_func(*func, thread),
        Transform::MergeCallNode { path, .. } | Transform::FocusSubtree { path, .. } => {
            check_path(path.as_slice(), thread)
        }
        Transform::FocusCategory { category } if *category >= thread.category_count() => {
            Err(PushRefusal::CategoryOut {
                category: *category,
            })
        }
        Transform::CollapseResource { resource, .. } if *resource >= thread.resource_count() => {
            Err(PushRefusal::ResourceOut {
                resource: *resource,
            })
        }
        _ => Ok(()),
    }
}

/// Whether a transform fits a thread: what it names is there, by `check_rules`, and its search has at most 256 bytes and 8
/// terms.
pub fn check(t: &Transform, thread: &Thread) -> Result<(), PushRefusal>
    ensures { result_err result ≡ refusal_of thread.now.shared t.now }
{
    match t {
        Transform::FilterSamples { search } if is_long_search(search.as_str()) => Err(
            PushRefusal::LongSearch,
        ),
        _ => check_rules(t, thread),
    }
}
