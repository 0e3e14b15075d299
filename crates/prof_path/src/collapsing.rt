//! Transforms that look at the shown step before a step.
ghost use Rattle.std.specs.Prelude.{◌≡◌, ◌+◌, ◌<◌, false, length, IfOk};
ghost use Rattle.std.specs.List.{All};
ghost use Rattle.prof_tables.specs.declared.rows.Step.{Step};
ghost use Rattle.prof_path.specs.Rewriting.{collapsed, without_repeats};

use crate::shown::visible;
use crate::transform::Implementation;
use prof_tables::{Step, Thread};
use std::alloc::{AllocError, Global};

/// The path whose runs inside a resource are one step each.
pub(crate) fn with_resource(
    alloc: Global,
    path: &[Step],
    thread: &Thread,
    filter: Implementation,
    resource: u32,
) -> Result<Vec<Step>, AllocError>
    requires funcs { All (λ (s : Step). s.func < length thread.now.shared.funcs + length thread.now.shared.resources) path.now }
    requires resource { resource < length thread.now.shared.resources }
    ensures { IfOk result (λ y. y.items ≡ collapsed thread.now.shared filter resource false path.now) }
{
    let collapsed = thread.func_count() + resource;
    let mut kept = Vec::new(alloc);
    let mut inside = false;
    for step in path {
        let has = thread.func_resource(step.func) == Some(resource);
        let now = has || (!visible(filter, thread, step.func) && inside);
        if !now {
            kept.push(*step)?;
        } else if !inside {
            kept.push(Step {
                func: collapsed,
                category: step.category,
            })?;
        }
        inside = now;
    }
    Ok(kept)
}

/// The path without each step of a function that the function calls.
pub(crate) fn without_direct_recursion(
    alloc: Global,
    path: &[Step],
    thread: &Thread,
    filter: Implementation,
    func: u32,
) -> Result<Vec<Step>, AllocError>
    requires { All (λ (s : Step). s.func < length thread.now.shared.funcs + length thread.now.shared.resources) path.now }
    ensures { IfOk result (λ y. y.items ≡ without_repeats thread.now.shared filter func false path.now) }
{
    let mut kept = Vec::new(alloc);
    let mut called = false;
    for step in path {
        if step.func == func {
            if !called {
                kept.push(*step)?;
            }
            called = true;
        } else {
            kept.push(*step)?;
            called = called && !visible(filter, thread, step.func);
        }
    }
    Ok(kept)
}
