//! The rows of the tables that threads may share, made of checked columns.
ghost use Rattle.std.specs.Prelude.{◌≡◌, ℕ, ◌<◌, ◌^◌, length, IfOk, IfSome, All, Some, slice_get};
ghost use Rattle.prof_raw.specs.Checks.{resource_count};
ghost use Rattle.prof_tables.specs.Frames.{category_before, stack_after};
ghost use Rattle.prof_tables.specs.Paths.{PrefixesBelow};
ghost use Rattle.prof_tables.specs.Rows.{func_at, resources_of, funcs_of, frames_of, stacks_of, stack_frames_of};
ghost use Rattle.prof_raw.specs.Fits.{FitResources, FitFuncs, FitFrames, FitStacks};
ghost use Rattle.prof_tables.specs.Ties.{IsFunc, IsFrame};

use crate::held::{HeldFrame, HeldFunc, HeldStack};
use crate::rows::{FrameRow, StackRow};
use prof_raw::RawShared;
use prof_raw::cells::{cell, index, maybe_index, minus_or_index, prefix, truth};
use std::alloc::{AllocError, Global};

/// The places of the resources' names.
#[tactic(auto, unfolding(crate::specs::Rows::resources_of))]
pub(crate) fn resources_of(alloc: Global, raw: &RawShared) -> Result<Vec<u32>, AllocError>
    requires { FitResources raw.now }
    ensures rows { IfOk result (λ v. v.items ≡ resources_of raw.now) }
    ensures tied { IfOk result (λ v. All (λ name. name < length raw.now.strings) v.items) }
    ensures count { IfOk result (λ v. length v.items ≡ resource_count raw.now) }
{
    let strings = raw.strings.count();
    let rows = raw.resource_count() as usize;
    let mut resources = Vec::with_capacity(alloc, rows)?;
    for r in 0..rows {
        resources.push(index(strings, cell(&raw.resource_name, r)))?;
    }
    Ok(resources)
}

/// The function of a row.
fn func_at(strings: u32, resources: u32, raw: &RawShared, f: usize) -> HeldFunc
    requires fit { FitFuncs raw.now }
    requires inside { f < length raw.now.func_name.cells }
    requires strings { strings ≡ length raw.now.strings }
    requires resources { resources ≡ resource_count raw.now }
    ensures row { result ≡ func_at raw.now f }
    ensures tied { IsFunc strings resources result }
{
    let name = index(strings, cell(&raw.func_name, f));
    let is_js = truth(cell(&raw.func_is_js, f));
    let relevant_for_js = truth(cell(&raw.func_relevant_for_js, f));
    let resource = minus_or_index(resources, cell(&raw.func_resource, f));
    let file = maybe_index(strings, cell(&raw.func_file_name, f));
    HeldFunc::of(name, is_js, relevant_for_js, resource, file)
}

/// The functions that the columns stand for.
#[tactic(auto, unfolding(crate::specs::Rows::funcs_of))]
pub(crate) fn funcs_of(alloc: Global, raw: &RawShared) -> Result<Vec<HeldFunc>, AllocError>
    requires resources { FitResources raw.now }
    requires funcs { FitFuncs raw.now }
    ensures rows { IfOk result (λ v. v.items ≡ funcs_of raw.now) }
    ensures tied { IfOk result (λ v.
        All (IsFunc (length raw.now.strings) (resource_count raw.now)) v.items) }
    ensures count { IfOk result (λ v. length v.items ≡ length raw.now.func_name.cells) }
{
    let strings = raw.strings.count();
    let resources = raw.resource_count();
    let rows = raw.func_name.values.len();
    let mut funcs = Vec::with_capacity(alloc, rows)?;
    for f in 0..rows {
        funcs.push(func_at(strings, resources, raw, f))?;
    }
    Ok(funcs)
}

/// The frames that the columns stand for.
#[tactic(auto, unfolding(crate::specs::Rows::frames_of))]
pub(crate) fn frames_of(
    alloc: Global,
    categories: u32,
    raw: &RawShared,
) -> Result<Vec<HeldFrame>, AllocError>
    requires funcs { FitFuncs raw.now }
    requires frames { FitFrames categories raw.now }
    ensures rows { IfOk result (λ v. v.items ≡ frames_of raw.now) }
    ensures tied { IfOk result (λ v.
        All (IsFrame (length raw.now.func_name.cells) categories) v.items) }
    ensures count { IfOk result (λ v. length v.items ≡ length raw.now.frame_func.cells) }
{
    let funcs = raw.func_name.values.len() as u32;
    let rows = raw.frame_func.values.len();
    let mut frames = Vec::with_capacity(alloc, rows)?;
    for j in 0..rows {
        let func = index(funcs, cell(&raw.frame_func, j));
        let category = maybe_index(categories, cell(&raw.frame_category, j));
        frames.push(HeldFrame::of(FrameRow { func, category }))?;
    }
    Ok(frames)
}

/// The frames of the stack rows.
#[tactic(auto, unfolding(crate::specs::Rows::stack_frames_of))]
pub(crate) fn stack_frames_of(alloc: Global, raw: &RawShared) -> Result<Vec<u32>, AllocError>
    requires frames { length raw.now.frame_func.cells < 2 ^ 32 }
    requires stacks { FitStacks raw.now }
    ensures rows { IfOk result (λ v. v.items ≡ stack_frames_of raw.now) }
{
    let frames = raw.frame_func.values.len() as u32;
    let rows = raw.stack_frame.values.len();
    let mut numbers = Vec::with_capacity(alloc, rows)?;
    for i in 0..rows {
        numbers.push(index(frames, cell(&raw.stack_frame, i)))?;
    }
    Ok(numbers)
}

/// The category of the row before, where there is one.
fn category_before(rows: &[HeldStack], prefix: Option<u32>) -> Option<u32>
    requires { IfSome prefix (λ p. p < length rows.now) }
    ensures { result ≡ category_before rows.now prefix }
{
    match prefix {
        Some(p) => Some(rows[p as usize].row().category),
        None => None,
    }
}

/// A stack row after these rows.
fn stack_after(default: u32, rows: &[HeldStack], prefix: Option<u32>, frame: FrameRow) -> StackRow
    requires { IfSome prefix (λ p. p < length rows.now) }
    ensures { result ≡ stack_after default rows.now prefix frame }
{
    let before = category_before(rows, prefix);
    StackRow {
        prefix,
        func: frame.func,
        category: frame.category.or(before).unwrap_or(default),
    }
}

fn frame_at(frames: &[HeldFrame], j: u32) -> FrameRow
    requires { j < length frames.now }
    ensures { slice_get frames.now j ≡ Some result }
{
    frames[j as usize].row()
}

/// The stack rows that the columns stand for.
#[tactic(auto, unfolding(crate::specs::Rows::stacks_of, crate::specs::Rows::stacks_below))]
pub(crate) fn stacks_of(
    alloc: Global,
    default: u32,
    frames: &[HeldFrame],
    raw: &RawShared,
) -> Result<Vec<HeldStack>, AllocError>
    requires frames { frames.now ≡ frames_of raw.now }
    requires few_frames { length raw.now.frame_func.cells < 2 ^ 32 }
    requires stacks { FitStacks raw.now }
    ensures rows { IfOk result (λ v. v.items ≡ stacks_of default raw.now) }
    ensures below { IfOk result (λ v. PrefixesBelow v.items) }
    ensures count { IfOk result (λ v. length v.items ≡ length raw.now.stack_frame.cells) }
{
    let frame_count = raw.frame_func.values.len() as u32;
    let count = raw.stack_frame.values.len();
    let mut rows = Vec::with_capacity(alloc, count)?;
    for i in 0..count {
        let j = index(frame_count, cell(&raw.stack_frame, i));
        let frame = frame_at(frames, j);
        let prefix = prefix(i as u32, cell(&raw.stack_prefix, i));
        let row = stack_after(default, &rows, prefix, frame);
        rows.push(HeldStack::of(row))?;
    }
    Ok(rows)
}
