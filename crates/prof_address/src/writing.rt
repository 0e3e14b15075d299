//! The texts of transforms, written.
ghost use Rattle.std.specs.Prelude.{◌≡◌, ◌<◌, ◌++◌, IfOk, OnOk};
ghost use Rattle.prof_spell.specs.Pieces.{EachFits};
ghost use Rattle.prof_address.specs.Transforms.{transform_text, transforms_text, HasPath, paths, filter_text};

use crate::kind::{Filter, Kind};
use crate::text::ViewText;
use prof_io::{NoMemory, Text};
use prof_path::{FuncPath, Implementation, Transform};
use prof_spell::{Word, push_number, push_search};
use std::alloc::Global;

fn push_path(text: &mut Text, path: &FuncPath) -> Result<(), NoMemory>
    ensures { OnOk result (text.new ≡ text.old ++ paths.text path.now) }
{
    'funcs: for (i, func) in path.as_slice().iter().enumerate() {
        if i > 0 {
            text.push_str(".")?;
        }
        push_number(text, *func as u64)?;
    }
    Ok(())
}

fn push_filter(text: &mut Text, filter: Implementation) -> Result<(), NoMemory>
    ensures { OnOk result (text.new ≡ text.old ++ filter_text filter) }
{
    text.push_str(Filter(filter).word())?;
    text.push_str("-")
}

fn push_transform(text: &mut Text, transform: &Transform) -> Result<(), NoMemory>
    ensures { OnOk result (text.new ≡ text.old ++ transform_text transform.now) }
{
    match transform {
        Transform::MergeFunction { func } => {
            text.push_str(Kind::MergeFunction.word())?;
            push_number(text, *func as u64)
        }
        Transform::MergeCallNode { filter, path } => {
            text.push_str(Kind::MergeCallNode.word())?;
            push_filter(text, *filter)?;
            push_path(text, path)
        }
        Transform::DropFunction { func } => {
            text.push_str(Kind::DropFunction.word())?;
            push_number(text, *func as u64)
        }
        Transform::FocusSubtree {
            filter,
            path,
            inverted,
        } => {
            text.push_str(Kind::FocusSubtree.word())?;
            push_filter(text, *filter)?;
            push_path(text, path)?;
            text.push_str(if *inverted { "-i" } else { "" })
        }
        Transform::FocusFunction { func } => {
            text.push_str(Kind::FocusFunction.word())?;
            push_number(text, *func as u64)
        }
        Transform::FocusCategory { category } => {
            text.push_str(Kind::FocusCategory.word())?;
            push_number(text, *category as u64)
        }
        Transform::CollapseResource { filter, resource } => {
            text.push_str(Kind::CollapseResource.word())?;
            push_filter(text, *filter)?;
            push_number(text, *resource as u64)
        }
        Transform::CollapseDirectRecursion { filter, func } => {
            text.push_str(Kind::CollapseDirectRecursion.word())?;
            push_filter(text, *filter)?;
            push_number(text, *func as u64)
        }
        Transform::CollapseRecursion { func } => {
            text.push_str(Kind::CollapseRecursion.word())?;
            push_number(text, *func as u64)
        }
        Transform::CollapseFunctionSubtree { func } => {
            text.push_str(Kind::CollapseFunctionSubtree.word())?;
            push_number(text, *func as u64)
        }
        Transform::FilterSamples { search } => {
            text.push_str(Kind::FilterSamples.word())?;
            push_search(text, search.as_str())
        }
    }
}

/// Puts the text of a list of transforms behind the text.
pub(crate) fn push_transforms(text: &mut Text, list: &[Transform]) -> Result<(), NoMemory>
    ensures { OnOk result (text.new ≡ text.old ++ transforms_text list.now) }
{
    'items: for (i, transform) in list.iter().enumerate() {
        if i > 0 {
            text.push_str("~")?;
        }
        push_transform(text, transform)?;
    }
    Ok(())
}

/// The text of a list of transforms.
pub fn write_transforms(alloc: Global, list: &[Transform]) -> Result<ViewText, NoMemory>
    requires { EachFits HasPath list.now }
    ensures { IfOk result (λ text. text ≡ transforms_text list.now) }
{
    let mut text = Text::new(alloc);
    push_transforms(&mut text, list)?;
    Ok(ViewText::of(text))
}
