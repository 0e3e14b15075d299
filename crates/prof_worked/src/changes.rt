//! Transforms, as tables can hold them.
use prof_io::Text;
use prof_path::{FuncPath, Implementation, Span, SpanList, Transform};
use std::alloc::Global;
use std::test::Fail;

/// A kind of transform with what it names.
#[derive(Clone, Copy)]
pub enum Change {
    Merge(u32),
    MergeNode(Implementation, &'static [u32]),
    Drop(u32),
    Subtree(Implementation, &'static [u32]),
    InvertedSubtree(Implementation, &'static [u32]),
    Focus(u32),
    Category(u32),
    Resource(Implementation, u32),
    DirectRecursion(Implementation, u32),
    Recursion(u32),
    FunctionSubtree(u32),
    Samples(&'static str),
}

pub fn text_of(alloc: Global, text: &str) -> Result<Text, Fail> {
    let mut made = Text::new(alloc);
    made.push_str(text)?;
    Ok(made)
}

pub fn funcs_of(alloc: Global, funcs: &[u32]) -> Result<FuncPath, Fail> {
    let mut path = FuncPath::new(alloc);
    for func in funcs {
        path.push(*func)?;
    }
    Ok(path)
}

fn subtree_of(
    alloc: Global,
    filter: Implementation,
    path: &[u32],
    inverted: bool,
) -> Result<Transform, Fail> {
    let path = funcs_of(alloc, path)?;
    Ok(Transform::FocusSubtree {
        filter,
        path,
        inverted,
    })
}

pub fn transform_of(alloc: Global, change: Change) -> Result<Transform, Fail> {
    Ok(match change {
        Change::Merge(func) => Transform::MergeFunction { func },
        Change::MergeNode(filter, funcs) => Transform::MergeCallNode {
            filter,
            path: funcs_of(alloc, funcs)?,
        },
        Change::Drop(func) => Transform::DropFunction { func },
        Change::Subtree(filter, funcs) => subtree_of(alloc, filter, funcs, false)?,
        Change::InvertedSubtree(filter, funcs) => subtree_of(alloc, filter, funcs, true)?,
        Change::Focus(func) => Transform::FocusFunction { func },
        Change::Category(category) => Transform::FocusCategory { category },
        Change::Resource(filter, resource) => Transform::CollapseResource { filter, resource },
        Change::DirectRecursion(filter, func) => Transform::CollapseDirectRecursion {
            filter,
            func,
        },
        Change::Recursion(func) => Transform::CollapseRecursion { func },
        Change::FunctionSubtree(func) => Transform::CollapseFunctionSubtree { func },
        Change::Samples(search) => Transform::FilterSamples {
            search: text_of(alloc, search)?,
        },
    })
}

/// The interval of a `FilterSamples`, which the second and the third sample lie in; none for the others.
pub fn spans_of(alloc: Global, change: Change) -> Result<SpanList, Fail> {
    let mut spans = SpanList::new(alloc);
    if let Change::Samples(_) = change {
        spans.push(Span {
            start: 1_000_000,
            end: 2_000_000,
        })?;
    }
    Ok(spans)
}
