//! What a view says of the paths that it shows.
ghost use Rattle.std.specs.Prelude.{◌≡◌, IfOk};

use crate::lists::FuncPath;
use prof_io::{NoMemory, Text};
use std::alloc::Global;
use std::marker::Model;

/// Which functions are shown.
#[derive(Clone, Copy, Debug, PartialEq, Eq)]
pub enum Implementation {
    Combined,
    Js,
    Cpp,
}

/// The times from `start` on and before `end`, in nanoseconds.
#[derive(Clone, Copy, Debug, PartialEq, Eq)]
pub struct Range {
    pub start: i64,
    pub end: i64,
}

/// A rewriting of paths. A `filter` says which steps are shown to it.
#[derive(Drop)]
pub enum Transform {
    MergeFunction {
        func: u32,
    },
    MergeCallNode {
        filter: Implementation,
        path: FuncPath,
    },
    DropFunction {
        func: u32,
    },
    FocusSubtree {
        filter: Implementation,
        path: FuncPath,
        inverted: bool,
    },
    FocusFunction {
        func: u32,
    },
    FocusCategory {
        category: u32,
    },
    CollapseResource {
        filter: Implementation,
        resource: u32,
    },
    CollapseDirectRecursion {
        filter: Implementation,
        func: u32,
    },
    CollapseRecursion {
        func: u32,
    },
    CollapseFunctionSubtree {
        func: u32,
    },
    FilterSamples {
        search: Text,
    },
}

impl Transform {
    pub fn copy(&self, alloc: Global) -> Result<Self, NoMemory>
        ensures { IfOk result (λ t. t ≡ self.now) }
    {
        Ok(match self {
            Transform::MergeFunction { func } => Transform::MergeFunction { func: *func },
            Transform::MergeCallNode { filter, path } => Transform::MergeCallNode {
                filter: *filter,
                path: path.copy(alloc)?,
            },
            Transform::DropFunction { func } => Transform::DropFunction { func: *func },
            Transform::FocusSubtree {
                filter,
                path,
                inverted,
            } => Transform::FocusSubtree {
                filter: *filter,
                path: path.copy(alloc)?,
                inverted: *inverted,
            },
            Transform::FocusFunction { func } => Transform::FocusFunction { func: *func },
            Transform::FocusCategory { category } => Transform::FocusCategory {
                category: *category,
            },
            Transform::CollapseResource { filter, resource } => Transform::CollapseResource {
                filter: *filter,
                resource: *resource,
            },
            Transform::CollapseDirectRecursion { filter, func } =>
                Transform::CollapseDirectRecursion {
                    filter: *filter,
                    func: *func,
                },
            Transform::CollapseRecursion { func } => Transform::CollapseRecursion { func: *func },
            Transform::CollapseFunctionSubtree { func } => Transform::CollapseFunctionSubtree {
                func: *func,
            },
            Transform::FilterSamples { search } => Transform::FilterSamples {
                search: search.copy(alloc)?,
            },
        })
    }
}

/// What of a thread is looked at: the samples in every range, their paths rewritten by the transforms in order, and of
/// these the steps that the implementation shows, where the search is found.
#[derive(Drop)]
pub struct View {
    pub thread: u32,
    pub ranges: Vec<Range>,
    pub transforms: Vec<Transform>,
    pub implementation: Implementation,
    pub search: Text,
}

impl Model for View {
    ghost use Rattle.prof_path.specs.Views.{ViewLists};

    ghost Value = { ViewLists };

    ghost view = { λ v. record { thread = v.thread; ranges = v.ranges.items; transforms = v.transforms.items; implementation = v.implementation; search = v.search } };
}

impl View {
    pub fn copy(&self, alloc: Global) -> Result<Self, NoMemory>
        ensures { IfOk result (λ v. v ≡ self.now) }
    {
        let mut transforms = Vec::new(alloc);
        for transform in &self.transforms {
            transforms.push(transform.copy(alloc)?)?;
        }
        Ok(View {
            thread: self.thread,
            ranges: Vec::from_slice(alloc, self.ranges.as_slice())?,
            transforms,
            implementation: self.implementation,
            search: self.search.copy(alloc)?,
        })
    }
}
