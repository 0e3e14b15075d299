//! The texts of transforms, read.
ghost use Rattle.std.specs.Prelude.{◌<◌};
ghost use Rattle.prof_spell.specs.Spelling.{Reads};
ghost use Rattle.prof_address.specs.Readings.{ReadsWhole};
ghost use Rattle.prof_address.specs.Transforms.{transforms, some_transforms, transform_lists, u32s, paths, filters, ends, counted, nodes, focuses, arguments, result_items};

use crate::kind::{FILTERS, Form, Kind};
use crate::refusal::TextRefusal;
use prof_path::{FuncPath, Implementation, Transform};
use prof_spell::{Cursor, Stop};
use std::alloc::Global;

/// The number of a function, a resource, a category or a thread.
pub(crate) fn number(cursor: &mut Cursor<'_>) -> Result<u32, Stop>
    ensures { Reads u32s cursor.old result cursor.new }
{
    match cursor.number(u32::MAX as u64) {
        Ok(n) => Ok(n as u32),
        Err(stop) => Err(stop),
    }
}

/// The functions of a path.
fn path(alloc: Global, cursor: &mut Cursor<'_>) -> Result<FuncPath, Stop>
    ensures { Reads paths cursor.old result cursor.new }
{
    let mut path = FuncPath::new(alloc);
    'funcs: loop {
        let func = match number(cursor) {
            Ok(func) => func,
            Err(stop) => return Err(stop),
        };
        match path.push(func) {
            Ok(()) => {}
            Err(_) => return Err(Stop::NoMemory),
        }
        if !cursor.takes(b'.') {
            return Ok(path);
        }
    }
}

/// A filter, and the dash behind it.
fn filter(cursor: &mut Cursor<'_>) -> Result<Implementation, Stop>
    ensures { Reads filters cursor.old result cursor.new }
{
    let filter = match cursor.one_of(&FILTERS) {
        Ok(filter) => filter,
        Err(stop) => return Err(stop),
    };
    match cursor.literal("-") {
        Ok(()) => Ok(filter.0),
        Err(stop) => Err(stop),
    }
}

/// A filter and a number.
fn counted(cursor: &mut Cursor<'_>) -> Result<(Implementation, u32), Stop>
    ensures { Reads counted cursor.old result cursor.new }
{
    let filter = match filter(cursor) {
        Ok(filter) => filter,
        Err(stop) => return Err(stop),
    };
    match number(cursor) {
        Ok(n) => Ok((filter, n)),
        Err(stop) => Err(stop),
    }
}

/// A filter and a path.
fn node(alloc: Global, cursor: &mut Cursor<'_>) -> Result<(Implementation, FuncPath), Stop>
    ensures { Reads nodes cursor.old result cursor.new }
{
    let filter = match filter(cursor) {
        Ok(filter) => filter,
        Err(stop) => return Err(stop),
    };
    match path(alloc, cursor) {
        Ok(path) => Ok((filter, path)),
        Err(stop) => Err(stop),
    }
}

/// The end of a focus: whether it is inverted.
fn end(cursor: &mut Cursor<'_>) -> Result<bool, Stop>
    ensures { Reads ends cursor.old result cursor.new }
{
    if !cursor.takes(b'-') {
        return Ok(false);
    }
    match cursor.literal("i") {
        Ok(()) => Ok(true),
        Err(stop) => Err(stop),
    }
}

/// A filter, a path, and the end of a focus.
fn focus(alloc: Global, cursor: &mut Cursor<'_>) -> Result<(Implementation, FuncPath, bool), Stop>
    ensures { Reads focuses cursor.old result cursor.new }
{
    let filter = match filter(cursor) {
        Ok(filter) => filter,
        Err(stop) => return Err(stop),
    };
    let path = match path(alloc, cursor) {
        Ok(path) => path,
        Err(stop) => return Err(stop),
    };
    match end(cursor) {
        Ok(inverted) => Ok((filter, path, inverted)),
        Err(stop) => Err(stop),
    }
}

/// What stands behind the word of a kind.
fn arguments(alloc: Global, kind: Kind, cursor: &mut Cursor<'_>) -> Result<Transform, Stop>
    ensures { Reads (arguments kind) cursor.old result cursor.new }
{
    match kind {
        Kind::MergeFunction => match number(cursor) {
            Ok(func) => Ok(Transform::MergeFunction { func }),
            Err(stop) => Err(stop),
        },
        Kind::MergeCallNode => match node(alloc, cursor) {
            Ok((filter, path)) => Ok(Transform::MergeCallNode { filter, path }),
            Err(stop) => Err(stop),
        },
        Kind::DropFunction => match number(cursor) {
            Ok(func) => Ok(Transform::DropFunction { func }),
            Err(stop) => Err(stop),
        },
        Kind::FocusSubtree => match focus(alloc, cursor) {
            Ok((filter, path, inverted)) => Ok(Transform::FocusSubtree {
                filter,
                path,
                inverted,
            }),
            Err(stop) => Err(stop),
        },
        Kind::FocusFunction => match number(cursor) {
            Ok(func) => Ok(Transform::FocusFunction { func }),
            Err(stop) => Err(stop),
        },
        Kind::FocusCategory => match number(cursor) {
            Ok(category) => Ok(Transform::FocusCategory { category }),
            Err(stop) => Err(stop),
        },
        Kind::CollapseResource => match counted(cursor) {
            Ok((filter, resource)) => Ok(Transform::CollapseResource { filter, resource }),
            Err(stop) => Err(stop),
        },
        Kind::CollapseDirectRecursion => match counted(cursor) {
            Ok((filter, func)) => Ok(Transform::CollapseDirectRecursion { filter, func }),
            Err(stop) => Err(stop),
        },
        Kind::CollapseRecursion => match number(cursor) {
            Ok(func) => Ok(Transform::CollapseRecursion { func }),
            Err(stop) => Err(stop),
        },
        Kind::CollapseFunctionSubtree => match number(cursor) {
            Ok(func) => Ok(Transform::CollapseFunctionSubtree { func }),
            Err(stop) => Err(stop),
        },
        Kind::FilterSamples => match cursor.search(alloc) {
            Ok(search) => Ok(Transform::FilterSamples { search }),
            Err(stop) => Err(stop),
        },
    }
}

/// One transform.
pub fn next_transform(alloc: Global, form: Form, cursor: &mut Cursor<'_>) -> Result<Transform, Stop>
    ensures { Reads (transforms form) cursor.old result cursor.new }
{
    let kind = match cursor.one_of(form.kinds()) {
        Ok(kind) => kind,
        Err(stop) => return Err(stop),
    };
    arguments(alloc, kind, cursor)
}

/// One transform or more.
pub(crate) fn some_transforms(
    alloc: Global,
    form: Form,
    cursor: &mut Cursor<'_>,
) -> Result<Vec<Transform>, Stop>
    ensures { Reads (some_transforms form) cursor.old (result_items result) cursor.new }
{
    let mut list = Vec::new(alloc);
    'items: loop {
        let item = match next_transform(alloc, form, cursor) {
            Ok(item) => item,
            Err(stop) => return Err(stop),
        };
        match list.push(item) {
            Ok(()) => {}
            Err(_) => return Err(Stop::NoMemory),
        }
        if !cursor.takes(b'~') {
            return Ok(list);
        }
    }
}

/// The transforms of a text.
pub fn read_transforms(alloc: Global, text: &str) -> Result<Vec<Transform>, TextRefusal>
    ensures { ReadsWhole (transform_lists Form.Second) text.now (result_items result) }
{
    if text.is_empty() {
        return Ok(Vec::new(alloc));
    }
    let mut cursor = Cursor::new(text.as_bytes());
    match some_transforms(alloc, Form::Second, &mut cursor) {
        Ok(list) => {
            if cursor.len() == 0 {
                return Ok(list);
            }
            Err(TextRefusal::BadAddress {
                at: (text.len() - cursor.len()) as u64,
            })
        }
        Err(Stop::Fault) => Err(TextRefusal::BadAddress {
            at: (text.len() - cursor.len()) as u64,
        }),
        Err(Stop::NoMemory) => Err(TextRefusal::NoMemory),
    }
}
