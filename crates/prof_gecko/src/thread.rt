//! The thread that a Gecko thread stands for.
ghost use Rattle.std.specs.Prelude.{◌≡◌, ◌<◌, None, Some, length, All};
ghost use Rattle.prof_raw.specs.Checks.{thread_broken};
ghost use Rattle.prof_tables.specs.Builds.{Builds};
ghost use Rattle.prof_tables.specs.Rows.{shared_of, thread_of};
ghost use Rattle.prof_tables.specs.Ties.{IsPart};
ghost use Rattle.prof_gecko.specs.Columns.{shift_of};
ghost use Rattle.prof_gecko.specs.Checks.{columns_broken, limits_broken, parts_broken, gecko_thread_broken};
ghost use Rattle.prof_gecko.specs.Converted.{lists_in, shared_cells, thread_in, gecko_thread};
ghost use Rattle.prof_gecko.specs.Processes.{ThreadHasRanges};

use crate::check::{check_columns, check_limits};
use crate::columns::{FrameColumns, StackColumns, ThreadColumns};
use crate::derived::Derived;
use crate::gathered::GeckoThread;
use crate::shared::shared_columns;
use crate::shift::Shift;
use prof_gecko_names::Lib;
use prof_raw::{RawColumn, RawOwn};
use prof_tables::{BuildRefusal, Thread};
use std::alloc::Global;

/// What all threads of a profile share: the number of its categories, its default, and the start of the root.
#[derive(Clone, Copy)]
pub(crate) struct Common {
    pub(crate) categories: u32,
    pub(crate) default: u32,
    pub(crate) root: i64,
}

/// The thread of what was derived and of the columns that stay, or the first rule that it breaks.
fn build_derived(
    alloc: Global,
    common: Common,
    derived: Derived,
    category: RawColumn,
    stacks: StackColumns,
    own: RawOwn,
    number: u32,
) -> Result<Thread, BuildRefusal>
    requires default { common.default < common.categories }
    requires ranges { All (IsPart (length own.marker_texts)) own.marker_ranges }
    ensures { let shared = shared_cells derived.lists derived.numbers.items category stacks in
        Builds (λ t. t) result
        (thread_broken number common.categories (record { shared = shared; own = own }))
        (thread_of (shared_of common.categories common.default shared) own) }
{
    let shared = shared_columns(alloc, derived, category, stacks)?;
    Thread::build_parts(
        alloc,
        shared,
        own,
        number,
        common.categories,
        common.default,
    )
}

/// The thread of checked columns, or the first limit that its derived lists break.
fn build_checked(
    alloc: Global,
    common: Common,
    libs: &[Lib],
    columns: ThreadColumns,
    number: u32,
) -> Result<Thread, BuildRefusal>
    requires default { common.default < common.categories }
    requires ranges { All (IsPart (length columns.own.marker_texts)) columns.own.marker_ranges }
    requires checked { columns_broken (Some number) common.categories columns ≡ None }
    ensures { Builds (λ t. t) result
        (limits_broken (Some number) (lists_in libs.now columns.strings columns.frames))
        (thread_in common.categories common.default libs.now columns) }
{
    let ThreadColumns {
        strings,
        frames,
        stacks,
        own,
        ..
    } = columns;
    let derived = Derived::of(alloc, libs, strings, &frames)?;
    check_limits(Some(number), &derived.lists)?;
    let FrameColumns { category, .. } = frames;
    build_derived(alloc, common, derived, category, stacks, own, number)
}

/// The thread of columns of a process with these libraries, or the first rule that they break.
fn build_columns(
    alloc: Global,
    common: Common,
    libs: &[Lib],
    columns: ThreadColumns,
    number: u32,
) -> Result<Thread, BuildRefusal>
    requires default { common.default < common.categories }
    requires ranges { All (IsPart (length columns.own.marker_texts)) columns.own.marker_ranges }
    ensures { Builds (λ t. t) result
        (parts_broken number common.categories libs.now columns)
        (thread_in common.categories common.default libs.now columns) }
{
    check_columns(Some(number), common.categories, &columns)?;
    build_checked(alloc, common, libs, columns, number)
}

/// The thread of a process with these libraries, whose times are moved, or the first rule that it breaks.
pub(crate) fn build_thread(
    alloc: Global,
    common: Common,
    shift: Shift,
    libs: &[Lib],
    thread: GeckoThread,
    number: u32,
) -> Result<Thread, BuildRefusal>
    requires default { common.default < common.categories }
    requires ranges { ThreadHasRanges thread }
    ensures { Builds (λ t. t) result
        (gecko_thread_broken number common.categories libs.now (shift_of shift) thread)
        (gecko_thread common.categories common.default libs.now (shift_of shift) thread) }
{
    let columns = ThreadColumns::of(alloc, shift, thread)?;
    build_columns(alloc, common, libs, columns, number)
}
