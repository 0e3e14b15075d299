//! The rows of stacks of which a filter shows the steps.
ghost use Rattle.std.specs.Prelude.{◌≡◌, ◌+◌, ◌^◌, ◌<◌, length, None, IfOk, IfSome, OnOk, slice_index_or};
ghost use Rattle.std.specs.Option.{option_and_then};
ghost use Rattle.prof_layer.specs.Rewritten.{AreRows};
ghost use Rattle.prof_view_tree.specs.Showing.{AreShown, rows_with, out_with};

use prof_path::{Implementation, visible};
use prof_tables::{StackRow, Thread};
use std::alloc::{AllocError, Global};

/// Rows of which each step is shown, and for each row that was there where it went: to a row of its own, or to the next
/// one above that is shown.
#[derive(Drop)]
pub(crate) struct Shown {
    pub(crate) rows: Vec<StackRow>,
    pub(crate) outs: Vec<Option<u32>>,
}

/// Where the prefix of a row went.
fn out_of(outs: &[Option<u32>], prefix: Option<u32>) -> Option<u32>
    requires { IfSome prefix (λ p. p < length outs.now) }
    ensures { result ≡ option_and_then (λ p. slice_index_or outs.now p None) prefix }
{
    match prefix {
        None => None,
        Some(prefix) => outs[prefix as usize],
    }
}

/// Adds a row below another if it is shown, and says where it went.
fn place_row(
    shown: &mut Vec<StackRow>,
    above: Option<u32>,
    row: StackRow,
    is_shown: bool,
) -> Result<Option<u32>, AllocError>
    requires { length shown.old.items < 2 ^ 32 }
    ensures rows { OnOk result (shown.new.items ≡ rows_with is_shown above row shown.old.items) }
    ensures out { IfOk result (λ out. out ≡ out_with is_shown above (length shown.old.items)) }
{
    if !is_shown {
        return Ok(above);
    }
    let place = shown.len() as u32;
    shown.push(StackRow {
        prefix: above,
        ..row
    })?;
    Ok(Some(place))
}

/// The rows without the steps that the filter hides.
pub(crate) fn shown_rows(
    alloc: Global,
    thread: &Thread,
    filter: Implementation,
    rows: &[StackRow],
) -> Result<Shown, AllocError>
    requires rows { AreRows thread.now.shared rows.now }
    requires few { length rows.now < 2 ^ 32 }
    ensures { IfOk result (λ s. AreShown thread.now.shared filter rows.now (length rows.now) s.rows.items s.outs.items) }
{
    let mut shown = Vec::new(alloc);
    let mut outs = Vec::with_capacity(alloc, rows.len())?;
    for row in rows {
        let above = out_of(&outs, row.prefix);
        let is_shown = visible(filter, thread, row.func);
        let out = place_row(&mut shown, above, *row, is_shown)?;
        outs.push(out)?;
    }
    Ok(Shown { rows: shown, outs })
}
