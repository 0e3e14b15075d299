//! The rows of stacks in whose paths the terms of a search occur.
ghost use Rattle.std.specs.Prelude.{◌≡◌, ◌+◌, ◌<◌, ◌||◌, ◌&&◌, ℕ, List, false, true, length, replicate, IfOk, IfSome, Some, slice_get};
ghost use Rattle.std.specs.List.{All};
ghost use Rattle.std.specs.Option.{option_map_or};
ghost use Rattle.prof_tables.specs.declared.rows.StackRow.{StackRow};
ghost use Rattle.prof_tables.specs.Threads.{SharedTables};
ghost use Rattle.prof_tables.specs.Paths.{PrefixesBelow};
ghost use Rattle.prof_path.specs.Finals.{occurs_in};
ghost use Rattle.prof_view_tree.specs.Showing.{AreMet, AreFound, flag_at};

use prof_io::NoMemory;
use prof_path::{TermList, funcs_with};
use prof_tables::{StackRow, Thread};
use std::alloc::{AllocError, Global};

/// Whether a term occurs in a row's step or above it.
fn is_met(met: &[bool], funcs: &[bool], row: StackRow) -> bool
    requires func { row.func < length funcs.now }
    requires prefix { IfSome row.prefix (λ p. p < length met.now) }
    ensures { result ≡ (flag_at funcs.now row.func || option_map_or (flag_at met.now) row.prefix false) }
{
    if funcs[row.func as usize] {
        return true;
    }
    match row.prefix {
        None => false,
        Some(prefix) => met[prefix as usize],
    }
}

/// Of each row, whether a term occurs in its path, where `funcs` says in which functions it occurs.
fn rows_with(alloc: Global, rows: &[StackRow], funcs: &[bool]) -> Result<Vec<bool>, AllocError>
    requires below { PrefixesBelow rows.now }
    requires funcs { All (λ (row : StackRow). row.func < length funcs.now) rows.now }
    ensures { IfOk result (λ met. (t : SharedTables) (term : List ℕ)
        → ((f : ℕ) → f < length funcs.now → slice_get funcs.now f ≡ Some (occurs_in t term f)) → AreMet t term rows.now (length rows.now) met.items) }
{
    let mut met = Vec::with_capacity(alloc, rows.len())?;
    for row in rows {
        met.push(is_met(&met, funcs, *row))?;
    }
    Ok(met)
}

/// Keeps the flags that are set in both lists.
fn keep_both(kept: &mut [bool], met: &[bool])
    requires { length met.now ≡ length kept.old }
    ensures { (r : ℕ) → r < length kept.old → flag_at kept.new r ≡ (flag_at kept.old r && flag_at met.now r) }
{
    for place in 0..kept.len() {
        if !met[place] {
            kept[place] = false;
        }
    }
}

fn all_kept(alloc: Global, count: usize) -> Result<Vec<bool>, AllocError>
    ensures { IfOk result (λ kept. kept.items ≡ replicate count true) }
{
    vec![in alloc; true; count]
}

/// Of each row, whether each term occurs in its path.
pub(crate) fn found_rows(
    alloc: Global,
    thread: &Thread,
    terms: &TermList,
    rows: &[StackRow],
) -> Result<Vec<bool>, NoMemory>
    requires below { PrefixesBelow rows.now }
    requires funcs { All (λ (row : StackRow). row.func < length thread.now.shared.funcs + length thread.now.shared.resources) rows.now }
    ensures { IfOk result (λ kept. AreFound thread.now.shared terms.now rows.now kept.items) }
{
    let mut kept = all_kept(alloc, rows.len())?;
    for term in terms.as_slice() {
        let funcs = funcs_with(alloc, thread, term)?;
        let met = rows_with(alloc, rows, &funcs)?;
        keep_both(&mut kept, &met);
    }
    Ok(kept)
}
