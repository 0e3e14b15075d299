//! The samples and markers of a thread, made of checked columns.
ghost use Rattle.std.specs.Prelude.{◌≡◌, ◌<◌, ◌≤◌, length, true, false, IfOk, All, None, [], if◌then◌else◌, unwrap_or, slice_get};
ghost use Rattle.prof_raw.specs.Moments.{sum_below, time_of};
ghost use Rattle.prof_raw.specs.Rules.{range_rule};
ghost use Rattle.prof_tables.specs.Rows.{sample_at, samples_of, marker_at, rows_of, marker_rows_of};
ghost use Rattle.prof_raw.specs.Fits.{FitSamples, FitMarkers};
ghost use Rattle.prof_tables.specs.Ties.{IsSample};

use crate::markers::RawMarker;
use crate::rows::SampleRow;
use crate::samples::{SampleList, add_row};
use prof_io::Text;
use prof_raw::cells::{cell, cell_at, index, maybe_index, phase, weight};
use prof_raw::{CellList, RawColumn, RawOwn, next_sum};
use std::alloc::{AllocError, Global};

/// The time of a row, where `sum` is that of the deltas before it.
fn time_after(sum: i64, deltas: bool, times: &RawColumn, row: usize) -> i64
    requires sum { deltas ≡ true → sum ≡ sum_below times.now.cells row }
    requires fit { range_rule (time_of deltas times.now row) ≡ None }
    ensures { result ≡ time_of deltas times.now row }
{
    let cell = cell_at(&times.values, row);
    if deltas {
        match next_sum(sum, cell) {
            Ok(next) => next,
            Err(_) => unreachable!(),
        }
    } else {
        match cell {
            Some(n) => n,
            None => 0,
        }
    }
}

/// The sample of a row, where `sum` is that of the deltas before it.
#[tactic(auto, using(crate::proofs::RangeLemmas::in_range))]
fn sample_at(stacks: u32, sum: i64, raw: &RawOwn, k: usize) -> SampleRow
    requires fit { FitSamples stacks raw.now }
    requires inside { k < length raw.now.sample_stack.cells }
    requires sum { raw.now.deltas ≡ true → sum ≡ sum_below raw.now.sample_time.cells k }
    ensures row { result ≡ sample_at raw.now k }
    ensures tied { IsSample stacks result }
{
    SampleRow {
        stack: maybe_index(stacks, cell(&raw.sample_stack, k)),
        time: time_after(sum, raw.deltas, &raw.sample_time, k),
        weight: weight(&raw.sample_weight, k),
    }
}

/// The samples that the columns stand for.
#[tactic(auto, unfolding(crate::specs::Rows::samples_of))]
pub(crate) fn samples_of(alloc: Global, count: u32, raw: &RawOwn) -> Result<SampleList, AllocError>
    requires { FitSamples count raw.now }
    ensures rows { IfOk result (λ v. v ≡ samples_of raw.now) }
    ensures count { IfOk result (λ v. length v ≡ length raw.now.sample_stack.cells) }
    ensures tied { IfOk result (λ v. All (IsSample count) v) }
{
    let rows = raw.sample_stack.values.len();
    let mut stacks = Vec::with_capacity(alloc, rows)?;
    let mut times = CellList::new(alloc);
    let mut weights = CellList::new(alloc);
    let mut sum: i64 = 0;
    for k in 0..rows {
        let row = sample_at(count, sum, raw, k);
        add_row(&mut stacks, &mut times, &mut weights, row)?;
        sum = row.time;
    }
    Ok(SampleList {
        stacks,
        times,
        weights,
    })
}

/// The marker of a row.
fn marker_at(strings: u32, raw: &RawOwn, m: usize) -> RawMarker
    requires fit { FitMarkers strings raw.now }
    requires inside { m < length raw.now.marker_phase.cells }
    ensures { result ≡ marker_at raw.now m }
{
    let texts = match raw.marker_ranges.get(m) {
        Some(range) => *range,
        None => (0, 0),
    };
    RawMarker {
        name: index(strings, cell(&raw.marker_name, m)),
        phase: phase(cell(&raw.marker_phase, m)),
        start: cell(&raw.marker_start, m),
        end: cell(&raw.marker_end, m),
        texts,
    }
}

/// The markers of a table that is there.
fn listed_markers(alloc: Global, strings: u32, raw: &RawOwn) -> Result<Vec<RawMarker>, AllocError>
    requires { FitMarkers strings raw.now }
    ensures { IfOk result (λ v.
        v.items ≡ rows_of (marker_at raw.now) (length raw.now.marker_phase.cells)) }
{
    let rows = raw.marker_phase.values.len();
    let mut markers = Vec::with_capacity(alloc, rows)?;
    for m in 0..rows {
        markers.push(marker_at(strings, raw, m))?;
    }
    Ok(markers)
}

/// The texts of the markers, and none without their table.
pub(crate) fn marker_texts_of(alloc: Global, has_markers: bool, texts: Vec<Text>) -> Vec<Text>
    ensures { result.items ≡ (if has_markers then texts.items else []) }
{
    if has_markers { texts } else { Vec::new(alloc) }
}

/// The markers that the columns stand for, and none without their table.
#[tactic(auto, unfolding(crate::specs::Rows::marker_rows_of))]
pub(crate) fn marker_rows_of(
    alloc: Global,
    strings: u32,
    raw: &RawOwn,
) -> Result<Vec<RawMarker>, AllocError>
    requires { raw.now.has_markers ≡ true → FitMarkers strings raw.now }
    ensures { IfOk result (λ v. v.items ≡ marker_rows_of raw.now) }
{
    if raw.has_markers {
        listed_markers(alloc, strings, raw)
    } else {
        Ok(Vec::new(alloc))
    }
}
