//! What the samples of a view weigh, added up by the rows of their final paths.
ghost use Rattle.std.specs.Prelude.{◌≡◌, ◌*◌, ◌≤◌, ◌<◌, ◌+◌, ◌^◌, ℕ, List, Some, length, IfOk, slice_get};
ghost use Rattle.std.specs.List.{list_all};
ghost use Rattle.prof_tables.specs.declared.rows.SampleRow.{SampleRow};
ghost use Rattle.prof_path.specs.declared.transform.Implementation.{Implementation};
ghost use Rattle.prof_path.specs.Terms.{terms_of};
ghost use Rattle.prof_layer.specs.Rewritten.{IsRowOf};
ghost use Rattle.prof_view_tree.specs.Showing.{AreViewed, final_of};
ghost use Rattle.prof_view_tree.specs.Sprouting.{AreWeighed};
ghost use Rattle.prof_view_tree.specs.Views.{is_within, finals};
ghost use Rattle.prof_view_tree.specs.Weighing.{Weighs};

use crate::finding::found_rows;
use crate::own::rows_of;
use crate::showing::{Shown, shown_rows};
use crate::weighing::SampleWeights;
use prof_io::{NoMemory, Steps};
use prof_layer::Layers;
use prof_path::{Range, View, terms};
use prof_tables::StackRow;
use std::alloc::{AllocError, Global};
use std::sync::ledger::Ledger;

/// The rows of which a view shows the steps, where the rows of the top went among them, and whether the view's search
/// finds each.
#[derive(Drop)]
struct Viewed {
    shown: Shown,
    kept: Vec<bool>,
}

/// The rows that a view shows, out of the top of the layers, each row of which is read once.
fn viewed_rows<L: Ledger>(
    alloc: Global,
    layers: &Layers,
    view: &View,
    reads: &mut Steps<L>,
) -> Result<Viewed, NoMemory>
    ensures viewed { IfOk result (λ v. AreViewed layers.now.base.shared view.now.implementation (terms_of view.now.search) layers.now.top v.shown.rows.items v.shown.outs.items v.kept.items) }
    ensures few { IfOk result (λ v. length v.shown.rows.items < 2 ^ 32) }
    ensures once { reads.new ≤ reads.old + length layers.now.top }
{
    let rows = rows_of(alloc, layers.top(), reads)?;
    let shown = shown_rows(alloc, layers.base(), view.implementation, &rows)?;
    let terms = terms(alloc, view.search.as_str())?;
    let kept = found_rows(alloc, layers.base(), &terms, &shown.rows)?;
    Ok(Viewed { shown, kept })
}

/// Whether a moment lies in a range.
fn is_within(time: i64, range: Range) -> bool
    ensures { result ≡ is_within time range }
{
    range.start <= time && time < range.end
}

/// Whether a moment lies in every range.
fn is_selected(time: i64, ranges: &[Range]) -> bool
    ensures { result ≡ list_all (is_within time) ranges.now }
{
    ranges.iter().all(|range| is_within(time, *range))
}

/// The row of a sample's final path, none where that is empty.
fn final_row(layers: &Layers, viewed: &Viewed, k: u32) -> Option<u32>
    requires sample { k < length layers.now.base.samples }
    requires viewed { (i : Implementation) × (terms : List (List ℕ)) × AreViewed layers.now.base.shared i terms layers.now.top viewed.now.shown.rows.items viewed.now.shown.outs.items viewed.now.kept.items }
    ensures { (i : Implementation) (terms : List (List ℕ)) (s : SampleRow) → AreViewed layers.now.base.shared i terms layers.now.top viewed.now.shown.rows.items viewed.now.shown.outs.items viewed.now.kept.items
        → slice_get layers.now.base.samples k ≡ Some s → IsRowOf viewed.now.shown.rows.items result (final_of layers.now i terms s) }
{
    let row = layers.row_of_sample(k)?;
    let out = viewed.shown.outs[row as usize]?;
    if viewed.kept[out as usize] {
        Some(out)
    } else {
        None
    }
}

/// The weights of the samples in every range of a view, by the rows of their final paths.
fn weights_in(
    alloc: Global,
    layers: &Layers,
    view: &View,
    viewed: &Viewed,
) -> Result<SampleWeights, AllocError>
    requires settled { layers.now.settled ≡ view.now.transforms }
    requires viewed { AreViewed layers.now.base.shared view.now.implementation (terms_of view.now.search) layers.now.top viewed.now.shown.rows.items viewed.now.shown.outs.items viewed.now.kept.items }
    ensures weighs { IfOk result (λ w. Weighs viewed.now.shown.rows.items (finals layers.now.base view.now layers.now.spans) w) }
    ensures few { IfOk result (λ _. length (finals layers.now.base view.now layers.now.spans) ≤ 8388608) }
{
    let base = layers.base();
    let mut weights = SampleWeights::none(alloc, viewed.shown.rows.len())?;
    for k in 0..base.sample_count() {
        let sample = base.sample(k);
        if is_selected(sample.time, &view.ranges) {
            weights.add(final_row(layers, viewed, k), sample.weight);
        }
    }
    Ok(weights)
}

/// Rows of stacks, and what the samples on them weigh.
#[derive(Drop)]
pub(crate) struct Weighted {
    pub(crate) rows: Vec<StackRow>,
    pub(crate) weights: SampleWeights,
}

/// The rows of the final paths of a view's samples, and the weights of these, out of the layers. Each row of the top is
/// read once.
pub(crate) fn weighted_rows<L: Ledger>(
    alloc: Global,
    layers: &Layers,
    view: &View,
    reads: &mut Steps<L>,
) -> Result<Weighted, NoMemory>
    requires { layers.now.settled ≡ view.now.transforms }
    ensures weighs { IfOk result (λ w. Weighs w.rows.items (finals layers.now.base view.now layers.now.spans) w.weights) }
    ensures weighed { IfOk result (λ w. AreWeighed w.rows.items w.weights.by_row.items) }
    ensures once { reads.new ≤ reads.old + length layers.now.top }
{
    let viewed = viewed_rows(alloc, layers, view, reads)?;
    let weights = weights_in(alloc, layers, view, &viewed)?;
    let Viewed { shown, kept: _kept } = viewed;
    let Shown { rows, outs: _outs } = shown;
    Ok(Weighted { rows, weights })
}
