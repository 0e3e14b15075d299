//! What a view needs of its thread's markers, and shows of them.
ghost use Rattle.std.specs.Prelude.{◌≡◌, ◌<◌, length, map, All, IfOk};
ghost use Rattle.prof_marker.specs.declared.list.Marker.{Marker};
ghost use Rattle.prof_marker.specs.Markers.{pair};
ghost use Rattle.prof_machine.specs.Known.{intervals, marker_at, markers_of};

use prof_io::NoMemory;
use prof_marker::{Marker, MarkerList, derive, search, spans};
use prof_path::{SpanList, Transform, View, terms};
use prof_tables::Thread;
use std::alloc::Global;

/// The markers of a thread.
fn markers_in(alloc: Global, thread: &Thread) -> Result<MarkerList, NoMemory>
    ensures list { IfOk result (λ list. list ≡ pair thread.now) }
    ensures names { IfOk result (λ list. All (λ (m : Marker). m.name < length thread.now.shared.strings) list) }
{
    derive(alloc, thread.markers(), thread.strings(), thread)
}

/// The intervals in which a transform keeps samples.
fn intervals(alloc: Global, thread: &Thread, t: &Transform) -> Result<SpanList, NoMemory>
    ensures { IfOk result (λ list. list ≡ intervals thread.now t.now) }
{
    match t {
        Transform::FilterSamples { search } => {
            let markers = markers_in(alloc, thread)?;
            spans(alloc, &markers, thread, search.as_str())
        }
        _ => Ok(SpanList::new(alloc)),
    }
}

/// The intervals of each transform.
pub fn intervals_of(
    alloc: Global,
    thread: &Thread,
    transforms: &[Transform],
) -> Result<Vec<SpanList>, NoMemory>
    ensures { IfOk result (λ lists. lists.items ≡ map (intervals thread.now) transforms.now) }
{
    let mut lists = Vec::new(alloc);
    for t in transforms {
        lists.push(intervals(alloc, thread, t)?)?;
    }
    Ok(lists)
}

/// The markers at these places.
fn picked(alloc: Global, markers: &[Marker], places: &[u32]) -> Result<MarkerList, NoMemory>
    requires { All (λ k. k < length markers.now) places.now }
    ensures { IfOk result (λ list. list ≡ map (marker_at markers.now) places.now) }
{
    let mut list = MarkerList::new(alloc);
    for place in places {
        list.push(markers[*place as usize])?;
    }
    Ok(list)
}

/// The markers of a view's thread that a search finds and that overlap every range of the view.
pub fn markers_of(
    alloc: Global,
    thread: &Thread,
    view: &View,
    text: &str,
) -> Result<MarkerList, NoMemory>
    ensures list { IfOk result (λ list. list ≡ markers_of thread.now view.now text.now) }
    ensures names { IfOk result (λ list. All (λ (m : Marker). m.name < length thread.now.shared.strings) list) }
{
    let markers = markers_in(alloc, thread)?;
    let terms = terms(alloc, text)?;
    let places = search(alloc, &markers, thread, &terms, &view.ranges)?;
    picked(alloc, markers.as_slice(), &places)
}
