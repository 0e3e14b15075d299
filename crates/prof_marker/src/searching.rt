//! The markers that a search finds.
ghost use Rattle.std.specs.Prelude.{◌≡◌, ◌<◌, length, All, IfOk};
ghost use Rattle.prof_marker.specs.Markers.{pair};
ghost use Rattle.prof_marker.specs.Found.{found, span_of, spans};

use crate::list::{Marker, MarkerList};
use crate::seeker::finds;
use prof_io::NoMemory;
use prof_path::{Range, Seeker, Span, SpanList, TermList, terms};
use prof_tables::Thread;
use std::alloc::Global;

/// The places of the markers that overlap every range and that a search of these terms finds, in order. Without terms each
/// marker is found, and else each that has a term in its name or in one of its texts, whatever the case of ASCII letters.
pub fn search(
    alloc: Global,
    markers: &MarkerList,
    thread: &Thread,
    terms: &TermList,
    ranges: &[Range],
) -> Result<Vec<u32>, NoMemory>
    requires { markers.now ≡ pair thread.now }
    ensures places { IfOk result (λ v. v.items ≡ found thread.now terms.now ranges.now markers.now) }
    ensures within { IfOk result (λ v. All (λ place. place < length markers.now) v.items) }
{
    let strings = thread.strings();
    let texts = thread.markers().texts.as_slice();
    let mut seeker = Seeker::new(alloc, strings, terms)?;
    let mut places = Vec::new(alloc);
    for (place, marker) in markers.as_slice().iter().enumerate() {
        if finds(&mut seeker, strings, texts, *marker, ranges)? {
            places.push(place as u32)?;
        }
    }
    Ok(places)
}

/// The interval of a marker.
fn span_of(marker: Marker) -> Span
    ensures { result ≡ span_of marker }
{
    Span {
        start: marker.start,
        end: marker.end,
    }
}

/// The intervals of the markers that a search finds, in order.
pub fn spans(
    alloc: Global,
    markers: &MarkerList,
    thread: &Thread,
    search: &str,
) -> Result<SpanList, NoMemory>
    requires { markers.now ≡ pair thread.now }
    ensures { IfOk result (λ list. list ≡ spans thread.now search.now markers.now) }
{
    let strings = thread.strings();
    let texts = thread.markers().texts.as_slice();
    let terms = terms(alloc, search)?;
    let mut seeker = Seeker::new(alloc, strings, &terms)?;
    let mut list = SpanList::new(alloc);
    for marker in markers.as_slice() {
        if finds(&mut seeker, strings, texts, *marker, &[])? {
            list.push(span_of(*marker))?;
        }
    }
    Ok(list)
}
