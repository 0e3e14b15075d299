//! The markers of a thread's raw rows.
ghost use Rattle.std.specs.Prelude.{◌≡◌, length, IfOk, All};
ghost use Rattle.prof_marker.specs.Markers.{pair};
ghost use Rattle.prof_marker.specs.Ties.{IsPlaced};

use crate::drafts::Drafts;
use crate::list::MarkerList;
use crate::times::SampleTimes;
use prof_io::NoMemory;
use prof_tables::{RawMarkers, Strings, Thread};
use std::alloc::Global;

/// The markers of a thread, of which `raw` are the rows and `strings` the strings. An end closes the latest open start of
/// its name; what stays unpaired reaches to the thread's first or last sample.
pub fn derive(
    alloc: Global,
    raw: &RawMarkers,
    strings: &Strings,
    samples: &Thread,
) -> Result<MarkerList, NoMemory>
    requires raw { raw.now ≡ samples.now.markers }
    requires strings { strings.now ≡ samples.now.shared.strings }
    ensures list { IfOk result (λ markers. markers ≡ pair samples.now) }
    ensures placed { IfOk result (λ markers. All (IsPlaced (length samples.now.shared.strings) (length samples.now.markers.texts)) markers) }
{
    let times = SampleTimes::of(samples);
    // The thread says of its rows that their names stand in its strings.
    let mut drafts = Drafts::new(alloc, strings, samples.markers().rows.len())?;
    for row in &raw.rows {
        drafts.take_in(strings, times, *row)?;
    }
    Ok(drafts.into_list())
}
