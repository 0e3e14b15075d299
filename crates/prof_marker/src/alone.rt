//! The marker of a row by itself.
ghost use Rattle.std.specs.Prelude.{◌≡◌, ℤ};
ghost use Rattle.prof_marker.specs.Markers.{spanning, instant, interval, unended, unstarted};
ghost use Rattle.prof_raw.specs.CellValues.{number_of};

use crate::list::Marker;
use crate::times::SampleTimes;
use prof_tables::RawMarker;

/// A time that stands in a row, and 0 where none does.
pub fn time_of(time: Option<i64>) -> i64
    ensures { result ≡ number_of time }
{
    match time {
        Some(time) => time,
        None => 0,
    }
}

fn spanning(row: RawMarker, start: i64, end: i64) -> Marker
    ensures { result ≡ spanning row start end }
{
    Marker {
        name: row.name,
        start,
        end,
        texts: row.texts,
        more: (0, 0),
    }
}

pub fn instant(row: RawMarker) -> Marker
    ensures { result ≡ (instant row).marker }
{
    let start = time_of(row.start);
    spanning(row, start, start)
}

pub fn interval(row: RawMarker) -> Marker
    ensures { result ≡ (interval row).marker }
{
    spanning(row, time_of(row.start), time_of(row.end))
}

/// A start without an end.
pub fn unended(times: SampleTimes, row: RawMarker) -> Marker
    ensures { result ≡ (unended times.last row).marker }
{
    let start = time_of(row.start);
    spanning(row, start, times.end_after(start))
}

/// An end without a start.
pub fn unstarted(times: SampleTimes, row: RawMarker) -> Marker
    ensures { result ≡ (unstarted times.first row).marker }
{
    let end = time_of(row.end);
    spanning(row, times.start_before(end), end)
}
