//! When the samples of a thread begin and end.
ghost use Rattle.std.specs.Prelude.{◌≡◌, ℤ};
ghost use Rattle.std.specs.Int.{int_min, int_max};
ghost use Rattle.std.specs.Option.{option_map_or};
ghost use Rattle.prof_marker.specs.Markers.{first_time, last_time};

use prof_tables::Thread;

/// The times of the first and of the last sample row.
#[derive(Clone, Copy)]
pub struct SampleTimes {
    pub first: Option<i64>,
    pub last: Option<i64>,
}

impl SampleTimes {
    pub fn of(thread: &Thread) -> Self
        ensures first { result.first ≡ first_time thread.now.samples }
        ensures last { result.last ≡ last_time thread.now.samples }
    {
        let count = thread.sample_count();
        if count == 0 {
            return SampleTimes {
                first: None,
                last: None,
            };
        }
        SampleTimes {
            first: Some(thread.sample(0).time),
            last: Some(thread.sample(count - 1).time),
        }
    }

    /// Where an interval begins of which only the end is known.
    pub fn start_before(self, end: i64) -> i64
        ensures { result ≡ option_map_or (int_min end) self.first end }
    {
        match self.first {
            Some(first) => end.min(first),
            None => end,
        }
    }

    /// Where an interval ends of which only the start is known.
    pub fn end_after(self, start: i64) -> i64
        ensures { result ≡ option_map_or (int_max start) self.last start }
    {
        match self.last {
            Some(last) => start.max(last),
            None => start,
        }
    }
}
