//! Markers as they stand in a thread.
ghost use Rattle.std.specs.Prelude.{◌≡◌};

use prof_io::Text;
use std::marker::Model;

/// A row of the markers. The name is a place in the strings, the times are in nanoseconds, and `texts` is the start and
/// the end of its range in the list of texts.
#[derive(Clone, Copy, PartialEq, Eq, Debug)]
pub struct RawMarker {
    pub name: u32,
    pub phase: u8,
    pub start: Option<i64>,
    pub end: Option<i64>,
    pub texts: (u32, u32),
}

/// The markers of a thread, in the order of its table, and the texts that their rows have.
#[derive(Drop)]
pub struct RawMarkers {
    pub rows: Vec<RawMarker>,
    pub texts: Vec<Text>,
}

impl Model for RawMarkers {
    ghost use Rattle.prof_tables.specs.Threads.{MarkerRows};

    ghost Value = { MarkerRows };

    ghost view = { λ m. record { rows = m.rows.items; texts = m.texts.items } };
}
