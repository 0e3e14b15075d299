//! Markers, and the list of a thread's markers.
ghost use Rattle.std.specs.Prelude.{◌≡◌, ◌∷◌, ◌++◌, [], IfOk, OnOk, OnErr};

use prof_io::NoMemory;
use std::alloc::Global;
use std::marker::Model;

/// A marker: its name's place in the strings, its times in nanoseconds, and two ranges of the thread's list of marker
/// texts, that of its row and that of the end that closed it, `(0, 0)` where there is none.
#[derive(Clone, Copy, Debug, PartialEq, Eq)]
pub struct Marker {
    pub name: u32,
    pub start: i64,
    pub end: i64,
    pub texts: (u32, u32),
    pub more: (u32, u32),
}

/// Markers in order.
#[derive(Drop)]
pub struct MarkerList {
    markers: Vec<Marker>,
}

impl Model for MarkerList {
    ghost use Rattle.std.specs.Prelude.{List};
    ghost use Rattle.prof_marker.specs.declared.list.Marker.{Marker};

    ghost Value = { List Marker };

    ghost view = { λ a. a.markers.items };
}

impl MarkerList {
    pub fn new(alloc: Global) -> Self
        ensures { result ≡ [] }
    {
        MarkerList {
            markers: Vec::new(alloc),
        }
    }

    pub fn push(&mut self, item: Marker) -> Result<(), NoMemory>
        ensures ok { OnOk result (self.new ≡ self.old ++ item ∷ []) }
        ensures err { OnErr result (self.new ≡ self.old) }
    {
        self.markers.push(item)?;
        Ok(())
    }

    pub fn as_slice(&self) -> &[Marker]
        ensures { result.now ≡ self.now }
    {
        self.markers.as_slice()
    }

    pub fn copy(&self, alloc: Global) -> Result<Self, NoMemory>
        ensures { IfOk result (λ list. list ≡ self.now) }
    {
        let markers = Vec::from_slice(alloc, self.markers.as_slice())?;
        Ok(MarkerList { markers })
    }

    /// The list of these markers.
    pub(crate) fn of(markers: Vec<Marker>) -> Self
        ensures { result ≡ markers.items }
    {
        MarkerList { markers }
    }
}
