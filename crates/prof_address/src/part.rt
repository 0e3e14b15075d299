//! The parts of a view, and what each says.
ghost use Rattle.std.specs.Prelude.{◌≡◌, ◌<◌};
ghost use Rattle.prof_address.specs.Parts.{part_word, parts_from, place, said_of, place_of, with_said, fresh};

use prof_io::Text;
use prof_path::{Implementation, Range, Transform, View};
use prof_spell::Word;
use std::alloc::Global;

/// The parts that may stand behind a view's thread, in their order.
#[derive(Clone, Copy, Debug, PartialEq, Eq)]
pub enum Part {
    Ranges,
    Implementation,
    Transforms,
    Search,
}

pub const PARTS: [Part; 4] = [
    Part::Ranges,
    Part::Implementation,
    Part::Transforms,
    Part::Search,
];

impl Word for Part {
    ghost word = { part_word };

    fn word(&self) -> &'static str {
        match self {
            Part::Ranges => "&range=",
            Part::Implementation => "&implementation=",
            Part::Transforms => "&transforms=",
            Part::Search => "&search=",
        }
    }
}

/// The parts from a place on.
pub fn parts_from(due: u8) -> &'static [Part]
    ensures { result.now ≡ parts_from due }
{
    match due {
        0 => &PARTS,
        1 => &PARTS[1..],
        2 => &PARTS[2..],
        3 => &PARTS[3..],
        _ => &[],
    }
}

/// What a part says.
#[derive(Drop)]
pub enum Content {
    Ranges(Vec<Range>),
    Implementation(Implementation),
    Transforms(Vec<Transform>),
    Search(Text),
}

impl Content {
    /// The place of its part.
    pub fn place(&self) -> u8
        ensures place { result ≡ place_of (said_of self.now) }
        ensures small { result < 4 }
    {
        match self {
            Content::Ranges(_) => 0,
            Content::Implementation(_) => 1,
            Content::Transforms(_) => 2,
            Content::Search(_) => 3,
        }
    }
}

/// The view of a thread with all else as it is by default.
pub fn fresh(alloc: Global, thread: u32) -> View
    ensures { result ≡ fresh thread }
{
    View {
        thread,
        ranges: Vec::new(alloc),
        transforms: Vec::new(alloc),
        implementation: Implementation::Combined,
        search: Text::new(alloc),
    }
}

/// The view with what a part says.
pub fn with(mut view: View, content: Content) -> View
    ensures { result ≡ with_said view (said_of content) }
{
    match content {
        Content::Ranges(ranges) => view.ranges = ranges,
        Content::Implementation(implementation) => view.implementation = implementation,
        Content::Transforms(transforms) => view.transforms = transforms,
        Content::Search(search) => view.search = search,
    }
    view
}
