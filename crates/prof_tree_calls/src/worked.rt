//! The worked trees, as tables.
use prof_path::Implementation::{self, Combined, Cpp, Js};
use prof_path::Range;
use prof_worked::{Change, profiles as of};

/// The depth of a node, its function, its total, its self weight and its category.
pub type Row = (u32, u32, i128, i128, u32);

/// What is asked of the first thread of a profile, and the tree that comes of it.
#[derive(Clone, Copy)]
pub struct Worked {
    pub name: &'static str,
    pub text: &'static str,
    pub changes: &'static [Change],
    pub filter: Implementation,
    pub ranges: &'static [Range],
    pub search: &'static str,
    pub inverted: bool,
    pub nodes: &'static [Row],
    pub selected: i128,
    pub dropped: i128,
}

/// All samples by their own paths.
const OPENED: Worked = Worked {
    name: "as opened",
    text: of::P,
    changes: &[],
    filter: Combined,
    ranges: &[],
    search: "",
    inverted: false,
    nodes: &[
        (0, 0, 4, 0, 0),
        (1, 1, 4, 1, 0),
        (2, 2, 3, 1, 0),
        (3, 1, 2, 0, 0),
        (4, 3, 2, 2, 0),
        (0, 3, 1, 1, 0),
    ],
    selected: 6,
    dropped: 1,
};

/// Changes that look at functions and categories.
pub const BY_FUNCTION: &[Worked] = &[
    OPENED,
    Worked {
        name: "without B",
        changes: &[Change::Merge(1)],
        nodes: &[
            (0, 0, 4, 1, 0),
            (1, 2, 3, 1, 0),
            (2, 3, 2, 2, 0),
            (0, 3, 1, 1, 0),
        ],
        ..OPENED
    },
    Worked {
        name: "without any function",
        changes: &[
            Change::Merge(0),
            Change::Merge(1),
            Change::Merge(2),
            Change::Merge(3),
        ],
        nodes: &[],
        dropped: 6,
        ..OPENED
    },
    Worked {
        name: "unless C is met",
        changes: &[Change::Drop(2)],
        nodes: &[(0, 0, 1, 0, 0), (1, 1, 1, 1, 0), (0, 3, 1, 1, 0)],
        dropped: 4,
        ..OPENED
    },
    Worked {
        name: "from B on",
        changes: &[Change::Focus(1)],
        nodes: &[
            (0, 1, 4, 1, 0),
            (1, 2, 3, 1, 0),
            (2, 1, 2, 0, 0),
            (3, 3, 2, 2, 0),
        ],
        dropped: 2,
        ..OPENED
    },
    // Of the children of A B the one with the greater total stands first.
    Worked {
        name: "without the recursion of B",
        changes: &[Change::Recursion(1)],
        nodes: &[
            (0, 0, 4, 0, 0),
            (1, 1, 4, 1, 0),
            (2, 3, 2, 2, 0),
            (2, 2, 1, 1, 0),
            (0, 3, 1, 1, 0),
        ],
        ..OPENED
    },
    Worked {
        name: "up to B",
        changes: &[Change::FunctionSubtree(1)],
        nodes: &[(0, 0, 4, 0, 0), (1, 1, 4, 4, 0), (0, 3, 1, 1, 0)],
        ..OPENED
    },
    // The steps of the collapsed resource differ in category.
    Worked {
        name: "the resource of B and C",
        text: of::Q,
        changes: &[Change::Resource(Combined, 0)],
        nodes: &[(0, 0, 3, 0, 0), (1, 3, 3, 3, 0)],
        selected: 3,
        dropped: 0,
        ..OPENED
    },
    Worked {
        name: "the resource of B and C, of the category of B",
        text: of::Q,
        changes: &[Change::Resource(Combined, 0), Change::Category(1)],
        nodes: &[(0, 3, 1, 1, 1)],
        selected: 3,
        dropped: 2,
        ..OPENED
    },
];

/// Changes that look at the steps that a filter of their own shows.
pub const BY_STEPS: &[Worked] = &[
    Worked {
        name: "from the leaf to B",
        changes: &[Change::InvertedSubtree(Combined, &[3, 1])],
        nodes: &[
            (0, 0, 2, 0, 0),
            (1, 1, 2, 0, 0),
            (2, 2, 2, 0, 0),
            (3, 1, 2, 2, 0),
        ],
        dropped: 4,
        ..OPENED
    },
    // The path of functions ends at the root: of D alone, and of A B C B D.
    Worked {
        name: "from the leaf D",
        changes: &[Change::InvertedSubtree(Combined, &[3])],
        nodes: &[
            (0, 0, 2, 0, 0),
            (1, 1, 2, 0, 0),
            (2, 2, 2, 0, 0),
            (3, 1, 2, 0, 0),
            (4, 3, 2, 2, 0),
            (0, 3, 1, 1, 0),
        ],
        dropped: 3,
        ..OPENED
    },
    Worked {
        name: "from the leaf to the root",
        changes: &[Change::InvertedSubtree(Combined, &[3, 1, 2, 1, 0])],
        nodes: &[(0, 0, 2, 2, 0)],
        dropped: 4,
        ..OPENED
    },
    Worked {
        name: "the resource",
        changes: &[Change::Resource(Combined, 0)],
        nodes: &[
            (0, 0, 4, 0, 0),
            (1, 4, 4, 2, 0),
            (2, 3, 2, 2, 0),
            (0, 3, 1, 1, 0),
        ],
        ..OPENED
    },
    Worked {
        name: "B called by itself",
        changes: &[Change::DirectRecursion(Combined, 1)],
        ..OPENED
    },
    // C is hidden from the change, so that B is called by itself.
    Worked {
        name: "B called by itself, as JavaScript shows it",
        changes: &[Change::DirectRecursion(Js, 1)],
        nodes: &[
            (0, 0, 4, 0, 0),
            (1, 1, 4, 1, 0),
            (2, 2, 3, 1, 0),
            (3, 3, 2, 2, 0),
            (0, 3, 1, 1, 0),
        ],
        ..OPENED
    },
    Worked {
        name: "without the call node A B",
        changes: &[Change::MergeNode(Combined, &[0, 1])],
        nodes: &[
            (0, 0, 4, 1, 0),
            (1, 2, 3, 1, 0),
            (2, 1, 2, 0, 0),
            (3, 3, 2, 2, 0),
            (0, 3, 1, 1, 0),
        ],
        ..OPENED
    },
    Worked {
        name: "from the call node A B C on",
        changes: &[Change::Subtree(Combined, &[0, 1, 2])],
        nodes: &[(0, 2, 3, 1, 0), (1, 1, 2, 0, 0), (2, 3, 2, 2, 0)],
        dropped: 3,
        ..OPENED
    },
];

/// Other views of the same paths.
pub const BY_VIEW: &[Worked] = &[
    Worked {
        name: "inverted",
        inverted: true,
        nodes: &[
            (0, 3, 3, 3, 0),
            (1, 1, 2, 0, 0),
            (2, 2, 2, 0, 0),
            (3, 1, 2, 0, 0),
            (4, 0, 2, 0, 0),
            (0, 1, 1, 1, 0),
            (1, 0, 1, 0, 0),
            (0, 2, 1, 1, 0),
            (1, 1, 1, 0, 0),
            (2, 0, 1, 0, 0),
        ],
        ..OPENED
    },
    // The end of a range is outside.
    Worked {
        name: "in a range",
        ranges: &[Range {
            start: 1_000_000,
            end: 4_000_000,
        }],
        nodes: &[
            (0, 0, 3, 0, 0),
            (1, 1, 3, 1, 0),
            (2, 2, 2, 0, 0),
            (3, 1, 2, 0, 0),
            (4, 3, 2, 2, 0),
        ],
        selected: 3,
        dropped: 0,
        ..OPENED
    },
    Worked {
        name: "in an empty range",
        ranges: &[Range {
            start: 2_000_000,
            end: 2_000_000,
        }],
        nodes: &[],
        selected: 0,
        dropped: 0,
        ..OPENED
    },
    // A sample counts that lies in both.
    Worked {
        name: "in two ranges",
        ranges: &[
            Range {
                start: -5,
                end: 4_000_000,
            },
            Range {
                start: 2_000_000,
                end: 9_000_000,
            },
        ],
        nodes: &[
            (0, 0, 2, 0, 0),
            (1, 1, 2, 1, 0),
            (2, 2, 1, 0, 0),
            (3, 1, 1, 0, 0),
            (4, 3, 1, 1, 0),
        ],
        selected: 2,
        dropped: 0,
        ..OPENED
    },
    // The second and the third sample.
    Worked {
        name: "while a marker lasts",
        changes: &[Change::Samples("gc")],
        nodes: &[
            (0, 0, 2, 0, 0),
            (1, 1, 2, 0, 0),
            (2, 2, 2, 0, 0),
            (3, 1, 2, 0, 0),
            (4, 3, 2, 2, 0),
        ],
        dropped: 4,
        ..OPENED
    },
    Worked {
        name: "JavaScript, where there is none",
        text: of::Q,
        filter: Js,
        nodes: &[],
        selected: 3,
        dropped: 3,
        ..OPENED
    },
    Worked {
        name: "without samples",
        text: of::SEVEN,
        nodes: &[],
        selected: 0,
        dropped: 0,
        ..OPENED
    },
    // The two differ in category.
    Worked {
        name: "two rows of one path",
        text: of::TWICE,
        nodes: &[(0, 0, 5, 5, 0)],
        selected: 5,
        dropped: 0,
        ..OPENED
    },
    Worked {
        name: "weights that cancel each other",
        text: of::BYTES,
        nodes: &[(0, 0, 0, 0, 0)],
        selected: 0,
        dropped: 0,
        ..OPENED
    },
    Worked {
        name: "JavaScript",
        filter: Js,
        nodes: &[(0, 3, 3, 3, 0)],
        dropped: 3,
        ..OPENED
    },
    Worked {
        name: "native code",
        filter: Cpp,
        nodes: &[
            (0, 0, 4, 0, 0),
            (1, 1, 4, 1, 0),
            (2, 2, 3, 1, 0),
            (3, 1, 2, 2, 0),
        ],
        dropped: 2,
        ..OPENED
    },
];

/// All samples of the profile whose functions have files and resources, by their own paths.
const NAMED: Worked = Worked {
    name: "searched",
    text: of::NAMED,
    nodes: &[(0, 0, 3, 1, 0), (1, 1, 2, 2, 0), (0, 2, 1, 1, 0)],
    selected: 5,
    dropped: 1,
    ..OPENED
};

/// What searches find.
pub const BY_SEARCH: &[Worked] = &[
    Worked {
        search: "app",
        nodes: &[
            (0, 0, 4, 0, 0),
            (1, 1, 4, 1, 0),
            (2, 2, 3, 1, 0),
            (3, 1, 2, 0, 0),
            (4, 3, 2, 2, 0),
        ],
        dropped: 2,
        ..OPENED
    },
    Worked {
        search: " app , d,",
        nodes: &[
            (0, 0, 2, 0, 0),
            (1, 1, 2, 0, 0),
            (2, 2, 2, 0, 0),
            (3, 1, 2, 0, 0),
            (4, 3, 2, 2, 0),
        ],
        dropped: 4,
        ..OPENED
    },
    Worked {
        search: ",, \t,",
        ..NAMED
    },
    // A term is met in a name, in a file and in a resource, and not across two of them.
    Worked {
        search: "rUN",
        nodes: &[(0, 0, 3, 1, 0), (1, 1, 2, 2, 0)],
        dropped: 2,
        ..NAMED
    },
    Worked {
        search: ".js",
        nodes: &[(0, 0, 3, 1, 0), (1, 1, 2, 2, 0)],
        dropped: 2,
        ..NAMED
    },
    Worked {
        search: "XUL",
        nodes: &[(0, 0, 2, 0, 0), (1, 1, 2, 2, 0)],
        dropped: 3,
        ..NAMED
    },
    Worked {
        search: "runlib",
        nodes: &[],
        dropped: 5,
        ..NAMED
    },
    // Blanks at the ends of a term go away, and those inside stay.
    Worked {
        search: "\tmain LOOP ",
        nodes: &[(0, 2, 1, 1, 0)],
        dropped: 4,
        ..NAMED
    },
    // Each term has to be met, though in any step.
    Worked {
        search: " wait for,,Run ",
        nodes: &[(0, 0, 2, 0, 0), (1, 1, 2, 2, 0)],
        dropped: 3,
        ..NAMED
    },
    // What the filter hides isn't searched.
    Worked {
        filter: Js,
        search: "xul",
        nodes: &[],
        dropped: 5,
        ..NAMED
    },
    Worked {
        filter: Cpp,
        search: "xul",
        nodes: &[(0, 1, 2, 2, 0)],
        dropped: 3,
        ..NAMED
    },
    // A collapsed resource has the resource's name.
    Worked {
        changes: &[Change::Resource(Combined, 0)],
        search: "xul",
        nodes: &[(0, 0, 2, 0, 0), (1, 3, 2, 2, 0)],
        dropped: 3,
        ..NAMED
    },
    Worked {
        changes: &[Change::Resource(Combined, 0)],
        search: "wait",
        nodes: &[],
        dropped: 5,
        ..NAMED
    },
];
