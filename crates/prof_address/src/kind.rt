//! The words of transforms and filters.
ghost use Rattle.std.specs.Prelude.{◌≡◌};
ghost use Rattle.prof_address.specs.Transforms.{kind_word, kinds_of, filter_word};

use prof_path::Implementation;
use prof_spell::Word;

/// The forms of texts. In the first no transform filters samples.
#[derive(Clone, Copy, Debug, PartialEq, Eq)]
pub enum Form {
    First,
    Second,
}

impl Form {
    /// The kinds of its transforms.
    pub fn kinds(self) -> &'static [Kind]
        ensures { result.now ≡ kinds_of self }
    {
        match self {
            Form::First => &FIRST_KINDS,
            Form::Second => &KINDS,
        }
    }
}

/// The kinds of transforms.
#[derive(Clone, Copy, Debug, PartialEq, Eq)]
pub enum Kind {
    MergeFunction,
    MergeCallNode,
    DropFunction,
    FocusSubtree,
    FocusFunction,
    FocusCategory,
    CollapseResource,
    CollapseDirectRecursion,
    CollapseRecursion,
    CollapseFunctionSubtree,
    FilterSamples,
}

/// The kinds of the first form.
pub const FIRST_KINDS: [Kind; 10] = [
    Kind::MergeFunction,
    Kind::MergeCallNode,
    Kind::DropFunction,
    Kind::FocusSubtree,
    Kind::FocusFunction,
    Kind::FocusCategory,
    Kind::CollapseResource,
    Kind::CollapseDirectRecursion,
    Kind::CollapseRecursion,
    Kind::CollapseFunctionSubtree,
];

/// The kinds of the second form.
pub const KINDS: [Kind; 11] = [
    Kind::MergeFunction,
    Kind::MergeCallNode,
    Kind::DropFunction,
    Kind::FocusSubtree,
    Kind::FocusFunction,
    Kind::FocusCategory,
    Kind::CollapseResource,
    Kind::CollapseDirectRecursion,
    Kind::CollapseRecursion,
    Kind::CollapseFunctionSubtree,
    Kind::FilterSamples,
];

impl Word for Kind {
    ghost word = { kind_word };

    fn word(&self) -> &'static str {
        match self {
            Kind::MergeFunction => "mf-",
            Kind::MergeCallNode => "mcn-",
            Kind::DropFunction => "df-",
            Kind::FocusSubtree => "f-",
            Kind::FocusFunction => "ff-",
            Kind::FocusCategory => "fg-",
            Kind::CollapseResource => "cr-",
            Kind::CollapseDirectRecursion => "drec-",
            Kind::CollapseRecursion => "rec-",
            Kind::CollapseFunctionSubtree => "cfs-",
            Kind::FilterSamples => "fs-",
        }
    }
}

/// A filter of a transform, as a word.
#[derive(Clone, Copy, Debug, PartialEq, Eq)]
pub struct Filter(pub Implementation);

/// The filters.
pub const FILTERS: [Filter; 3] = [
    Filter(Implementation::Combined),
    Filter(Implementation::Js),
    Filter(Implementation::Cpp),
];

/// The filters of a view, but for the default.
pub const SHOWN: [Filter; 2] = [Filter(Implementation::Js), Filter(Implementation::Cpp)];

impl Word for Filter {
    ghost word = { filter_word };

    fn word(&self) -> &'static str {
        match self.0 {
            Implementation::Combined => "combined",
            Implementation::Js => "js",
            Implementation::Cpp => "cpp",
        }
    }
}
