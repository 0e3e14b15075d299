//! What is gathered whatever the form of the text turns out to be.
ghost use Rattle.std.specs.Prelude.{All};
ghost use Rattle.std.proofs.Props.{props};
ghost use Rattle.prof_gecko.specs.Processes.{HasRanges, ThreadHasRanges};
ghost use Rattle.prof_processes.specs.Processes.{child_entries};
ghost use Rattle.prof_either.specs.Ranged.{ranges_fact};

use crate::meta::EitherMeta;
use prof_gather::Found;
use prof_members::{SharedTables, ThreadList as NamedThreads};
use prof_processes::{Children, LibList, ThreadList as RowThreads};

/// The list of threads that is gathered: as that of a processed profile, and as that of a Gecko profile.
#[derive(Drop)]
pub struct ThreadLists {
    pub named: NamedThreads,
    pub rows: RowThreads,
    ghost ranges: { All ThreadHasRanges rows.threads.items },
}

/// What is gathered of the members of the text's object.
#[derive(Drop)]
pub struct EitherParts {
    pub meta: Found<EitherMeta>,
    pub shared: Found<SharedTables>,
    pub libs: LibList,
    pub threads: ThreadLists,
    pub children: Children,
    ghost ranges: { All HasRanges (child_entries children) } by { Prim.hlevel (props, ranges_fact) },
}
