//! Tables that are gathered in both ways: by their named columns, and by their schema and rows.
ghost use Rattle.prof_grammar.specs.Value.{no_members};
ghost use Rattle.prof_either.specs.Tables.{AreBoth};

use prof_gather::{Feed, FromMembers, GatherRefusal, Start};
use prof_io::Source;
use prof_members::{FrameTable, SampleTable, StackTable};
use prof_raw::{MOST_ROWS, MOST_SAMPLES};
use prof_schema::{PlacedTable, placed_member};
use std::alloc::Global;

/// A table of named columns, of which `schema` and `data` name none.
pub trait NamedTable: FromMembers {
    ghost use Rattle.std.specs.Prelude.{◌≡◌, ℕ};
    ghost use Rattle.prof_grammar.specs.Value.{Value, Members, no_members, snoc};
    ghost use Rattle.prof_schema.specs.declared.table.PlacedMember.{PlacedMember};
    ghost use Rattle.prof_schema.specs.Named.{placed_name};

    ghost most: { ℕ };

    /// How many rows the table may have.
    fn most_rows() -> u32
        ensures { result ≡ most };

    /// What is gathered of no member.
    fn no_columns(alloc: Global) -> Self
        ensures { Self.is no_members result };

    ghost stays: { (ms : Members) (m : PlacedMember) (v : Value) (t : Self) → Self.is ms t
        → Self.is (snoc ms (placed_name m) v) t };
}

impl NamedTable for FrameTable {
    ghost use Rattle.prof_raw.specs.declared.limits.TheConstants.{MOST_ROWS};
    ghost use Rattle.prof_either.specs.Stays.{frames_stay};

    ghost most = { MOST_ROWS };

    ghost stays = { frames_stay };

    fn most_rows() -> u32 {
        MOST_ROWS
    }

    fn no_columns(alloc: Global) -> Self {
        FrameTable::none(alloc)
    }
}

impl NamedTable for StackTable {
    ghost use Rattle.prof_raw.specs.declared.limits.TheConstants.{MOST_ROWS};
    ghost use Rattle.prof_either.specs.Stays.{stacks_stay};

    ghost most = { MOST_ROWS };

    ghost stays = { stacks_stay };

    fn most_rows() -> u32 {
        MOST_ROWS
    }

    fn no_columns(alloc: Global) -> Self {
        StackTable::none(alloc)
    }
}

impl NamedTable for SampleTable {
    ghost use Rattle.prof_raw.specs.declared.limits.TheConstants.{MOST_SAMPLES};
    ghost use Rattle.prof_either.specs.Stays.{samples_stay};

    ghost most = { MOST_SAMPLES };

    ghost stays = { samples_stay };

    fn most_rows() -> u32 {
        MOST_SAMPLES
    }

    fn no_columns(alloc: Global) -> Self {
        SampleTable::none(alloc)
    }
}

/// A table in both ways.
#[derive(Drop)]
pub struct BothWays<T> {
    pub named: T,
    pub rows: PlacedTable,
}

impl<T: NamedTable> BothWays<T> {
    /// What is gathered of no member.
    pub fn none(alloc: Global) -> Self
        ensures { AreBoth T.is T.most no_members result }
    {
        BothWays {
            named: T::no_columns(alloc),
            rows: PlacedTable::none(alloc, T::most_rows()),
        }
    }
}

impl<T: NamedTable> FromMembers for BothWays<T> {
    ghost use Rattle.prof_either.specs.Tables.{AreBoth};

    ghost is = { λ ms b. AreBoth T.is T.most ms b };

    fn take_member<R: Source, W: Start>(
        &mut self,
        alloc: Global,
        feed: &mut Feed<R, W>,
    ) -> Result<(), GatherRefusal> {
        match placed_member(feed.name()) {
            Some(member) => self.rows.take(alloc, feed, member)?,
            None => self.named.take_member(alloc, feed)?,
        }
        Ok(())
    }
}
