//! The table of a thread's markers, in both ways.
ghost use Rattle.prof_grammar.specs.Value.{no_members};
ghost use Rattle.prof_either.specs.Tables.{AreBothMarkers};

use crate::details::both_details;
use prof_gather::{Feed, FromMembers, GatherRefusal, Start};
use prof_io::Source;
use prof_members::MarkerTable;
use prof_raw::MOST_ROWS;
use prof_schema::{PlacedMember, PlacedTable, placed_member};
use std::alloc::Global;

/// The table of markers in both ways. Both know the member `data`.
#[derive(Drop)]
pub struct BothMarkers {
    pub named: MarkerTable,
    pub rows: PlacedTable,
}

impl BothMarkers {
    /// What is gathered of no member.
    pub fn none(alloc: Global) -> Self
        ensures { AreBothMarkers no_members result }
    {
        BothMarkers {
            named: MarkerTable::none(alloc),
            rows: PlacedTable::none(alloc, MOST_ROWS),
        }
    }
}

impl FromMembers for BothMarkers {
    ghost use Rattle.prof_either.specs.Tables.{AreBothMarkers};

    ghost is = { λ ms b. AreBothMarkers ms b };

    fn take_member<R: Source, W: Start>(
        &mut self,
        alloc: Global,
        feed: &mut Feed<R, W>,
    ) -> Result<(), GatherRefusal> {
        match placed_member(feed.name()) {
            Some(PlacedMember::Schema) => self.rows.take(alloc, feed, PlacedMember::Schema)?,
            Some(PlacedMember::Data) => {
                let details = both_details(alloc, feed)?;
                self.named.data = details.named;
                self.rows.rows = details.rows;
            }
            None => self.named.take_member(alloc, feed)?,
        }
        Ok(())
    }
}
