//! The details of markers, which one form has as objects and the other in rows.
ghost use Rattle.std.specs.Prelude.{Some, IfOk, OnOk, IfErr};
ghost use Rattle.prof_gather.specs.Feeding.{IsWithin, Passes, Refuses, in_member};
ghost use Rattle.prof_gather.specs.Taking.{Reads};
ghost use Rattle.prof_grammar.specs.Value.{Value};
ghost use Rattle.prof_members.specs.Gathered.{IsMarkerData};
ghost use Rattle.prof_raw.specs.declared.limits.TheConstants.{MOST_ROWS};
ghost use Rattle.prof_schema.specs.Gathered.{AreRows};

use prof_column::state_of;
use prof_gather::{Feed, FromItems, GatherRefusal, Start, array, members};
use prof_io::Source;
use prof_json::Event;
use prof_members::MarkerData;
use prof_raw::{MOST_ROWS, State};
use prof_schema::{MarkerFields, Rows};
use std::alloc::Global;

/// The items of a member `data`: as a column of markers, and as rows.
#[derive(Drop)]
pub struct BothDetails {
    pub named: MarkerData,
    pub rows: Rows,
}

impl FromItems for BothDetails {
    ghost use Rattle.prof_either.specs.Tables.{AreBothDetailsOf};

    ghost is = { λ first vs d. AreBothDetailsOf first vs d };

    fn take_item<R: Source, W: Start>(
        &mut self,
        alloc: Global,
        feed: &mut Feed<R, W>,
        first: Event,
    ) -> Result<(), GatherRefusal> {
        match first {
            Event::ObjectStart => {
                let fields = members(alloc, feed, MarkerFields::none(alloc))?;
                self.named.add(alloc, &fields)?;
                self.rows.add_other()?;
            }
            _ => {
                self.rows.take_item(alloc, feed, first)?;
                let fields = MarkerFields::none(alloc);
                self.named.add(alloc, &fields)?;
            }
        }
        Ok(())
    }
}

/// Reads a member's value as the details of markers in both ways.
pub fn both_details<R: Source, W: Start>(
    alloc: Global,
    feed: &mut Feed<R, W>,
) -> Result<BothDetails, GatherRefusal>
    requires { IsWithin in_member feed.old }
    ensures ok { OnOk result (Passes feed.old feed.new) }
    ensures details { IfOk result (λ d. (v : Value) × Reads feed.old feed.new v
        × IsMarkerData (Some v) d.named × AreRows MOST_ROWS (Some v) d.rows) }
    ensures err { IfErr result (λ r. Refuses r feed.new) }
{
    let mut details = BothDetails {
        named: MarkerData::empty(alloc, State::Array),
        rows: Rows::absent(alloc, MOST_ROWS),
    };
    let kind = array(alloc, feed, &mut details)?;
    let BothDetails {
        mut named,
        mut rows,
    } = details;
    named.column.state = state_of(kind, false);
    rows.state = state_of(kind, true);
    Ok(BothDetails { named, rows })
}
