//! The schemas of tables.
ghost use Rattle.std.specs.Prelude.{◌≡◌, Some, IfOk, OnOk, IfErr, is_some};
ghost use Rattle.prof_gather.specs.Feeding.{IsWithin, Passes, Refuses, in_member};
ghost use Rattle.prof_gather.specs.Taking.{Reads};
ghost use Rattle.prof_grammar.specs.Value.{Value, Members, last_named};
ghost use Rattle.prof_layout.specs.Columns.{read_cell};
ghost use Rattle.prof_schema.specs.Gathered.{IsSchema};
ghost use Rattle.prof_schema.specs.Places.{member_place, place_value, are_places};

use indexmap::IndexMap;
use prof_column::{Cell, cell};
use prof_gather::{Feed, FromMembers, GatherRefusal, Start, skip_behind};
use prof_io::Source;
use prof_layout::Reading;
use std::alloc::Global;

/// The names of a table's columns, each with its last place, or none where that is no whole number from 0 to 255.
#[derive(Drop)]
pub struct Schema {
    places: IndexMap<String, Option<u8>>,
}

impl Schema {
    ghost use Rattle.prof_grammar.specs.Value.{no_members};

    /// What is gathered of no member.
    pub fn none(alloc: Global) -> Self
        ensures { IsSchema no_members result }
    {
        Schema {
            places: IndexMap::new(alloc),
        }
    }

    /// The place of a column.
    pub fn place(&self, name: &str) -> Option<u8>
        ensures { (ms : Members) → IsSchema ms self.now
            → result ≡ member_place (last_named name.now ms) }
    {
        match self.places.get(name) {
            Some(place) => *place,
            None => None,
        }
    }

    /// Whether a column is named.
    pub fn has(&self, name: &str) -> bool
        ensures { (ms : Members) → IsSchema ms self.now
            → result ≡ is_some (last_named name.now ms) }
    {
        match self.places.get(name) {
            Some(_) => true,
            None => false,
        }
    }

    /// Whether each name has a place, known or not.
    pub fn are_places(&self) -> bool
        ensures { (ms : Members) → IsSchema ms self.now
            → result ≡ are_places (Some (Value.object ms)) }
    {
        for place in self.places.values() {
            if place.is_none() {
                return false;
            }
        }
        true
    }
}

impl FromMembers for Schema {
    ghost use Rattle.prof_schema.specs.Gathered.{IsSchema};

    ghost is = { λ ms s. IsSchema ms s };

    fn take_member<R: Source, W: Start>(
        &mut self,
        alloc: Global,
        feed: &mut Feed<R, W>,
    ) -> Result<(), GatherRefusal> {
        let name = String::from_str(alloc, feed.name())?;
        let place = place(alloc, feed)?;
        let _earlier = self.places.insert(name, place)?;
        Ok(())
    }
}

/// Reads a member's value as a place.
fn place<R: Source, W: Start>(
    alloc: Global,
    feed: &mut Feed<R, W>,
) -> Result<Option<u8>, GatherRefusal>
    requires { IsWithin in_member feed.old }
    ensures ok { OnOk result (Passes feed.old feed.new) }
    ensures place { IfOk result (λ p. (v : Value) × Reads feed.old feed.new v
        × (p ≡ place_value v)) }
    ensures err { IfErr result (λ r. Refuses r feed.new) }
{
    let first = feed.next(alloc)?;
    let index = cell(feed, Reading::Index, first);
    skip_behind(alloc, feed, first)?;
    Ok(small(index))
}

/// The place that an index is, if it is a byte.
fn small(index: Cell) -> Option<u8>
    ensures { (v : Value) → index ≡ read_cell Reading.Index v → result ≡ place_value v }
{
    match index {
        Ok(Some(n)) if 0 <= n && n <= 255 => Some(n as u8),
        _ => None,
    }
}
