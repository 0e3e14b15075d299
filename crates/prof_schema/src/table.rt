//! Tables with a schema and rows.
ghost use Rattle.std.specs.Prelude.{◌≡◌, ℕ, Some, IfSome, IfNone, IfOk, OnOk, IfErr, codes, false};
ghost use Rattle.prof_gather.specs.Feeding.{IsWithin, Passes, Refuses, in_member};
ghost use Rattle.prof_gather.specs.Taking.{Reads};
ghost use Rattle.prof_grammar.specs.Value.{Value, Members, last_named, same_text, snoc};
ghost use Rattle.prof_layout.specs.Columns.{capped};
ghost use Rattle.prof_layout.specs.Markers.{all_texts, ranges_from};
ghost use Rattle.prof_schema.specs.Gathered.{IsPlaced, kept_details};
ghost use Rattle.prof_schema.specs.Named.{placed_name};
ghost use Rattle.prof_schema.specs.Placed.{named_cells, read_placed};
ghost use Rattle.prof_schema.specs.Places.{place_of};

use crate::columns::{PlacedTexts, placed_column, placed_texts};
use crate::reading::PlacedReading;
use crate::rows::{Rows, read_rows};
use crate::schema::Schema;
use prof_gather::{Feed, Found, FromMembers, GatherRefusal, Start, object};
use prof_io::{NoMemory, Source};
use prof_raw::RawColumn;
use std::alloc::Global;

/// A table's schema and its rows, which may come in either order.
#[derive(Drop)]
pub struct PlacedTable {
    pub schema: Found<Schema>,
    pub rows: Rows,
}

/// A member of such a table.
#[derive(Clone, Copy)]
pub enum PlacedMember {
    Schema,
    Data,
}

/// The member of this name.
pub fn placed_member(name: &str) -> Option<PlacedMember>
    ensures some { IfSome result (λ m. name.now ≡ placed_name m) }
    ensures none { IfNone result ((m : PlacedMember) → same_text name.now (placed_name m) ≡ false) }
{
    match name {
        "schema" => Some(PlacedMember::Schema),
        "data" => Some(PlacedMember::Data),
        _ => None,
    }
}

impl PlacedTable {
    ghost use Rattle.prof_grammar.specs.Value.{no_members};

    /// What is gathered of no member. Of the rows at most one more than `most` will be kept.
    pub fn none(alloc: Global, most: u32) -> Self
        ensures { IsPlaced most no_members result }
    {
        PlacedTable {
            schema: Found::Absent,
            rows: Rows::absent(alloc, most),
        }
    }

    /// Reads the value of a member, of which the last of its name counts.
    pub fn take<R: Source, W: Start>(
        &mut self,
        alloc: Global,
        feed: &mut Feed<R, W>,
        member: PlacedMember,
    ) -> Result<(), GatherRefusal>
        requires { IsWithin in_member feed.old }
        ensures ok { OnOk result (Passes feed.old feed.new) }
        ensures member { OnOk result ((v : Value) × Reads feed.old feed.new v × ((ms : Members)
            → IsPlaced self.old.rows.most ms self.old
            → IsPlaced self.old.rows.most (snoc ms (placed_name member) v) self.new)) }
        ensures err { IfErr result (λ r. Refuses r feed.new) }
    {
        match member {
            PlacedMember::Schema => self.schema = object(alloc, feed, Schema::none(alloc))?,
            PlacedMember::Data => self.rows = read_rows(alloc, feed, self.rows.most)?,
        }
        Ok(())
    }

    /// The place of a column. Where the schema is no object there is none.
    pub fn place(&self, name: &str) -> Option<u8>
        ensures { (most : ℕ) (ms : Members) → IsPlaced most ms self.now
            → result ≡ place_of name.now (last_named (codes "schema") ms) }
    {
        match &self.schema {
            Found::Object(schema) => schema.place(name),
            Found::Absent | Found::Null | Found::Other => None,
        }
    }

    /// A column by its name: exactly the table's, of which at most one cell more than the rows' limit is kept.
    pub fn column(
        &self,
        alloc: Global,
        name: &str,
        reading: PlacedReading,
    ) -> Result<RawColumn, NoMemory>
        ensures { IfOk result (λ c. (most : ℕ) (ms : Members) → IsPlaced most ms self.now
            → c ≡ capped most
            (named_cells (read_placed reading) (Some (Value.object ms)) name.now)) }
    {
        placed_column(alloc, &self.rows, self.place(name), reading)
    }

    /// The texts of the objects in a column, of as many rows as are kept.
    pub fn texts(&self, alloc: Global, name: &str) -> Result<PlacedTexts, NoMemory>
        ensures texts { IfOk result (λ t. (most : ℕ) (ms : Members) → IsPlaced most ms self.now
            → t.texts.items ≡ all_texts (kept_details most ms name.now)) }
        ensures ranges { IfOk result (λ t. (most : ℕ) (ms : Members) → IsPlaced most ms self.now
            → t.ranges.items ≡ ranges_from 0 (kept_details most ms name.now)) }
    {
        placed_texts(alloc, &self.rows, self.place(name))
    }
}

impl FromMembers for PlacedTable {
    ghost use Rattle.prof_schema.specs.Gathered.{IsPlaced};

    ghost is = { λ ms t. IsPlaced t.rows.most ms t };

    fn take_member<R: Source, W: Start>(
        &mut self,
        alloc: Global,
        feed: &mut Feed<R, W>,
    ) -> Result<(), GatherRefusal> {
        match placed_member(feed.name()) {
            Some(member) => self.take(alloc, feed, member)?,
            None => feed.skip_member(alloc)?,
        }
        Ok(())
    }
}
