//! Tables that stand row by row, as the members of a thread.
ghost use Rattle.std.specs.Prelude.{◌≡◌, Some, None, IfOk, OnOk, IfErr};
ghost use Rattle.prof_raw.specs.declared.limits.TheConstants.{MOST_ROWS, MOST_SAMPLES};
ghost use Rattle.prof_gather.specs.Feeding.{IsWithin, Passes, Refuses, in_member};
ghost use Rattle.prof_gather.specs.Taking.{Reads};
ghost use Rattle.prof_grammar.specs.Value.{Value, no_members};
ghost use Rattle.prof_schema.specs.Gathered.{IsPlaced};
ghost use Rattle.prof_processes.specs.Tables.{IsHeld};

use prof_column::whole;
use prof_gather::{Feed, Found, FromMembers, GatherRefusal, Start, object};
use prof_io::Source;
use prof_raw::{ListFault, MOST_ROWS, MOST_SAMPLES, Rule};
use prof_schema::{PlacedTable, placed_member};
use std::alloc::Global;

/// A member that should be a table. Where it is none, `fault` says why, and the table is empty.
#[derive(Drop)]
pub struct HeldTable {
    pub fault: Option<ListFault>,
    pub table: PlacedTable,
}

/// The members of a table, whose rows are limited as most tables' are.
#[derive(Drop)]
struct RowMembers {
    table: PlacedTable,
}

/// The members of the table of samples.
#[derive(Drop)]
struct SampleMembers {
    table: PlacedTable,
}

impl FromMembers for RowMembers {
    ghost use Rattle.prof_raw.specs.declared.limits.TheConstants.{MOST_ROWS};
    ghost use Rattle.prof_schema.specs.Gathered.{IsPlaced};

    ghost is = { λ ms t. IsPlaced MOST_ROWS ms t.table };

    fn take_member<R: Source, W: Start>(
        &mut self,
        alloc: Global,
        feed: &mut Feed<R, W>,
    ) -> Result<(), GatherRefusal> {
        match placed_member(feed.name()) {
            Some(member) => self.table.take(alloc, feed, member)?,
            None => feed.skip_member(alloc)?,
        }
        Ok(())
    }
}

impl FromMembers for SampleMembers {
    ghost use Rattle.prof_raw.specs.declared.limits.TheConstants.{MOST_SAMPLES};
    ghost use Rattle.prof_schema.specs.Gathered.{IsPlaced};

    ghost is = { λ ms t. IsPlaced MOST_SAMPLES ms t.table };

    fn take_member<R: Source, W: Start>(
        &mut self,
        alloc: Global,
        feed: &mut Feed<R, W>,
    ) -> Result<(), GatherRefusal> {
        match placed_member(feed.name()) {
            Some(member) => self.table.take(alloc, feed, member)?,
            None => feed.skip_member(alloc)?,
        }
        Ok(())
    }
}

impl HeldTable {
    /// What is held where no member has the table.
    pub fn absent(alloc: Global, most: u32) -> Self
        ensures { IsHeld most None result }
    {
        HeldTable {
            fault: Some(whole(Rule::Missing)),
            table: PlacedTable::none(alloc, most),
        }
    }

    /// What is held of a value that is no object.
    fn other(alloc: Global, most: u32) -> Self
        ensures fault { result.fault ≡ Some (record { rule = Rule.WrongKind; row = None }) }
        ensures placed { IsPlaced most no_members result.table }
    {
        HeldTable {
            fault: Some(whole(Rule::WrongKind)),
            table: PlacedTable::none(alloc, most),
        }
    }
}

/// Reads a member's value as a table, of which at most `MOST_ROWS` rows and one are kept.
pub fn row_table<R: Source, W: Start>(
    alloc: Global,
    feed: &mut Feed<R, W>,
) -> Result<HeldTable, GatherRefusal>
    requires { IsWithin in_member feed.old }
    ensures ok { OnOk result (Passes feed.old feed.new) }
    ensures table { IfOk result (λ h. (v : Value) × Reads feed.old feed.new v
        × IsHeld MOST_ROWS (Some v) h) }
    ensures err { IfErr result (λ r. Refuses r feed.new) }
{
    let begun = RowMembers {
        table: PlacedTable::none(alloc, MOST_ROWS),
    };
    match object(alloc, feed, begun)? {
        Found::Object(members) => Ok(HeldTable {
            fault: None,
            table: members.table,
        }),
        Found::Absent | Found::Null | Found::Other => Ok(HeldTable::other(alloc, MOST_ROWS)),
    }
}

/// Reads a member's value as the table of samples, of which at most `MOST_SAMPLES` rows and one are kept.
pub fn sample_rows<R: Source, W: Start>(
    alloc: Global,
    feed: &mut Feed<R, W>,
) -> Result<HeldTable, GatherRefusal>
    requires { IsWithin in_member feed.old }
    ensures ok { OnOk result (Passes feed.old feed.new) }
    ensures table { IfOk result (λ h. (v : Value) × Reads feed.old feed.new v
        × IsHeld MOST_SAMPLES (Some v) h) }
    ensures err { IfErr result (λ r. Refuses r feed.new) }
{
    let begun = SampleMembers {
        table: PlacedTable::none(alloc, MOST_SAMPLES),
    };
    match object(alloc, feed, begun)? {
        Found::Object(members) => Ok(HeldTable {
            fault: None,
            table: members.table,
        }),
        Found::Absent | Found::Null | Found::Other => Ok(HeldTable::other(alloc, MOST_SAMPLES)),
    }
}
