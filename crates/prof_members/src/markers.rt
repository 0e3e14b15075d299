//! The table of a thread's markers.
ghost use Rattle.std.specs.Prelude.{◌≡◌, ◌∷◌, ◌++◌, [], List, Some, None, OnOk, IfOk, IfErr, IfSome, IfNone, false};
ghost use Rattle.prof_gather.specs.Feeding.{IsWithin, Passes, Refuses, in_member};
ghost use Rattle.prof_grammar.specs.Value.{Value, same_text};
ghost use Rattle.prof_layout.specs.Markers.{data_texts};
ghost use Rattle.prof_gather.specs.Taking.{Reads};
ghost use Rattle.prof_members.specs.Gathered.{IsMarkerData};
ghost use Rattle.prof_members.specs.Columns.{IsMarkerDataOf};
ghost use Rattle.prof_members.specs.Named.{marker_name};
ghost use Rattle.prof_schema.specs.Fields.{field_texts};

use crate::lists::MarkerData;
use prof_column::{add_cell, column, empty_column, state_of, table_length};
use prof_gather::{
    Feed, FromItems, FromMembers, GatherRefusal, Start, array, members, skip_behind,
};
use prof_io::{NoMemory, Source};
use prof_json::Event;
use prof_layout::Reading;
use prof_raw::{MOST_ROWS, RawColumn, State, TableLength};
use prof_schema::MarkerFields;
use std::alloc::Global;

impl MarkerData {
    /// The column before its first row.
    pub fn empty(alloc: Global, state: State) -> Self
        ensures column { result.column ≡ record { state = state; cells = []; bad = None } }
        ensures texts { result.texts.items ≡ [] }
        ensures ranges { result.ranges.items ≡ [] }
    {
        MarkerData {
            column: empty_column(alloc, state),
            texts: Vec::new(alloc),
            ranges: Vec::new(alloc),
        }
    }

    /// Adds a row with the texts of these fields, unless there are more than the most rows already.
    pub fn add(&mut self, alloc: Global, fields: &MarkerFields) -> Result<(), NoMemory>
        ensures { OnOk result ((v : Value) → data_texts v ≡ field_texts fields.now → (first : MarkerData) (vs : List Value)
            → IsMarkerDataOf first vs self.old → IsMarkerDataOf first (vs ++ v ∷ []) self.new) }
    {
        if self.ranges.len() > MOST_ROWS as usize {
            return Ok(());
        }
        add_cell(&mut self.column, MOST_ROWS, Ok(None))?;
        let range = fields.add_texts(alloc, &mut self.texts)?;
        self.ranges.push(range)?;
        Ok(())
    }
}

impl FromItems for MarkerData {
    ghost use Rattle.prof_members.specs.Columns.{IsMarkerDataOf};

    ghost is = { λ first vs d. IsMarkerDataOf first vs d };

    fn take_item<R: Source, W: Start>(
        &mut self,
        alloc: Global,
        feed: &mut Feed<R, W>,
        first: Event,
    ) -> Result<(), GatherRefusal> {
        match first {
            Event::ObjectStart => {
                let fields = members(alloc, feed, MarkerFields::none(alloc))?;
                self.add(alloc, &fields)?;
                Ok(())
            }
            _ => {
                skip_behind(alloc, feed, first)?;
                let fields = MarkerFields::none(alloc);
                self.add(alloc, &fields)?;
                Ok(())
            }
        }
    }
}

/// Reads a member's value as the column `data`.
fn marker_data<R: Source, W: Start>(
    alloc: Global,
    feed: &mut Feed<R, W>,
) -> Result<MarkerData, GatherRefusal>
    requires { IsWithin in_member feed.old }
    ensures ok { OnOk result (Passes feed.old feed.new) }
    ensures data { IfOk result (λ d. (v : Value) × Reads feed.old feed.new v × IsMarkerData (Some v) d) }
    ensures err { IfErr result (λ r. Refuses r feed.new) }
{
    let mut data = MarkerData::empty(alloc, State::Array);
    let kind = array(alloc, feed, &mut data)?;
    data.column.state = state_of(kind, false);
    Ok(data)
}

/// The columns of `markers`.
#[derive(Drop)]
pub struct MarkerTable {
    pub phase: RawColumn,
    pub name: RawColumn,
    pub start_time: RawColumn,
    pub end_time: RawColumn,
    pub data: MarkerData,
    pub length: TableLength,
}

enum MarkerMember {
    Phase,
    Name,
    StartTime,
    EndTime,
    Data,
    Length,
}

fn marker_member(name: &str) -> Option<MarkerMember>
    ensures some { IfSome result (λ m. name.now ≡ marker_name m) }
    ensures none { IfNone result ((m : MarkerMember) → same_text name.now (marker_name m) ≡ false) }
{
    match name {
        "phase" => Some(MarkerMember::Phase),
        "name" => Some(MarkerMember::Name),
        "startTime" => Some(MarkerMember::StartTime),
        "endTime" => Some(MarkerMember::EndTime),
        "data" => Some(MarkerMember::Data),
        "length" => Some(MarkerMember::Length),
        _ => None,
    }
}

impl MarkerTable {
    ghost use Rattle.prof_grammar.specs.Value.{no_members};
    ghost use Rattle.prof_members.specs.Gathered.{AreMarkerColumns};

    /// What is gathered of no member.
    pub fn none(alloc: Global) -> Self
        ensures { AreMarkerColumns no_members result }
    {
        MarkerTable {
            phase: empty_column(alloc, State::Absent),
            name: empty_column(alloc, State::Absent),
            start_time: empty_column(alloc, State::Absent),
            end_time: empty_column(alloc, State::Absent),
            data: MarkerData::empty(alloc, State::Absent),
            length: TableLength::Unsaid,
        }
    }
}

impl FromMembers for MarkerTable {
    ghost use Rattle.prof_members.specs.Gathered.{AreMarkerColumns};

    ghost is = { λ ms t. AreMarkerColumns ms t };

    fn take_member<R: Source, W: Start>(
        &mut self,
        alloc: Global,
        feed: &mut Feed<R, W>,
    ) -> Result<(), GatherRefusal> {
        match marker_member(feed.name()) {
            Some(MarkerMember::Phase) => {
                self.phase = column(alloc, feed, Reading::Phase, true, MOST_ROWS)?
            }
            Some(MarkerMember::Name) => {
                self.name = column(alloc, feed, Reading::Index, true, MOST_ROWS)?
            }
            Some(MarkerMember::StartTime) => {
                self.start_time = column(alloc, feed, Reading::MaybeTime, true, MOST_ROWS)?
            }
            Some(MarkerMember::EndTime) => {
                self.end_time = column(alloc, feed, Reading::MaybeTime, true, MOST_ROWS)?
            }
            Some(MarkerMember::Data) => self.data = marker_data(alloc, feed)?,
            Some(MarkerMember::Length) => self.length = table_length(alloc, feed)?,
            None => feed.skip_member(alloc)?,
        }
        Ok(())
    }
}
