//! The table of a thread's samples.
ghost use Rattle.std.specs.Prelude.{◌≡◌, false, Some, IfSome, OnOk, IfOk, IfErr};
ghost use Rattle.std.specs.Option.{IfNone};
ghost use Rattle.prof_grammar.specs.Value.{Value, same_text};
ghost use Rattle.prof_layout.specs.Tables as layout;
ghost use Rattle.prof_gather.specs.Taking.{Reads};
ghost use Rattle.prof_members.specs.Gathered.{AreWeights};
ghost use Rattle.prof_members.specs.SampleNames.{sample_name};
ghost use Rattle.prof_gather.specs.Feeding.{IsWithin, IsBegun, Passes, Finishes, Refuses, in_member};

use prof_column::{add_cell, cell, column, empty_column, state_of, table_length};
use prof_gather::{Feed, FromItems, FromMembers, GatherRefusal, Start, array, skip_behind};
use prof_io::Source;
use prof_json::Event;
use prof_layout::Reading;
use prof_raw::{MOST_SAMPLES, RawColumn, State, TableLength, Unit};
use std::alloc::Global;

/// The weights of samples, read as counts and as milliseconds: which of the two counts is known by their type.
#[derive(Drop)]
pub struct Weights {
    pub counts: RawColumn,
    pub times: RawColumn,
}

impl FromItems for Weights {
    ghost use Rattle.prof_members.specs.Columns.{AreWeightsOf};

    ghost is = { λ first vs w. AreWeightsOf first vs w };

    fn take_item<R: Source, W: Start>(
        &mut self,
        alloc: Global,
        feed: &mut Feed<R, W>,
        first: Event,
    ) -> Result<(), GatherRefusal> {
        let count = cell(feed, Reading::Count, first);
        let time = cell(feed, Reading::Time, first);
        skip_behind(alloc, feed, first)?;
        add_cell(&mut self.counts, MOST_SAMPLES, count)?;
        add_cell(&mut self.times, MOST_SAMPLES, time)?;
        Ok(())
    }
}

/// Reads a member's value as the weights.
fn weight_columns<R: Source, W: Start>(
    alloc: Global,
    feed: &mut Feed<R, W>,
) -> Result<Weights, GatherRefusal>
    requires { IsWithin in_member feed.old }
    ensures ok { OnOk result (Passes feed.old feed.new) }
    ensures weights { IfOk result (λ w. (v : Value) × Reads feed.old feed.new v × AreWeights (Some v) w) }
    ensures err { IfErr result (λ r. Refuses r feed.new) }
{
    let mut weights = Weights {
        counts: empty_column(alloc, State::Array),
        times: empty_column(alloc, State::Array),
    };
    let kind = array(alloc, feed, &mut weights)?;
    weights.counts.state = state_of(kind, false);
    weights.times.state = state_of(kind, false);
    Ok(weights)
}

/// The unit of a weight type, if it is known.
fn unit_named(text: &str) -> Option<Unit>
    ensures { result ≡ layout.unit_named text.now }
{
    match text {
        "samples" => Some(Unit::Samples),
        "tracing-ms" => Some(Unit::Ns),
        "bytes" => Some(Unit::Bytes),
        _ => None,
    }
}

/// Reads a member's value as a weight type. Null is the samples'.
fn weight_unit<R: Source, W: Start>(
    alloc: Global,
    feed: &mut Feed<R, W>,
) -> Result<Option<Unit>, GatherRefusal>
    requires { IsWithin in_member feed.old }
    ensures ok { OnOk result (Passes feed.old feed.new) }
    ensures unit { IfOk result (λ u. (v : Value) × Reads feed.old feed.new v × (u ≡ layout.weight_unit (Some v))) }
    ensures err { IfErr result (λ r. Refuses r feed.new) }
{
    let first = feed.next(alloc)?;
    match first {
        Event::Str => Ok(unit_named(feed.string())),
        Event::Null => Ok(Some(Unit::Samples)),
        _ => {
            skip_behind(alloc, feed, first)?;
            Ok(None)
        }
    }
}

/// The columns of `samples`.
#[derive(Drop)]
pub struct SampleTable {
    pub stack: RawColumn,
    pub time: RawColumn,
    pub time_deltas: RawColumn,
    pub unit: Option<Unit>,
    pub weights: Weights,
    pub length: TableLength,
}

enum SampleMember {
    Stack,
    Time,
    TimeDeltas,
    WeightType,
    Weight,
    Length,
}

fn sample_member(name: &str) -> Option<SampleMember>
    ensures named { IfSome result (λ m. name.now ≡ sample_name m) }
    ensures other { IfNone result ((m : SampleMember) → same_text name.now (sample_name m) ≡ false) }
{
    match name {
        "stack" => Some(SampleMember::Stack),
        "time" => Some(SampleMember::Time),
        "timeDeltas" => Some(SampleMember::TimeDeltas),
        "weightType" => Some(SampleMember::WeightType),
        "weight" => Some(SampleMember::Weight),
        "length" => Some(SampleMember::Length),
        _ => None,
    }
}

impl SampleTable {
    ghost use Rattle.prof_grammar.specs.Value.{no_members};
    ghost use Rattle.prof_members.specs.Gathered.{AreSampleColumns};

    /// What is gathered of no member.
    pub fn none(alloc: Global) -> Self
        ensures { AreSampleColumns no_members result }
    {
        SampleTable {
            stack: empty_column(alloc, State::Absent),
            time: empty_column(alloc, State::Absent),
            time_deltas: empty_column(alloc, State::Absent),
            unit: Some(Unit::Samples),
            weights: Weights {
                counts: empty_column(alloc, State::Absent),
                times: empty_column(alloc, State::Absent),
            },
            length: TableLength::Unsaid,
        }
    }
}

impl FromMembers for SampleTable {
    ghost use Rattle.prof_members.specs.Gathered.{AreSampleColumns};

    ghost is = { λ ms t. AreSampleColumns ms t };

    fn take_member<R: Source, W: Start>(
        &mut self,
        alloc: Global,
        feed: &mut Feed<R, W>,
    ) -> Result<(), GatherRefusal> {
        match sample_member(feed.name()) {
            Some(SampleMember::Stack) => {
                self.stack = column(alloc, feed, Reading::MaybeIndex, true, MOST_SAMPLES)?
            }
            Some(SampleMember::Time) => {
                self.time = column(alloc, feed, Reading::Time, false, MOST_SAMPLES)?
            }
            Some(SampleMember::TimeDeltas) => {
                self.time_deltas = column(alloc, feed, Reading::Time, false, MOST_SAMPLES)?
            }
            Some(SampleMember::WeightType) => self.unit = weight_unit(alloc, feed)?,
            Some(SampleMember::Weight) => self.weights = weight_columns(alloc, feed)?,
            Some(SampleMember::Length) => self.length = table_length(alloc, feed)?,
            None => feed.skip_member(alloc)?,
        }
        Ok(())
    }
}
