// The reader.
ghost use Rattle.std.specs.Prelude.{◌≡◌, ◌≢◌, ℕ, ◌<◌, ◌≤◌, ◌⊎◌, List, [], length, take, Ok, Err, None, Some, IfOk, IfErr, IfSome, OnOk};
ghost use Rattle.std.specs.Io.KnownBytes.{IsAtEnd};
ghost use Rattle.prof_io.specs.Causes.{Rose};
ghost use Rattle.prof_grammar.specs.Event as grammar;
ghost use Rattle.prof_io.specs.Outside.{seen};
ghost use Rattle.prof_token.specs.Goes.{Goes, IsFaultOf};
ghost use Rattle.prof_token.specs.Own.{Owns};
ghost use Rattle.prof_token.specs.Moves.{Moves, Reads, fault_of};
ghost use Rattle.prof_json.specs.Nest.{Occurs};
ghost use Rattle.prof_json.specs.Parts.{behind, parts_in};
ghost use Rattle.prof_json.specs.Skip.{IsBegun, IsAround, IsRest, outside_of};

use crate::nesting::phase_after;
use crate::steps::read_event;
use crate::{Bracket, Event, JsonFault, Phase};
use prof_io::{NoMemory, Source};
use prof_token::{Buffer, Input};
use std::alloc::Global;
use std::marker::Model;

/// How many brackets are open around the value that has begun, or is to begin, behind the last event.
fn outside(last: Option<Event>, brackets: &[Bracket]) -> usize
    requires { IsBegun last brackets.now }
    ensures { result ≡ outside_of last brackets.now }
{
    match last {
        Some(Event::Name) => brackets.len(),
        _ => brackets.len() - 1,
    }
}

/// Reads events until no more than so many brackets are open.
fn skip_events<S: Source>(
    input: &mut Input,
    src: &mut S,
    brackets: &mut Vec<Bracket>,
    begun: Phase,
    text: &mut Buffer,
    opened: usize,
) -> Result<(), JsonFault>
    requires occurs { Occurs begun brackets.old.items }
    requires few { length brackets.old.items ≤ 256 }
    requires placed { input.old.place ≤ input.old.limit }
    requires within { opened ≤ length brackets.old.items }
    requires inside { (opened < length brackets.old.items) ⊎ (begun ≡ Phase.AfterName) }
    requires around { IsAround begun opened brackets.old.items }
    ensures moves { Moves (fault_of result) input.old (seen S.Counted src.old) input.new (seen S.Counted src.new) }
    ensures closed { OnOk result (brackets.new.items ≡ take opened brackets.old.items) }
    ensures further { OnOk result (input.old.place < input.new.place) }
    ensures own { OnOk result (Owns input.old.bytes (S.left src.old) input.new.bytes (S.left src.new)) }
    ensures told { OnOk result ((es : List grammar.Event) × IsRest begun es × Goes None input.old (S.left src.old) (parts_in begun (behind brackets.old.items)) es input.new (S.left src.new) (behind brackets.new.items)) }
    ensures fault { IfErr result (λ fault. IsFaultOf fault input.old (S.left src.old) (parts_in begun (behind brackets.old.items))) }
{
    let mut phase = begun;
    'events: loop {
        match read_event(input, src, brackets, phase, text) {
            Err(fault) => return Err(fault),
            Ok(event) => phase = phase_after(event),
        }
        if brackets.len() <= opened {
            return Ok(());
        }
    }
}

/// Reads a JSON text, an event at a time, from a source that is lent to each call.
#[derive(Drop)]
pub struct Reader {
    input: Input,
    brackets: Vec<Bracket>,
    phase: Phase,
    last: Option<Event>,
    text: Buffer,
    fault: Option<JsonFault>,
}

impl Model for Reader {
    ghost use Rattle.std.specs.Prelude.{◌≡◌, ◌≤◌, length, None};
    ghost use Rattle.prof_json.specs.Position.{Position, IsReady, IsSound, last_of};

    ghost Value = { Position };

    ghost view = { λ r. record {
      ahead = r.input.bytes;
      place = r.input.place;
      limit = r.input.limit;
      nest = record { open_ = r.brackets.items; phase = r.phase };
      last = last_of r.last r.text.bytes;
      fault = r.fault;
    } };

    ghost invariant = { λ r. (length r.input.bytes ≤ 65536) × (r.input.place ≤ r.input.limit) × IsSound r.last r.text.bytes × (r.fault ≡ None → IsReady r.brackets.items r.phase r.last) };
}

impl Reader {
    ghost use Rattle.std.specs.Option.{option_to_list};
    ghost use Rattle.prof_grammar.specs.Event.{number};
    ghost use Rattle.prof_grammar.specs.Reading.{IsReading, finished};
    ghost use Rattle.prof_json.specs.Nest.{Leads};
    ghost use Rattle.prof_token.specs.Numbers.{IsNumeral};
    ghost use Rattle.prof_json.specs.Position.{IsLast, StandsAt, fresh};
    ghost use Rattle.prof_json.specs.Skip.{IsText, IsSkippable, IsSkipped, Closes};
    ghost use Rattle.prof_json.specs.Tells.{Tells, Ends, EndsBy, FailsBy, rest};

    /// A reader of a text of at most `limit` bytes. It holds no source.
    pub fn new(alloc: Global, limit: u64) -> Result<Reader, NoMemory>
        ensures fresh { IfOk result (λ r. r ≡ fresh limit) }
        // What it reads of any text is the reading of that text.
        ensures reading { IfOk result (λ r. (text : List ℕ) → IsReading limit text (rest r text).events (rest r text).ending) }
    {
        let input = Input::new(alloc, limit)?;
        Ok(Reader {
            input,
            brackets: Vec::new(alloc),
            phase: Phase::Start,
            last: None,
            text: Buffer::new(alloc),
            fault: None,
        })
    }

    /// The text of the last event, a name or a string.
    pub fn text(&self) -> &str
        requires { (s : List ℕ) × IsText self.now.last s }
        ensures { IsText self.now.last result.now }
    {
        self.text.as_str()
    }

    /// The text of the last event, a number.
    pub fn number_text(&self) -> &[u8]
        requires { (t : List ℕ) × (self.now.last ≡ Some (number t)) }
        ensures text { self.now.last ≡ Some (number result.now) }
        ensures numeral { IsNumeral result.now }
    {
        self.text.as_bytes()
    }

    /// The next event. Behind `End` each call gives `End`, and behind a fault each call gives that fault.
    pub fn next<S: Source>(&mut self, _alloc: Global, src: &mut S) -> Result<Event, JsonFault>
        // The event may stand where it stands, and is the last one.
        ensures nest { IfOk result (λ e. Leads self.old.nest e self.new.nest) }
        ensures last { IfOk result (λ e. IsLast e self.new.last) }

        // Where the source tells its bytes, the event is the next one of the text, and with `End` the reading is over.
        ensures told { OnOk result (Tells self.old (S.left src.old) (option_to_list self.new.last) self.new (S.left src.new)) }
        ensures finished { result ≡ Ok Event.End → Ends finished self.old (S.left src.old) }

        // The fault is that of the text, at its place.
        ensures fault { IfErr result (λ fault. self.old.fault ≡ None → EndsBy fault self.old (S.left src.old)) }

        // A fault is kept, and each call repeats it, and changes nothing.
        ensures sound { OnOk result ((self.old.fault ≡ None) × (self.new.fault ≡ None)) }
        ensures kept { IfErr result (λ fault. self.new.fault ≡ Some fault) }
        ensures again { IfSome self.old.fault (λ fault. (result ≡ Err fault) × (self.new ≡ self.old) × (src.new ≡ src.old)) }

        // The bytes between were read, the event's own last byte last, and no more than a window was taken.
        ensures read { Reads self.old.ahead self.old.place (S.left src.old) self.new.ahead self.new.place (S.left src.new) }
        ensures near { length self.new.ahead ≤ 65536 }
        ensures own { IfOk result (λ e. e ≢ Event.End → Owns self.old.ahead (S.left src.old) self.new.ahead (S.left src.new)) }
        ensures limit { self.new.limit ≡ self.old.limit }
        ensures within { self.new.place ≤ self.new.limit }
        ensures further { IfOk result (λ e. e ≢ Event.End → self.old.place < self.new.place) }
        ensures end { result ≡ Ok Event.End → IsAtEnd (S.left src.new) }
        ensures at { IfErr result (λ fault. self.old.fault ≡ None → StandsAt fault self.new) }

        // What the source tells besides stays. Its count rises where it fails.
        ensures written { S.written src.new ≡ S.written src.old }
        ensures place { S.place src.new ≡ S.place src.old }
        ensures sure { S.sure src.old → S.sure src.new × (self.old.fault ≡ None → result ≢ Err JsonFault.ReadFault) }
        ensures later { S.faults src.old ≤ S.faults src.new }
        ensures cause { result ≡ Err JsonFault.ReadFault → self.old.fault ≡ None → Rose (S.faults src.old) (S.faults src.new) }
        ensures steady { result ≢ Err JsonFault.ReadFault → S.faults src.new ≡ S.faults src.old }
    {
        if let Some(fault) = self.fault {
            return Err(fault);
        }
        self.text.begin(true);
        match read_event(
            &mut self.input,
            src,
            &mut self.brackets,
            self.phase,
            &mut self.text,
        ) {
            Err(fault) => {
                self.last = None;
                self.fault = Some(fault);
                Err(fault)
            }
            Ok(event) => {
                self.phase = phase_after(event);
                self.last = Some(event);
                Ok(event)
            }
        }
    }

    /// Reads over the value of a member, or to the end of the array or object that was just opened.
    pub fn skip_value<S: Source>(&mut self, _alloc: Global, src: &mut S) -> Result<(), JsonFault>
        requires { (self.old.fault ≢ None) ⊎ IsSkippable self.old.last }
        // The value is over.
        ensures nest { OnOk result (Closes self.old.last self.old.nest self.new.nest) }
        ensures last { OnOk result (self.new.last ≡ None) }

        // Where the source tells its bytes, these are the next events of the text, and the fault is that of the text.
        ensures told { OnOk result ((es : List grammar.Event) × IsSkipped self.old.last es × Tells self.old (S.left src.old) es self.new (S.left src.new)) }
        ensures fault { IfErr result (λ fault. self.old.fault ≡ None → FailsBy fault self.old (S.left src.old)) }

        // A fault is kept, and each call repeats it, and changes nothing.
        ensures sound { OnOk result ((self.old.fault ≡ None) × (self.new.fault ≡ None)) }
        ensures kept { IfErr result (λ fault. self.new.fault ≡ Some fault) }
        ensures again { IfSome self.old.fault (λ fault. (result ≡ Err fault) × (self.new ≡ self.old) × (src.new ≡ src.old)) }

        // The bytes between were read, the value's own last byte last, and no more than a window was taken.
        ensures read { Reads self.old.ahead self.old.place (S.left src.old) self.new.ahead self.new.place (S.left src.new) }
        ensures near { length self.new.ahead ≤ 65536 }
        ensures own { OnOk result (Owns self.old.ahead (S.left src.old) self.new.ahead (S.left src.new)) }
        ensures limit { self.new.limit ≡ self.old.limit }
        ensures within { self.new.place ≤ self.new.limit }
        ensures further { OnOk result (self.old.place < self.new.place) }
        ensures at { IfErr result (λ fault. self.old.fault ≡ None → StandsAt fault self.new) }

        // What the source tells besides stays. Its count rises where it fails.
        ensures written { S.written src.new ≡ S.written src.old }
        ensures place { S.place src.new ≡ S.place src.old }
        ensures sure { S.sure src.old → S.sure src.new × (self.old.fault ≡ None → result ≢ Err JsonFault.ReadFault) }
        ensures later { S.faults src.old ≤ S.faults src.new }
        ensures cause { result ≡ Err JsonFault.ReadFault → self.old.fault ≡ None → Rose (S.faults src.old) (S.faults src.new) }
        ensures steady { result ≢ Err JsonFault.ReadFault → S.faults src.new ≡ S.faults src.old }
    {
        if let Some(fault) = self.fault {
            return Err(fault);
        }
        let opened = outside(self.last, &self.brackets);
        self.last = None;
        self.text.begin(false);
        match skip_events(
            &mut self.input,
            src,
            &mut self.brackets,
            self.phase,
            &mut self.text,
            opened,
        ) {
            Err(fault) => {
                self.fault = Some(fault);
                Err(fault)
            }
            Ok(()) => {
                self.phase = Phase::AfterValue;
                Ok(())
            }
        }
    }
}
