//! A text that is read event by event, and hashed as its bytes come.
ghost use Rattle.std.specs.Prelude.{◌≡◌, ℕ, Some, IfOk, IfErr, OnOk};
ghost use Rattle.prof_grammar.specs.Event as told;
ghost use Rattle.prof_grammar.specs.Value.{Value, Values, Members};
ghost use Rattle.prof_time.specs.Numeral.{Numeral, IsNumber};
ghost use Rattle.prof_gather.specs.Feeding.{Gives, Passes, Refuses, IsNamed, IsBegun};
ghost use Rattle.prof_gather.specs.Taking.{Reads, ReadsItems, ReadsMembers};

use crate::GatherRefusal;
use crate::hashed::{Hashed, Start};
use prof_io::Source;
use prof_json::{Event, Reader};
use std::alloc::Global;
use std::marker::Model;

/// A text that is read event by event. Its bytes come from a source that was as `W` says when the reading began.
#[derive(Drop)]
pub struct Feed<R: Source, W: Start> {
    pub reader: Reader,
    pub src: Hashed<R, W>,
}

impl<R: Source, W: Start> Model for Feed<R, W> {
    ghost use Rattle.prof_gather.specs.Feeding.{Told, told_of};
    ghost use Rattle.prof_gather.specs.Keeping.{IsKept};

    ghost Value = { Told };

    ghost view = { λ f. told_of f.reader (R.left f.src.src) };

    ghost invariant = { λ f. IsKept f.reader W.text (R.left f.src.src) (R.written f.src.src) W.written (R.place f.src.src) W.place W.faults (R.faults f.src.src) (W.sure → R.sure f.src.src) (W.sure → ⊥) };
}

impl<R: Source, W: Start> Feed<R, W> {
    /// The next event.
    pub fn next(&mut self, alloc: Global) -> Result<Event, GatherRefusal>
        ensures ok { IfOk result (λ event. Gives self.old event self.new) }
        ensures err { IfErr result (λ r. Refuses r self.new) }
    {
        let event = self.reader.next(alloc, &mut self.src)?;
        Ok(event)
    }

    /// Reads over the value of the member that was named.
    pub fn skip_member(&mut self, alloc: Global) -> Result<(), GatherRefusal>
        requires { IsNamed self.old }
        ensures ok { OnOk result (Passes self.old self.new) }
        ensures value { OnOk result ((v : Value) × Reads self.old self.new v) }
        ensures err { IfErr result (λ r. Refuses r self.new) }
    {
        self.reader.skip_value(alloc, &mut self.src)?;
        Ok(())
    }

    /// Reads to the end of the array that has begun.
    pub fn skip_array(&mut self, alloc: Global) -> Result<(), GatherRefusal>
        requires { IsBegun Event.ArrayStart self.old }
        ensures ok { OnOk result (Passes self.old self.new) }
        ensures value { OnOk result ((vs : Values) × ReadsItems self.old self.new vs) }
        ensures err { IfErr result (λ r. Refuses r self.new) }
    {
        self.reader.skip_value(alloc, &mut self.src)?;
        Ok(())
    }

    /// Reads to the end of the object that has begun.
    pub fn skip_object(&mut self, alloc: Global) -> Result<(), GatherRefusal>
        requires { IsBegun Event.ObjectStart self.old }
        ensures ok { OnOk result (Passes self.old self.new) }
        ensures value { OnOk result ((ms : Members) × ReadsMembers self.old self.new ms) }
        ensures err { IfErr result (λ r. Refuses r self.new) }
    {
        self.reader.skip_value(alloc, &mut self.src)?;
        Ok(())
    }

    /// The name of the member whose value is due.
    pub fn name(&self) -> &str
        requires { IsNamed self.now }
        ensures { self.now.last ≡ Some (told.name result.now) }
    {
        self.reader.text()
    }

    /// The text of the last event, a string.
    pub fn string(&self) -> &str
        requires { IsBegun Event.Str self.now }
        ensures { self.now.last ≡ Some (told.str result.now) }
    {
        self.reader.text()
    }

    /// The text of the last event, a number.
    pub fn number_text(&self) -> &[u8]
        requires { IsBegun Event.Number self.now }
        ensures last { self.now.last ≡ Some (told.number result.now) }
        ensures number { (m : Numeral) × IsNumber result.now m }
    {
        self.reader.number_text()
    }
}
