//! The libraries of a process.
ghost use Rattle.std.specs.Prelude.{◌≡◌, ◌++◌, ◌∷◌, [], List, None, Some, IfOk, OnOk, IfErr, false};
ghost use Rattle.prof_gather.specs.Feeding.{IsWithin, IsBegun, Passes, Refuses, in_member};
ghost use Rattle.prof_gather.specs.Taking.{Reads, Begins};
ghost use Rattle.prof_grammar.specs.Value.{Value, Members};
ghost use Rattle.prof_time.specs.Numeral.{Numeral, IsNumber};
ghost use Rattle.prof_layout.specs.Numbers.{whole_of};
ghost use Rattle.prof_gecko_layout.specs.GeckoProfile as layout;
ghost use Rattle.prof_processes.specs.Libs.{IsLib, AreLibsOf, IsLibList};

use prof_column::{text, whole};
use prof_gather::{
    Feed, FromItems, FromMembers, GatherRefusal, Kind, Start, array, members, skip_behind,
};
use prof_gecko::Lib;
use prof_io::{NoMemory, Source, Text};
use prof_json::Event;
use prof_raw::{ListFault, Rule};
use prof_time::read_exact;
use std::alloc::Global;

/// The whole number of 64 bits that a text writes.
fn bound_within(text: &[u8]) -> Option<u64>
    requires { (m : Numeral) × IsNumber text.now m }
    ensures { result ≡ layout.bound_within (whole_of text.now) }
{
    match read_exact(text) {
        Some(bound) if bound >= 0 => Some(bound as u64),
        _ => None,
    }
}

/// The bound that the value is which this event has begun.
fn bound_begun<R: Source, W: Start>(feed: &Feed<R, W>, first: Event) -> Option<u64>
    requires { IsBegun first feed.now }
    ensures { (v : Value) → Begins feed.now v → result ≡ layout.bound_of (Some v) }
{
    match first {
        Event::Number => bound_within(feed.number_text()),
        _ => None,
    }
}

/// Reads a member's value as a bound of a library's addresses.
fn bound<R: Source, W: Start>(
    alloc: Global,
    feed: &mut Feed<R, W>,
) -> Result<Option<u64>, GatherRefusal>
    requires { IsWithin in_member feed.old }
    ensures ok { OnOk result (Passes feed.old feed.new) }
    ensures bound { IfOk result (λ b. (v : Value) × Reads feed.old feed.new v
        × (b ≡ layout.bound_of (Some v))) }
    ensures err { IfErr result (λ r. Refuses r feed.new) }
{
    let first = feed.next(alloc)?;
    let bound = bound_begun(feed, first);
    skip_behind(alloc, feed, first)?;
    Ok(bound)
}

/// What is gathered of a library's members.
#[derive(Drop)]
pub struct LibMembers {
    pub name: Option<String>,
    pub start: Option<u64>,
    pub end: Option<u64>,
}

impl LibMembers {
    ghost use Rattle.prof_grammar.specs.Value.{no_members};

    /// What is gathered of no member.
    fn none() -> Self
        ensures { IsLib no_members result }
    {
        LibMembers {
            name: None,
            start: None,
            end: None,
        }
    }

    /// The library that has these members, or the rule that they break.
    fn lib(self, alloc: Global) -> Result<Result<Lib, Rule>, NoMemory>
        ensures lib { IfOk result (λ r. (ms : Members) → IsLib ms self
            → IfOk r (λ lib. (layout.lib_rule (Value.object ms) ≡ None)
            × (lib ≡ layout.lib_of (Value.object ms)))) }
        ensures rule { IfOk result (λ r. (ms : Members) → IsLib ms self
            → IfErr r (λ rule. layout.lib_rule (Value.object ms) ≡ Some rule)) }
    {
        let LibMembers { name, start, end } = self;
        let Some(name) = name else {
            return Ok(Err(Rule::WrongKind));
        };
        let (Some(start), Some(end)) = (start, end) else {
            return Ok(Err(Rule::NumberRange));
        };
        let mut text = Text::new(alloc);
        text.push_str(name.as_str())?;
        Ok(Ok(Lib {
            name: text,
            start,
            end,
        }))
    }
}

impl FromMembers for LibMembers {
    ghost use Rattle.prof_processes.specs.Libs.{IsLib};

    ghost is = { λ ms l. IsLib ms l };

    fn take_member<R: Source, W: Start>(
        &mut self,
        alloc: Global,
        feed: &mut Feed<R, W>,
    ) -> Result<(), GatherRefusal> {
        match feed.name() {
            "name" => self.name = text(alloc, feed)?,
            "start" => self.start = bound(alloc, feed)?,
            "end" => self.end = bound(alloc, feed)?,
            _ => feed.skip_member(alloc)?,
        }
        Ok(())
    }
}

/// The libraries of a list up to the first that breaks a rule.
#[derive(Drop)]
pub struct LibList {
    pub libs: Vec<Lib>,
    pub fault: Option<ListFault>,
}

impl LibList {
    /// What is gathered where no member has the list.
    pub fn absent(alloc: Global) -> Self
        ensures { IsLibList None result }
    {
        LibList {
            libs: Vec::new(alloc),
            fault: None,
        }
    }

    /// Adds the next library, or the rule that the next item breaks.
    #[tactic(auto, using(crate::proofs::LibLists::lib_added, crate::proofs::LibLists::lib_failed))]
    fn add(&mut self, lib: Result<Lib, Rule>) -> Result<(), NoMemory>
        requires { self.old.fault ≡ None }
        ensures { OnOk result ((v : Value)
            → IfOk lib (λ lib. (layout.lib_rule v ≡ None) × (lib ≡ layout.lib_of v))
            → IfErr lib (λ rule. layout.lib_rule v ≡ Some rule)
            → (first : LibList) (vs : List Value) → AreLibsOf first vs self.old
            → AreLibsOf first (vs ++ v ∷ []) self.new) }
    {
        match lib {
            Ok(lib) => self.libs.push(lib)?,
            Err(rule) => {
                if self.libs.len() > u32::MAX as usize {
                    return Err(NoMemory);
                }
                let row = self.libs.len() as u32;
                self.fault = Some(ListFault {
                    rule,
                    row: Some(row),
                });
            }
        }
        Ok(())
    }
}

impl FromItems for LibList {
    ghost use Rattle.prof_processes.specs.Libs.{AreLibsOf};

    ghost is = { λ first vs l. AreLibsOf first vs l };

    fn take_item<R: Source, W: Start>(
        &mut self,
        alloc: Global,
        feed: &mut Feed<R, W>,
        first: Event,
    ) -> Result<(), GatherRefusal> {
        if self.fault.is_some() {
            return skip_behind(alloc, feed, first);
        }
        match first {
            Event::ObjectStart => {
                let members = members(alloc, feed, LibMembers::none())?;
                self.add(members.lib(alloc)?)?;
            }
            _ => {
                skip_behind(alloc, feed, first)?;
                self.add(Err(Rule::WrongKind))?;
            }
        }
        Ok(())
    }
}

/// Reads a member's value as the list of libraries.
pub fn lib_list<R: Source, W: Start>(
    alloc: Global,
    feed: &mut Feed<R, W>,
) -> Result<LibList, GatherRefusal>
    requires { IsWithin in_member feed.old }
    ensures ok { OnOk result (Passes feed.old feed.new) }
    ensures list { IfOk result (λ l. (v : Value) × Reads feed.old feed.new v
        × IsLibList (Some v) l) }
    ensures err { IfErr result (λ r. Refuses r feed.new) }
{
    let mut list = LibList::absent(alloc);
    match array(alloc, feed, &mut list)? {
        Kind::Array => {}
        Kind::Null | Kind::Other => list.fault = Some(whole(Rule::WrongKind)),
    }
    Ok(list)
}
