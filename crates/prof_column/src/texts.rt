//! Lists of strings, and single texts.
ghost use Rattle.std.specs.Prelude.{◌≡◌, ◌≤◌, OnOk, IfOk, IfErr, Option, Some, None, string_bytes, vec_len};
ghost use Rattle.std.specs.Option.{option_map};
ghost use Rattle.prof_grammar.specs.Value.{Value};
ghost use Rattle.prof_layout.specs.Tables.{strings_fault};
ghost use Rattle.prof_gather.specs.Taking.{Reads};
ghost use Rattle.prof_column.specs.Kept.{string_of, IsTextList};
ghost use Rattle.prof_gather.specs.Feeding.{IsWithin, IsBegun, Passes, Finishes, Refuses, in_member};

use crate::columns::state_of;
use crate::list::TextList;
use prof_gather::{Feed, FromItems, GatherRefusal, Start, array, skip_behind};
use prof_io::Source;
use prof_json::Event;
use prof_raw::{ListFault, MOST_STRINGS, Rule, State};
use std::alloc::Global;

/// Reads a member's value as a text, and gives none where it is no string.
pub fn text<R: Source, W: Start>(
    alloc: Global,
    feed: &mut Feed<R, W>,
) -> Result<Option<String>, GatherRefusal>
    requires { IsWithin in_member feed.old }
    ensures ok { OnOk result (Passes feed.old feed.new) }
    ensures text { IfOk result (λ t. (v : Value) × Reads feed.old feed.new v × (option_map string_bytes t ≡ string_of (Some v))) }
    ensures err { IfErr result (λ r. Refuses r feed.new) }
{
    let first = feed.next(alloc)?;
    match first {
        Event::Str => {
            let text = String::from_str(alloc, feed.string())?;
            Ok(Some(text))
        }
        _ => {
            skip_behind(alloc, feed, first)?;
            Ok(None)
        }
    }
}

impl TextList {
    pub fn absent(alloc: Global) -> Self
        ensures { IsTextList None result }
    {
        TextList {
            state: State::Absent,
            texts: Vec::new(alloc),
            bad: None,
        }
    }

    /// The first rule that the list breaks.
    pub fn fault(&self) -> Option<ListFault>
        ensures { (member : Option Value) → IsTextList member self.now → result ≡ strings_fault member }
    {
        match self.state {
            State::Absent => Some(whole(Rule::Missing)),
            State::NotArray => Some(whole(Rule::WrongKind)),
            State::Array if self.texts.len() > MOST_STRINGS as usize => Some(whole(Rule::RowLimit)),
            State::Array => Some(ListFault {
                rule: Rule::WrongKind,
                row: Some(self.bad?),
            }),
        }
    }
}

/// A fault of a list as a whole.
pub fn whole(rule: Rule) -> ListFault
    ensures { result ≡ record { rule = rule; row = None } }
{
    ListFault { rule, row: None }
}

impl FromItems for TextList {
    ghost use Rattle.prof_column.specs.Columns.{IsTextListOf};

    ghost is = { λ first vs l. IsTextListOf first vs l };

    fn take_item<R: Source, W: Start>(
        &mut self,
        alloc: Global,
        feed: &mut Feed<R, W>,
        first: Event,
    ) -> Result<(), GatherRefusal> {
        if self.texts.len() > MOST_STRINGS as usize {
            return skip_behind(alloc, feed, first);
        }
        match first {
            Event::Str => {
                let text = String::from_str(alloc, feed.string())?;
                self.texts.push(text)?;
                Ok(())
            }
            _ => {
                skip_behind(alloc, feed, first)?;
                let row = self.texts.len() as u32;
                self.bad = self.bad.or(Some(row));
                self.texts.push(String::new(alloc))?;
                Ok(())
            }
        }
    }
}

/// Reads a member's value as a list of strings.
pub fn text_list<R: Source, W: Start>(
    alloc: Global,
    feed: &mut Feed<R, W>,
) -> Result<TextList, GatherRefusal>
    requires { IsWithin in_member feed.old }
    ensures ok { OnOk result (Passes feed.old feed.new) }
    ensures list { IfOk result (λ l. (v : Value) × Reads feed.old feed.new v × IsTextList (Some v) l) }
    ensures err { IfErr result (λ r. Refuses r feed.new) }
{
    let mut list = TextList::absent(alloc);
    let kind = array(alloc, feed, &mut list)?;
    list.state = state_of(kind, true);
    Ok(list)
}
