//! The texts of marker payloads.
ghost use Rattle.std.specs.Prelude.{◌≡◌, ◌≤◌, ◌∷◌, ◌++◌, [], OnOk, IfOk, vec_len};
ghost use Rattle.prof_schema.specs.Fields.{field_texts};

use indexmap::IndexMap;
use prof_column::text;
use prof_gather::{Feed, FromMembers, GatherRefusal, Start};
use prof_io::{NoMemory, Source, Text};
use std::alloc::Global;

/// The members of a marker's data, in the order in which their names come first, each with its last value where that is
/// a string.
#[derive(Drop)]
pub struct MarkerFields {
    fields: IndexMap<String, Option<String>>,
}

impl MarkerFields {
    ghost use Rattle.prof_grammar.specs.Value.{no_members};
    ghost use Rattle.prof_schema.specs.Fields.{AreFields};

    /// What is gathered of no member.
    pub fn none(alloc: Global) -> Self
        ensures { AreFields no_members result }
    {
        MarkerFields {
            fields: IndexMap::new(alloc),
        }
    }

    /// Adds the values that are strings behind the other texts, and gives their range.
    pub fn add_texts(&self, alloc: Global, texts: &mut Vec<Text>) -> Result<(u32, u32), NoMemory>
        ensures texts { OnOk result (texts.new.items ≡ texts.old.items ++ field_texts self.now) }
        ensures range { IfOk result (λ r. (r.0 ≡ vec_len texts.old) × (r.1 ≡ vec_len texts.new)) }
        ensures grows { vec_len texts.old ≤ vec_len texts.new }
    {
        let start = count_of(texts.len())?;
        for value in self.fields.values() {
            if let Some(text) = value {
                add_text(alloc, texts, text.as_str())?;
            }
        }
        let end = count_of(texts.len())?;
        Ok((start, end))
    }
}

impl FromMembers for MarkerFields {
    ghost use Rattle.prof_schema.specs.Fields.{AreFields};

    ghost is = { λ ms f. AreFields ms f };

    fn take_member<R: Source, W: Start>(
        &mut self,
        alloc: Global,
        feed: &mut Feed<R, W>,
    ) -> Result<(), GatherRefusal> {
        let name = String::from_str(alloc, feed.name())?;
        let value = text(alloc, feed)?;
        let _earlier = self.fields.insert(name, value)?;
        Ok(())
    }
}

/// A count that fits. A profile's text is too short for more than a u32 counts.
pub fn count_of(count: usize) -> Result<u32, NoMemory>
    ensures { IfOk result (λ n. n ≡ count) }
{
    if count > u32::MAX as usize {
        return Err(NoMemory);
    }
    Ok(count as u32)
}

/// Adds a text behind the others.
fn add_text(alloc: Global, texts: &mut Vec<Text>, text: &str) -> Result<(), NoMemory>
    ensures text { OnOk result (texts.new.items ≡ texts.old.items ++ text.now ∷ []) }
    ensures grows { vec_len texts.old ≤ vec_len texts.new }
{
    let mut copy = Text::new(alloc);
    copy.push_str(text)?;
    texts.push(copy)?;
    Ok(())
}
