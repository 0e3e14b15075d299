//! The list of a thread's texts, with an index from each text to its first place.
ghost use Rattle.std.specs.Prelude.{◌≡◌, ℕ, List, ◌+◌, ◌<◌, ◌≤◌, ◌^◌, length, slice_get, option_copied, Some, IfOk, OnOk, OnErr, map, string_bytes};
ghost use Rattle.std.specs.Str.{bytes_eq};
ghost use Rattle.indexmap.specs.IndexMap.{get_by};
ghost use Rattle.indexmap.specs.IndexMap.{IsUnchanged};
ghost use Rattle.prof_raw.specs.Texts.{entry_text, first_place, with_text, entered, IsPrefixOf};

use indexmap::IndexMap;
use prof_io::NoMemory;
use std::alloc::Global;
use std::marker::Model;

/// A list of texts. A text that stands at several places is kept once.
#[derive(Drop)]
pub struct Strings {
    /// Each text with its first place.
    index: IndexMap<String, u32>,
    /// For each place the entry of its text.
    places: Vec<u32>,
}

impl Model for Strings {
    ghost use Rattle.std.specs.Prelude.{ℕ, List, length, ◌<◌, ◌≤◌, ◌≡◌, ◌^◌, All, string_bytes};
    ghost use Rattle.indexmap.specs.IndexMap.{get_by};
    ghost use Rattle.std.specs.Str.{bytes_eq};
    ghost use Rattle.prof_raw.specs.Texts.{texts_of, first_place};

    ghost Value = { List (List ℕ) };

    ghost view = { λ s. texts_of (λ p. string_bytes p.0) s.index.entries s.places.items };

    ghost invariant = { λ s. (length s.places.items < 2 ^ 32)
        × (length s.index.entries ≤ length s.places.items)
        × All (λ e. e < length s.index.entries) s.places.items
        × ((q : List ℕ) → get_by (λ k. bytes_eq q (string_bytes k)) s.index
        ≡ first_place (texts_of (λ p. string_bytes p.0) s.index.entries s.places.items) q) };
}

impl Strings {
    /// The list of these texts.
    pub fn of(alloc: Global, texts: Vec<String>) -> Result<Strings, NoMemory>
        requires { length texts.items < 2 ^ 32 }
        ensures { IfOk result (λ strings. strings ≡ map string_bytes texts.items) }
    {
        let mut index = IndexMap::new(alloc);
        let mut places = Vec::with_capacity(alloc, texts.len())?;
        for text in texts {
            let place = places.len() as u32;
            let entry = entry_of(&mut index, text, place)?;
            places.push(entry)?;
        }
        Ok(Strings { index, places })
    }

    /// The first place of a text, which is appended where it has none. Where there is no memory nothing changes.
    pub fn place_or_push(&mut self, alloc: Global, text: &str) -> Result<u32, NoMemory>
        requires { length self.old < 4294967295 }
        ensures place { IfOk result (λ i. first_place self.new text.now ≡ Some i) }
        ensures with { OnOk result (self.new ≡ with_text self.old text.now) }
        ensures refused { OnErr result (self.new ≡ self.old) }
    {
        if let Some(place) = self.place(text) {
            return Ok(place);
        }
        let text = String::from_str(alloc, text)?;
        self.places.reserve(1)?;
        let place = self.places.len() as u32;
        let entry = entry_of(&mut self.index, text, place)?;
        self.places.push_reserved(entry);
        Ok(place)
    }

    /// How many places there are.
    pub fn count(&self) -> u32
        ensures { result ≡ length self.now }
    {
        self.places.len() as u32
    }

    /// The text at a place, and none past the end.
    pub fn get(&self, i: u32) -> Option<&str>
        ensures { option_copied result ≡ slice_get self.now i }
    {
        let entry = *self.places.get(i as usize)?;
        let (text, _) = self.index.get_index(entry as usize)?;
        Some(text.as_str())
    }

    /// The first place of a text.
    pub fn place(&self, text: &str) -> Option<u32>
        ensures { result ≡ first_place self.now text.now }
    {
        self.index.get(text).copied()
    }
}

/// The entry of a text: that which is there, or a new one with this place.
fn entry_of(index: &mut IndexMap<String, u32>, text: String, place: u32) -> Result<u32, NoMemory>
    requires { length index.old.entries < 4294967295 }
    ensures text { IfOk result (λ e.
        entry_text (λ p. string_bytes p.0) index.new.entries e ≡ string_bytes text) }
    ensures within { IfOk result (λ e. e < length index.new.entries) }
    ensures kept { OnOk result (IsPrefixOf index.old.entries index.new.entries) }
    ensures few { OnOk result (length index.new.entries ≤ length index.old.entries + 1) }
    ensures refused { OnErr result (IsUnchanged index.old index.new) }
    ensures places { OnOk result ((q : List ℕ) → get_by (λ k. bytes_eq q (string_bytes k)) index.new
        ≡ entered (get_by (λ k. bytes_eq q (string_bytes k)) index.old)
        q (string_bytes text) place) }
{
    match index.get_index_of(text.as_str()) {
        Some(entry) => Ok(entry as u32),
        None => {
            let entry = index.len() as u32;
            index.insert(text, place)?;
            Ok(entry)
        }
    }
}
