// Texts by their keys.
ghost use Rattle.std.specs.Prelude.{◌≡◌, [], None, Some, IfOk, OnOk, OnErr};
ghost use Rattle.prof_io.specs.Shelf.{file_at};
ghost use Rattle.prof_io.specs.Keep.{Puts};

use prof_io::{NoMemory, Text, find};
use std::alloc::Global;

/// Texts by their keys, each key once, and the last answer that was asked for.
#[derive(Drop)]
pub struct Texts {
    pub entries: Vec<(Text, Text)>,
    pub got: Option<Text>,
}

impl Texts {
    /// No texts.
    pub fn new(alloc: Global) -> Self
        ensures entries { result.entries.items ≡ [] }
        ensures got { result.got ≡ None }
    {
        Texts {
            entries: Vec::new(alloc),
            got: None,
        }
    }

    /// Sets the text of a key.
    pub fn put(&mut self, alloc: Global, key: &str, text: &str) -> Result<(), NoMemory>
        ensures ok { OnOk result (Puts (Some self.old.entries.items) (Some self.new.entries.items) key.now text.now) }
        ensures err { OnErr result (self.new.entries.items ≡ self.old.entries.items) }
        ensures got { self.new.got ≡ self.old.got }
    {
        let text = copied(alloc, text)?;
        let place = find(&self.entries, key);
        if place < self.entries.len() {
            self.entries[place].1 = text;
            return Ok(());
        }
        let key = copied(alloc, key)?;
        self.entries.push((key, text))?;
        Ok(())
    }

    /// The text of a key, which is then the last answer too.
    pub fn get(&mut self, alloc: Global, key: &str) -> Result<Option<Text>, NoMemory>
        ensures ok { IfOk result (λ text. text ≡ file_at self.old.entries.items key.now) }
        ensures got { IfOk result (λ text. self.new.got ≡ text) }
        ensures err { OnErr result (self.new.got ≡ self.old.got) }
        ensures entries { self.new.entries ≡ self.old.entries }
    {
        let text = text_of(alloc, &self.entries, key)?;
        self.got = text_of(alloc, &self.entries, key)?;
        Ok(text)
    }
}

fn copied(alloc: Global, text: &str) -> Result<Text, NoMemory>
    ensures { IfOk result (λ copy. copy ≡ text.now) }
{
    let mut copy = Text::new(alloc);
    copy.push_str(text)?;
    Ok(copy)
}

// A copy of the text of a key.
fn text_of(alloc: Global, entries: &[(Text, Text)], key: &str) -> Result<Option<Text>, NoMemory>
    ensures { IfOk result (λ text. text ≡ file_at entries.now key.now) }
{
    let place = find(entries, key);
    if place >= entries.len() {
        return Ok(None);
    }
    let text = entries[place].1.copy(alloc)?;
    Ok(Some(text))
}
