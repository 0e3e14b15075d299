//! Files with the names that they go by.
ghost use Rattle.std.specs.Prelude.{◌≡◌, [], ◌∷◌, ◌++◌, OnOk, OnErr, false, option_map, true};
ghost use Rattle.std.specs.List.{list_all, list_any};
ghost use Rattle.std.specs.Str.{bytes_eq};
ghost use Rattle.prof_words.specs.Files.{files_of, is_name, is_name_byte, named_file, names_differ};
ghost use Rattle.prof_words.specs.Reading.{Reads, texts};

use crate::order::WordRefusal;
use prof_io::{NoMemory, Text};
use std::alloc::Global;
use std::marker::Model;

/// How many bytes a name has at most.
const NAME_LIMIT: usize = 64;

/// Files, each with the name that it goes by. No name comes twice.
#[derive(Drop)]
pub struct NamedFiles {
    files: Vec<(Text, Text)>,
}

impl Model for NamedFiles {
    ghost use Rattle.std.specs.Prelude.{◌≡◌, ℕ, List, true};
    ghost use Rattle.prof_words.specs.Files.{names_differ};

    ghost Value = { List (List ℕ × List ℕ) };

    ghost view = { λ f. f.files.items };

    ghost invariant = { λ f. names_differ f.files.items ≡ true };
}

impl NamedFiles {
    /// None yet. It takes no memory.
    pub fn new(alloc: Global) -> Self
        ensures { result ≡ [] }
    {
        NamedFiles {
            files: Vec::new(alloc),
        }
    }

    /// Adds a file by a name that none has.
    pub fn push(&mut self, alloc: Global, name: &str, file: &str) -> Result<(), NoMemory>
        requires { list_any (λ f. bytes_eq f.0 name.now) self.old ≡ false }
        ensures ok { OnOk result (self.new ≡ self.old ++ (name.now, file.now) ∷ []) }
        ensures err { OnErr result (self.new ≡ self.old) }
    {
        let mut entry = (Text::new(alloc), Text::new(alloc));
        entry.0.push_str(name)?;
        entry.1.push_str(file)?;
        self.files.push(entry)?;
        Ok(())
    }

    /// What each of these keeps: no name comes twice. The call does nothing.
    pub fn keeps(&self)
        ensures { names_differ self.now ≡ true }
    {
        let _ = &self.files;
    }

    pub fn as_slice(&self) -> &[(Text, Text)]
        ensures { result.now ≡ self.now }
    {
        self.files.as_slice()
    }

    /// Whether one of the files goes by that name.
    fn has(&self, name: &str) -> bool
        ensures { result ≡ list_any (λ f. bytes_eq f.0 name.now) self.now }
    {
        self.files.iter().any(|file| file.0.as_str() == name)
    }
}

/// Whether a name may have that byte.
fn is_name_byte(byte: u8) -> bool
    ensures { result ≡ is_name_byte byte }
{
    byte.is_ascii_lowercase() || byte.is_ascii_digit() || byte == b'_' || byte == b'-'
}

fn are_name_bytes(bytes: &[u8]) -> bool
    ensures { result ≡ list_all is_name_byte bytes.now }
{
    bytes.iter().all(|byte| is_name_byte(*byte))
}

/// Whether the word can be a name.
fn is_name(word: &str) -> bool
    ensures { result ≡ is_name word.now }
{
    !word.is_empty() && word.len() <= NAME_LIMIT && are_name_bytes(word.as_bytes())
}

/// The name and the file of a word, around its first `=`.
fn named_file(word: &str) -> Option<(&str, &str)>
    ensures { option_map (λ f. (f.0.now, f.1.now)) result ≡ named_file word.now }
{
    match word.split_once('=') {
        Some((name, file)) if is_name(name) && !file.is_empty() => Some((name, file)),
        _ => None,
    }
}

/// The files of the words, whose names differ.
pub fn files_of(alloc: Global, words: &[&str]) -> Result<NamedFiles, WordRefusal>
    ensures { Reads (files_of (texts words.now)) result }
{
    let mut files = NamedFiles::new(alloc);
    for word in words {
        let Some((name, file)) = named_file(word) else {
            return Err(WordRefusal::Usage);
        };
        if files.has(name) {
            return Err(WordRefusal::Usage);
        }
        match files.push(alloc, name, file) {
            Ok(()) => {}
            Err(_) => return Err(WordRefusal::NoMemory),
        }
    }
    Ok(files)
}
