//! Where the terms of a search occur: in texts, and in the names of a thread's functions.
ghost use Rattle.std.specs.Prelude.{◌≡◌, ℕ, ◌<◌, ◌+◌, ◌==◌, ◌∷◌, [], List, length, map, replicate, None, Some, OnOk, IfOk, slice_get, string_bytes};
ghost use Rattle.std.specs.Str.{str_to_ascii_lowercase};
ghost use Rattle.std.specs.List.{list_any};
ghost use Rattle.prof_path.specs.Terms.{has_within};
ghost use Rattle.prof_path.specs.Lowered.{has_lowered, string_at, sought, IsReady, has_in_own, has_in_resource};
ghost use Rattle.prof_path.specs.Finals.{occurs_in};

use crate::lists::TermList;
use memchr::memmem;
use prof_io::{NoMemory, Text};
use prof_tables::{Strings, Thread};
use std::alloc::{AllocError, Global};

/// Looks for the terms of a search, whatever the case of their ASCII letters.
#[derive(Drop)]
pub struct Seeker {
    /// The terms in lower case.
    terms: Vec<String>,
    /// A text in lower case, in memory that serves the next one too.
    lowered: Vec<u8>,
    /// Of each string whether some term occurs in it, where that was looked for.
    known: Vec<Option<bool>>,
}

/// Whether a text has a term somewhere, byte for byte.
fn occurs(text: &[u8], term: &[u8]) -> bool
    ensures { result ≡ has_within term.now text.now }
{
    memmem::find(text, term).is_some()
}

/// Whether a text has one of these terms somewhere, byte for byte.
fn some_occurs(text: &[u8], terms: &[String]) -> bool
    ensures { result ≡ list_any (λ term. has_within term text.now) (map string_bytes terms.now) }
{
    for term in terms {
        if occurs(text, term.as_bytes()) {
            return true;
        }
    }
    false
}

fn lowered_terms(alloc: Global, terms: &TermList) -> Result<Vec<String>, AllocError>
    ensures { IfOk result (λ v. map string_bytes v.items ≡ map str_to_ascii_lowercase terms.now) }
{
    let mut lowered = Vec::new(alloc);
    for term in terms.as_slice() {
        lowered.push(term.as_str().to_ascii_lowercase(alloc)?)?;
    }
    Ok(lowered)
}

fn nones(alloc: Global, count: usize) -> Result<Vec<Option<bool>>, AllocError>
    ensures { IfOk result (λ v. v.items ≡ replicate count None) }
{
    vec![in alloc; None; count]
}

impl Seeker {
    /// Looks for these terms, in texts and in these strings.
    pub fn new(alloc: Global, strings: &Strings, terms: &TermList) -> Result<Self, AllocError>
        ensures terms { IfOk result (λ s. sought s ≡ map str_to_ascii_lowercase terms.now) }
        ensures ready { IfOk result (IsReady strings.now) }
    {
        Ok(Seeker {
            terms: lowered_terms(alloc, terms)?,
            lowered: Vec::new(alloc),
            known: nones(alloc, strings.count() as usize)?,
        })
    }

    /// Whether there is no term to look for.
    pub fn is_empty(&self) -> bool
        ensures { result ≡ (length (sought self.now) == 0) }
    {
        self.terms.is_empty()
    }

    /// Whether some term occurs in a text.
    pub fn occurs_in(&mut self, text: &str) -> Result<bool, AllocError>
        ensures terms { sought self.new ≡ sought self.old }
        ensures known { self.new.known.items ≡ self.old.known.items }
        ensures value { IfOk result (λ b. b ≡ has_lowered (sought self.old) text.now) }
    {
        self.lowered.clear();
        self.lowered.extend_from_slice(text.as_bytes())?;
        self.lowered.as_mut_slice().make_ascii_lowercase();
        Ok(some_occurs(self.lowered.as_slice(), self.terms.as_slice()))
    }

    /// Whether some term occurs in a string, which is looked at each time.
    fn occurs_at(&mut self, strings: &Strings, place: u32) -> Result<bool, AllocError>
        requires { place < length strings.now }
        ensures terms { sought self.new ≡ sought self.old }
        ensures known { self.new.known.items ≡ self.old.known.items }
        ensures value { IfOk result (λ b. b ≡ has_lowered (sought self.old) (string_at strings.now place)) }
    {
        match strings.get(place) {
            Some(text) => self.occurs_in(text),
            None => Ok(false),
        }
    }

    /// Whether some term occurs in the string at a place, which is looked for once.
    pub fn occurs_in_string(&mut self, strings: &Strings, place: u32) -> Result<bool, AllocError>
        requires place { place < length strings.now }
        requires ready { IsReady strings.now self.old }
        ensures terms { sought self.new ≡ sought self.old }
        ensures ready { OnOk result (IsReady strings.now self.new) }
        ensures value { IfOk result (λ b. b ≡ has_lowered (sought self.old) (string_at strings.now place)) }
    {
        if let Some(occurs) = self.known[place as usize] {
            return Ok(occurs);
        }
        let occurs = self.occurs_at(strings, place)?;
        self.known[place as usize] = Some(occurs);
        Ok(occurs)
    }
}
