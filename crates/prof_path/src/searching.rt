//! The terms of a search.
ghost use Rattle.std.specs.Prelude.{◌≡◌, ◌-◌, ◌<◌, ◌≤◌, true, length, slice_index, IfOk};
ghost use Rattle.std.specs.List.{prefix_len, suffix_len};
ghost use Rattle.prof_path.specs.Terms.{is_blank, trimmed, terms_of, is_long_search};

use crate::lists::TermList;
use prof_io::{NoMemory, Text};
use std::alloc::Global;

const MOST_BYTES: usize = 256;

const MOST_TERMS: usize = 8;

/// A space or a tab.
fn is_blank(byte: u8) -> bool
    ensures { result ≡ is_blank byte }
{
    byte == b' ' || byte == b'\t'
}

/// How many spaces and tabs a text begins with.
fn leading_blanks(text: &[u8]) -> usize
    ensures count { result ≡ prefix_len is_blank text.now }
    ensures blank { 0 < result → is_blank (slice_index text.now (result - 1)) ≡ true }
{
    let mut count = 0;
    while count < text.len() && is_blank(text[count]) {
        count += 1;
    }
    count
}

/// The length of a text without the spaces and tabs at its end.
fn length_before_blanks(text: &[u8]) -> usize
    ensures count { result ≡ length text.now - suffix_len is_blank text.now }
    ensures blank { result < length text.now → is_blank (slice_index text.now result) ≡ true }
{
    let mut end = text.len();
    while end > 0 && is_blank(text[end - 1]) {
        end -= 1;
    }
    end
}

/// A text without the spaces and tabs at its two ends.
fn trimmed(text: &str) -> &str
    ensures { result.now ≡ trimmed text.now }
{
    let rest = &text[leading_blanks(text.as_bytes())..];
    &rest[..length_before_blanks(rest.as_bytes())]
}

/// The terms of a search: the pieces between its commas, trimmed of spaces and tabs, without the empty ones.
pub fn terms(alloc: Global, text: &str) -> Result<TermList, NoMemory>
    ensures { IfOk result (λ list. list ≡ terms_of text.now) }
{
    let mut list = TermList::new(alloc);
    for piece in text.split(',') {
        let term = trimmed(piece);
        if !term.is_empty() {
            let mut item = Text::new(alloc);
            item.push_str(term)?;
            list.push(item)?;
        }
    }
    Ok(list)
}

/// How many terms a short search has.
fn count_of_terms(text: &str) -> usize
    requires { length text.now ≤ 256 }
    ensures { result ≡ length (terms_of text.now) }
{
    let mut count = 0;
    for piece in text.split(',') {
        if !trimmed(piece).is_empty() {
            count += 1;
        }
    }
    count
}

/// Whether a search is over 256 bytes or 8 terms.
pub fn is_long_search(text: &str) -> bool
    ensures { result ≡ is_long_search text.now }
{
    text.len() > MOST_BYTES || count_of_terms(text) > MOST_TERMS
}
