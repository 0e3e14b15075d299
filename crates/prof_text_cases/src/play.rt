// The playing of cases.
use crate::case::{Case, Kind, Wanted};
use crate::outcome::{Outcome, outcome_of};
use anyhow::Result;
use std::alloc::Global;

/// How many texts came out as they were to, and how many didn't.
#[derive(Clone, Copy)]
pub struct Score {
    pub passed: u64,
    pub failed: u64,
}

/// Whether this is the text as it is written: a saved session of the first form is written in the second.
fn is_written(kind: Kind, text: &[u8], again: &[u8]) -> bool {
    if kind == Kind::Saved
        && let Some(rest) = text.strip_prefix(b"profdesk-session 1")
    {
        return again.strip_prefix(b"profdesk-session 2") == Some(rest);
    }
    text == again
}

/// Reads a text that has to be wrong at a byte, or, for none, to be read, and tells what came otherwise.
fn difference_of(
    alloc: Global,
    kind: Kind,
    text: &[u8],
    wrong: Option<u64>,
) -> Result<Option<String>> {
    let len = text.len();
    Ok(match (outcome_of(alloc, kind, text)?, wrong) {
        (Outcome::Read(again), None) => {
            if is_written(kind, text, again.as_str().as_bytes()) {
                return Ok(None);
            }
            let again = again.as_str();
            Some(format!(in alloc; "its {len} bytes are written back as {again:?}")?)
        }
        (Outcome::Read(_), Some(at)) => {
            Some(format!(in alloc; "its {len} bytes are read, and not wrong at {at}")?)
        }
        (Outcome::Wrong(at), None) => {
            Some(format!(in alloc; "its {len} bytes are wrong at {at}, and not read")?)
        }
        (Outcome::Wrong(at), Some(wanted)) => {
            if at == wanted {
                return Ok(None);
            }
            Some(format!(in alloc; "its {len} bytes are wrong at {at}, and not at {wanted}")?)
        }
    })
}

/// Plays one text, and counts it.
fn play_text(
    alloc: Global,
    kind: Kind,
    text: &[u8],
    wrong: Option<u64>,
    score: &mut Score,
) -> Result<Option<String>> {
    let difference = difference_of(alloc, kind, text, wrong)?;
    if difference.is_some() {
        score.failed = score.failed.saturating_add(1);
    } else {
        score.passed = score.passed.saturating_add(1);
    }
    Ok(difference)
}

/// Plays a text and each front of it that is a text, and tells of the last difference.
fn play_fronts(
    alloc: Global,
    case: &Case,
    whole: &[usize],
    score: &mut Score,
) -> Result<Option<String>> {
    let text = case.bytes.as_slice();
    let mut told = play_text(alloc, case.kind, text, None, score)?;
    for len in 0..text.len() {
        let front = &text[..len];
        if case.kind != Kind::Line && str::from_utf8(front).is_err() {
            continue;
        }
        let wrong = if whole.contains(&len) {
            None
        } else {
            Some(len as u64)
        };
        let difference = play_text(alloc, case.kind, front, wrong, score)?;
        if difference.is_some() {
            told = difference;
        }
    }
    Ok(told)
}

/// Plays a case, and tells of a difference between what came and what was to come.
pub fn play_case(alloc: Global, case: &Case, score: &mut Score) -> Result<Option<String>> {
    let text = case.bytes.as_slice();
    match &case.wanted {
        Wanted::Read => play_text(alloc, case.kind, text, None, score),
        Wanted::Wrong(at) => play_text(alloc, case.kind, text, Some(*at), score),
        Wanted::Fronts(whole) => play_fronts(alloc, case, whole.as_slice(), score),
    }
}
