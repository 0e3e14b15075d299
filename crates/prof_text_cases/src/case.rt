// A case: a text of a kind, and what has to come of it.
use crate::escapes::push_text;
use anyhow::{Result, bail};
use std::alloc::Global;

/// The kinds of texts.
#[derive(Clone, Copy, PartialEq, Eq)]
pub enum Kind {
    Transforms,
    View,
    Saved,
    Line,
}

/// What has to come of a text.
#[derive(Drop)]
pub enum Wanted {
    /// It is read, and written back as it was.
    Read,
    /// It is wrong at this byte.
    Wrong(u64),
    /// It is read, and so are its fronts of these lengths; each other front of it is wrong at its own end.
    Fronts(Vec<usize>),
}

#[derive(Drop)]
pub struct Case {
    pub kind: Kind,
    pub wanted: Wanted,
    pub bytes: Vec<u8>,
}

fn kind_of(word: &str) -> Result<Kind> {
    Ok(match word {
        "transforms" => Kind::Transforms,
        "view" => Kind::View,
        "saved" => Kind::Saved,
        "line" => Kind::Line,
        _ => bail!("there is no kind {word}"),
    })
}

/// Numbers with commas between.
fn lengths_of(alloc: Global, text: &str) -> Result<Vec<usize>> {
    let mut lengths = Vec::new(alloc);
    for number in text.split(',') {
        lengths.push(number.parse::<usize>()?)?;
    }
    Ok(lengths)
}

fn wanted_of(alloc: Global, word: &str) -> Result<Wanted> {
    if let Some(lengths) = word.strip_prefix("fronts:") {
        return Ok(Wanted::Fronts(lengths_of(alloc, lengths)?));
    }
    Ok(match word {
        "ok" => Wanted::Read,
        "fronts" => Wanted::Fronts(Vec::new(alloc)),
        _ => Wanted::Wrong(word.parse::<u64>()?),
    })
}

/// The case of a line: `KIND WANTED TEXT`. A text that is empty has no blank before it.
pub fn case_of(alloc: Global, line: &str) -> Result<Case> {
    let Some((kind, rest)) = line.split_once(' ') else {
        bail!("a case is KIND WANTED TEXT");
    };
    let (wanted, text) = rest.split_once(' ').unwrap_or((rest, ""));
    let mut bytes = Vec::new(alloc);
    push_text(&mut bytes, text)?;
    Ok(Case {
        kind: kind_of(kind)?,
        wanted: wanted_of(alloc, wanted)?,
        bytes,
    })
}
