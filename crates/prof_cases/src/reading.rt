// The reading of a file of cases.
use crate::blocks::{Block, read_blocks};
use crate::case::{Call, Case, Extent, Named, Object, Sweep, Wanted};
use anyhow::{Context, Result, bail};
use std::alloc::Global;

/// The object of a word.
fn object_of(word: &str) -> Result<Object> {
    Ok(match word {
        "files" => Object::Files,
        "hall" => Object::Hall,
        "keeper" => Object::Keeper,
        "out" => Object::Out,
        "err" => Object::Err,
        _ => bail!("there is no object {word}"),
    })
}

/// The number of a call, from 1.
fn call_of(word: &str) -> Result<u32> {
    let number = word.parse::<u32>()?;
    if number == 0 {
        bail!("calls are counted from 1");
    }
    Ok(number)
}

/// `fail OBJECT NUMBER NUMBER ..`
fn push_failing(case: &mut Case, text: &str) -> Result<()> {
    let Some((object, calls)) = text.split_once(' ') else {
        bail!("what fails is OBJECT NUMBER NUMBER ..");
    };
    let object = object_of(object)?;
    for call in calls.split(' ') {
        let number = call_of(call)?;
        case.failing.push(Call { object, number })?;
    }
    Ok(())
}

/// `each OBJECT FIRST LAST`
fn sweep_of(text: &str) -> Result<Sweep> {
    let Some((object, calls)) = text.split_once(' ') else {
        bail!("a sweep is OBJECT FIRST LAST");
    };
    let Some((first, last)) = calls.split_once(' ') else {
        bail!("a sweep is OBJECT FIRST LAST");
    };
    let sweep = Sweep {
        object: object_of(object)?,
        first: call_of(first)?,
        end: call_of(last)?.saturating_add(1),
    };
    if sweep.end <= sweep.first {
        bail!("a sweep of no call");
    }
    Ok(sweep)
}

/// `piece SIZE SIZE ..`
fn push_pieces(case: &mut Case, text: &str) -> Result<()> {
    for size in text.split(' ') {
        let size = size.parse::<usize>()?;
        if size == 0 {
            bail!("a piece of nothing");
        }
        case.pieces.push(size)?;
    }
    Ok(())
}

/// `run WORD WORD ..`
fn push_words(alloc: Global, case: &mut Case, text: &str) -> Result<()> {
    for word in text.split(' ') {
        if !word.is_empty() {
            case.words.push(String::from_str(alloc, word)?)?;
        }
    }
    Ok(())
}

/// What is to be written, by the word that says how much of it.
fn wanted_of(text: &str, bytes: Vec<u8>) -> Result<Wanted> {
    let extent = match text {
        "" => Extent::Whole,
        "front" => Extent::Front,
        "cut" => Extent::Cut,
        _ => bail!("what is to be written is all, or its front, or cut"),
    };
    Ok(Wanted { bytes, extent })
}

/// Takes a line that says something of a case and gives no bytes.
fn take_words(alloc: Global, case: &mut Case, word: &str, text: &str) -> Result<()> {
    match word {
        "run" => push_words(alloc, case, text)?,
        "word" => case.words.push(String::from_str(alloc, text)?)?,
        "piece" => push_pieces(case, text)?,
        "room" => case.room = text.parse::<usize>()?,
        "fail" => push_failing(case, text)?,
        "each" => {
            if case.sweep.is_some() {
                bail!("a second sweep");
            }
            case.sweep = Some(sweep_of(text)?);
        }
        "status" => case.status = text.parse::<u8>()?,
        _ => bail!("no line begins with {word}"),
    }
    Ok(())
}

/// Takes a line that says something of a case.
fn take_block(alloc: Global, case: &mut Case, block: Block) -> Result<()> {
    let Block {
        word,
        text: name,
        bytes,
        ..
    } = block;
    match word.as_str() {
        "file" => case.files.push(Named { name, bytes })?,
        "kept" => case.kept.push(Named { name, bytes })?,
        "connection" => case.connections.push(bytes)?,
        "answer" => {
            if case.answers.len() >= case.connections.len() {
                bail!("an answer without its connection");
            }
            case.answers.push(wanted_of(name.as_str(), bytes)?)?;
        }
        "out" => case.out = wanted_of(name.as_str(), bytes)?,
        "err" => case.err = wanted_of(name.as_str(), bytes)?,
        word => {
            if !bytes.is_empty() {
                bail!("bytes below a line that takes none");
            }
            take_words(alloc, case, word, name.as_str())?;
        }
    }
    Ok(())
}

/// Takes a block that isn't the first line of a case into the last case.
fn take_into_last(alloc: Global, cases: &mut Vec<Case>, block: Block) -> Result<()> {
    let Some(case) = cases.last_mut() else {
        bail!("a line before the first case");
    };
    take_block(alloc, case, block)
}

/// Reads the cases of a text, of which there is one at least.
pub fn read_cases(rt: &HostRuntime, text: &str) -> Result<Vec<Case>> {
    let mut cases = Vec::new(rt.alloc());
    for block in read_blocks(rt, text)? {
        if block.word.as_str() == "case" {
            cases.push(Case::new(rt.alloc(), block.text))?;
        } else {
            let number = block.number;
            take_into_last(rt.alloc(), &mut cases, block).context(format_args!("line {number}"))?;
        }
    }
    if cases.is_empty() {
        bail!("no case");
    }
    Ok(cases)
}
