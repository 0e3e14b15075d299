// What comes of a text.
ghost use Rattle.std.specs.Prelude.{◌≡◌};

use crate::case::Kind;
use anyhow::{Result, bail};
use prof_address::{TextRefusal, read_transforms, read_view, write_transforms, write_view};
use prof_keep::{read_saved, write_saved};
use prof_request::{LineRefusal, read_request};
use std::alloc::Global;

#[derive(Drop)]
pub enum Outcome {
    /// It was read. This is what was written back.
    Read(String),
    /// It is wrong at this byte.
    Wrong(u64),
}

/// A text that was refused.
fn refused(refusal: TextRefusal) -> Result<Outcome> {
    match refusal {
        TextRefusal::BadAddress { at } => Ok(Outcome::Wrong(at)),
        TextRefusal::NoMemory => bail!("memory ran out"),
    }
}

fn of_transforms(alloc: Global, text: &str) -> Result<Outcome> {
    match read_transforms(alloc, text) {
        Ok(list) => {
            let again = write_transforms(alloc, list.as_slice())?;
            Ok(Outcome::Read(String::from_str(alloc, again.as_str())?))
        }
        Err(refusal) => refused(refusal),
    }
}

fn of_view(alloc: Global, text: &str) -> Result<Outcome> {
    match read_view(alloc, text) {
        Ok(view) => {
            let again = write_view(alloc, &view)?;
            Ok(Outcome::Read(String::from_str(alloc, again.as_str())?))
        }
        Err(refusal) => refused(refusal),
    }
}

fn of_saved(alloc: Global, text: &str) -> Result<Outcome> {
    match read_saved(alloc, text) {
        Ok(saved) => {
            let again = write_saved(alloc, &saved)?;
            Ok(Outcome::Read(String::from_str(alloc, again.as_str())?))
        }
        Err(refusal) => refused(refusal),
    }
}

/// Lines are not written. Of a request that was read an equal one is made, and has to be told for the same.
fn of_line(alloc: Global, line: &[u8]) -> Result<Outcome> {
    match read_request(alloc, line) {
        Ok(request) => {
            let again = request.command.copy(alloc)?;
            if !again.is_same(&request.command) {
                bail!("a copy of the command is told for another");
            }
            Ok(Outcome::Read(String::from_str(alloc, str::from_utf8(line)?)?))
        }
        Err(LineRefusal::BadText { at }) => Ok(Outcome::Wrong(at)),
        Err(LineRefusal::NoMemory) => bail!("memory ran out"),
    }
}

/// What comes of a text of a kind.
pub fn outcome_of(alloc: Global, kind: Kind, text: &[u8]) -> Result<Outcome> {
    match kind {
        Kind::Transforms => of_transforms(alloc, str::from_utf8(text)?),
        Kind::View => of_view(alloc, str::from_utf8(text)?),
        Kind::Saved => of_saved(alloc, str::from_utf8(text)?),
        Kind::Line => of_line(alloc, text),
    }
}
