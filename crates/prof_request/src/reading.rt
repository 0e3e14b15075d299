//! The lines of requests, read.
ghost use Rattle.std.specs.Prelude.{◌≡◌, ◌+◌, min, take};
ghost use Rattle.prof_spell.specs.Spelling.{Reads};
ghost use Rattle.prof_request.specs.Requests.{lines, ReadsLine};
ghost use Rattle.prof_request.specs.Reading.{commands};
ghost use Rattle.prof_request.specs.declared.refusal.TheConstants.{LINE_LIMIT};

use crate::arguments::arguments;
use crate::command_word::COMMAND_WORDS;
use crate::naming::name_and_space;
use crate::refusal::{LINE_LIMIT, LineRefusal};
use crate::request::{Command, Request};
use prof_spell::{Cursor, Stop};
use std::alloc::Global;

fn command(alloc: Global, cursor: &mut Cursor<'_>) -> Result<Command, Stop>
    ensures { Reads commands cursor.old result cursor.new }
{
    let word = match cursor.one_of(&COMMAND_WORDS) {
        Ok(word) => word,
        Err(stop) => return Err(stop),
    };
    arguments(alloc, word, cursor)
}

/// A request's line, of any length.
fn request(alloc: Global, cursor: &mut Cursor<'_>) -> Result<Request, Stop>
    ensures { Reads lines cursor.old result cursor.new }
{
    let session = match name_and_space(alloc, cursor) {
        Ok(session) => session,
        Err(stop) => return Err(stop),
    };
    match command(alloc, cursor) {
        Ok(command) => Ok(Request { session, command }),
        Err(stop) => Err(stop),
    }
}

/// As much of a line as is looked at: a byte more than the limit.
fn front_of(line: &[u8]) -> &[u8]
    ensures { result.now ≡ take (LINE_LIMIT + 1) line.now }
{
    if line.len() > LINE_LIMIT as usize {
        &line[..LINE_LIMIT as usize + 1]
    } else {
        line
    }
}

/// The place behind so many bytes, but at most the limit.
fn capped(read: usize) -> u64
    ensures { result ≡ min read LINE_LIMIT }
{
    if read as u64 <= LINE_LIMIT {
        read as u64
    } else {
        LINE_LIMIT
    }
}

/// The request of a line. Of a line that is too long, its first bytes alone are looked at.
pub fn read_request(alloc: Global, line: &[u8]) -> Result<Request, LineRefusal>
    ensures { ReadsLine line.now result }
{
    let front = front_of(line);
    let mut cursor = Cursor::new(front);
    match request(alloc, &mut cursor) {
        Ok(request) => {
            if cursor.len() == 0 && line.len() as u64 <= LINE_LIMIT {
                return Ok(request);
            }
            Err(LineRefusal::BadText {
                at: capped(front.len() - cursor.len()),
            })
        }
        Err(Stop::Fault) => Err(LineRefusal::BadText {
            at: capped(front.len() - cursor.len()),
        }),
        Err(Stop::NoMemory) => Err(LineRefusal::NoMemory),
    }
}
