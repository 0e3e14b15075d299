//! What stands behind the words of commands.
ghost use Rattle.prof_spell.specs.Spelling.{Reads};
ghost use Rattle.prof_spell.specs.Pieces.{signed};
ghost use Rattle.prof_address.specs.declared.kind.Form.{Form};
ghost use Rattle.prof_address.specs.Transforms.{u32s, transforms};
ghost use Rattle.prof_request.specs.Reading.{before_space, with_version, openings, line_ranges, filter_words, version_texts, arguments};

use crate::command_word::CommandWord;
use crate::line_text::rest;
use crate::naming::{name, name_and_space};
use crate::request::Command;
use prof_address::{FILTERS, Filter, Form, next_transform};
use prof_io::Text;
use prof_path::{Range, Transform};
use prof_spell::{Cursor, Stop};
use std::alloc::Global;

/// A number of 32 bits.
fn number(cursor: &mut Cursor<'_>) -> Result<u32, Stop>
    ensures { Reads u32s cursor.old result cursor.new }
{
    match cursor.number(u32::MAX as u64) {
        Ok(n) => Ok(n as u32),
        Err(stop) => Err(stop),
    }
}

/// A version, and the space behind it.
fn version_and_space(cursor: &mut Cursor<'_>) -> Result<u32, Stop>
    ensures { Reads (before_space u32s) cursor.old result cursor.new }
{
    let version = match number(cursor) {
        Ok(version) => version,
        Err(stop) => return Err(stop),
    };
    match cursor.literal(" ") {
        Ok(()) => Ok(version),
        Err(stop) => Err(stop),
    }
}

/// A start of a range, and the space behind it.
fn start_and_space(cursor: &mut Cursor<'_>) -> Result<i64, Stop>
    ensures { Reads (before_space signed) cursor.old result cursor.new }
{
    let start = match cursor.signed() {
        Ok(start) => start,
        Err(stop) => return Err(stop),
    };
    match cursor.literal(" ") {
        Ok(()) => Ok(start),
        Err(stop) => Err(stop),
    }
}

fn range(cursor: &mut Cursor<'_>) -> Result<Range, Stop>
    ensures { Reads line_ranges cursor.old result cursor.new }
{
    let start = match start_and_space(cursor) {
        Ok(start) => start,
        Err(stop) => return Err(stop),
    };
    match cursor.signed() {
        Ok(end) => Ok(Range { start, end }),
        Err(stop) => Err(stop),
    }
}

fn profile_and_thread(alloc: Global, cursor: &mut Cursor<'_>) -> Result<(Text, u32), Stop>
    ensures { Reads openings cursor.old result cursor.new }
{
    let profile = match name_and_space(alloc, cursor) {
        Ok(profile) => profile,
        Err(stop) => return Err(stop),
    };
    match number(cursor) {
        Ok(thread) => Ok((profile, thread)),
        Err(stop) => Err(stop),
    }
}

fn version_and_transform(alloc: Global, cursor: &mut Cursor<'_>) -> Result<(u32, Transform), Stop>
    ensures { Reads (with_version (transforms Form.Second)) cursor.old result cursor.new }
{
    let version = match version_and_space(cursor) {
        Ok(version) => version,
        Err(stop) => return Err(stop),
    };
    match next_transform(alloc, Form::Second, cursor) {
        Ok(transform) => Ok((version, transform)),
        Err(stop) => Err(stop),
    }
}

fn version_and_number(cursor: &mut Cursor<'_>) -> Result<(u32, u32), Stop>
    ensures { Reads (with_version u32s) cursor.old result cursor.new }
{
    let version = match version_and_space(cursor) {
        Ok(version) => version,
        Err(stop) => return Err(stop),
    };
    match number(cursor) {
        Ok(n) => Ok((version, n)),
        Err(stop) => Err(stop),
    }
}

fn version_and_range(cursor: &mut Cursor<'_>) -> Result<(u32, Range), Stop>
    ensures { Reads (with_version line_ranges) cursor.old result cursor.new }
{
    let version = match version_and_space(cursor) {
        Ok(version) => version,
        Err(stop) => return Err(stop),
    };
    match range(cursor) {
        Ok(range) => Ok((version, range)),
        Err(stop) => Err(stop),
    }
}

fn version_and_filter(cursor: &mut Cursor<'_>) -> Result<(u32, Filter), Stop>
    ensures { Reads (with_version filter_words) cursor.old result cursor.new }
{
    let version = match version_and_space(cursor) {
        Ok(version) => version,
        Err(stop) => return Err(stop),
    };
    match cursor.one_of(&FILTERS) {
        Ok(filter) => Ok((version, filter)),
        Err(stop) => Err(stop),
    }
}

/// A version, and the rest of the line.
fn version_and_text(alloc: Global, cursor: &mut Cursor<'_>) -> Result<(u32, Text), Stop>
    ensures { Reads version_texts cursor.old result cursor.new }
{
    let version = match number(cursor) {
        Ok(version) => version,
        Err(stop) => return Err(stop),
    };
    match rest(alloc, cursor) {
        Ok(text) => Ok((version, text)),
        Err(stop) => Err(stop),
    }
}

/// What stands behind the word of a command.
pub fn arguments(alloc: Global, word: CommandWord, cursor: &mut Cursor<'_>) -> Result<Command, Stop>
    ensures { Reads (arguments word) cursor.old result cursor.new }
{
    match word {
        CommandWord::Open => match profile_and_thread(alloc, cursor) {
            Ok((profile, thread)) => Ok(Command::OpenOn { profile, thread }),
            Err(stop) => Err(stop),
        },
        CommandWord::Load => match name(alloc, cursor) {
            Ok(profile) => Ok(Command::LoadOn { profile }),
            Err(stop) => Err(stop),
        },
        CommandWord::Close => Ok(Command::Close),
        CommandWord::Push => match version_and_transform(alloc, cursor) {
            Ok((at, transform)) => Ok(Command::Push { at, transform }),
            Err(stop) => Err(stop),
        },
        CommandWord::PopTo => match version_and_number(cursor) {
            Ok((at, n)) => Ok(Command::PopTo { at, n }),
            Err(stop) => Err(stop),
        },
        CommandWord::Range => match version_and_range(cursor) {
            Ok((at, range)) => Ok(Command::CommitRange { at, range }),
            Err(stop) => Err(stop),
        },
        CommandWord::PopRangesTo => match version_and_number(cursor) {
            Ok((at, n)) => Ok(Command::PopRangesTo { at, n }),
            Err(stop) => Err(stop),
        },
        CommandWord::Implementation => match version_and_filter(cursor) {
            Ok((at, filter)) => Ok(Command::SetImplementation {
                at,
                implementation: filter.0,
            }),
            Err(stop) => Err(stop),
        },
        CommandWord::Search => match version_and_text(alloc, cursor) {
            Ok((at, search)) => Ok(Command::SetSearch { at, search }),
            Err(stop) => Err(stop),
        },
        CommandWord::Undo => match number(cursor) {
            Ok(at) => Ok(Command::Undo { at }),
            Err(stop) => Err(stop),
        },
        CommandWord::Redo => match number(cursor) {
            Ok(at) => Ok(Command::Redo { at }),
            Err(stop) => Err(stop),
        },
        CommandWord::Goto => match version_and_text(alloc, cursor) {
            Ok((at, address)) => Ok(Command::Goto { at, address }),
            Err(stop) => Err(stop),
        },
        CommandWord::Tree => Ok(Command::Tree),
        CommandWord::Inverted => Ok(Command::Inverted),
        CommandWord::Markers => match rest(alloc, cursor) {
            Ok(search) => Ok(Command::Markers { search }),
            Err(stop) => Err(stop),
        },
        CommandWord::Address => Ok(Command::Address),
        CommandWord::Save => Ok(Command::Save),
    }
}
