//! The texts of views, read.
ghost use Rattle.std.specs.Prelude.{◌≡◌, ◌≢◌, ℕ, ◌<◌, IsTrue, IsFalse, Some, true};
ghost use Rattle.prof_spell.specs.Spelling.{Reads, Apart, first};
ghost use Rattle.prof_address.specs.declared.kind.Form.{Form};
ghost use Rattle.prof_address.specs.Transforms.{result_items};
ghost use Rattle.prof_address.specs.Views.{views, not_line_end};
ghost use Rattle.prof_address.specs.Readings.{ReadsWhole};
ghost use Rattle.prof_address.specs.Parts.{threads, ranges, some_ranges, some_searches, contents, parts, result_said};

use crate::kind::{Form, SHOWN};
use crate::part::{Content, Part, fresh, parts_from, with};
use crate::reading::{number, some_transforms};
use crate::refusal::TextRefusal;
use prof_io::Text;
use prof_path::{Range, View};
use prof_spell::{Cursor, Stop};
use std::alloc::Global;

fn thread(cursor: &mut Cursor<'_>) -> Result<u32, Stop>
    ensures { Reads threads cursor.old result cursor.new }
{
    match cursor.literal("thread=") {
        Ok(()) => number(cursor),
        Err(stop) => Err(stop),
    }
}

fn range(cursor: &mut Cursor<'_>) -> Result<Range, Stop>
    ensures { Reads ranges cursor.old result cursor.new }
{
    let start = match cursor.signed() {
        Ok(start) => start,
        Err(stop) => return Err(stop),
    };
    match cursor.literal("_") {
        Ok(()) => {}
        Err(stop) => return Err(stop),
    }
    match cursor.signed() {
        Ok(end) => Ok(Range { start, end }),
        Err(stop) => Err(stop),
    }
}

/// One range or more.
fn some_ranges(alloc: Global, cursor: &mut Cursor<'_>) -> Result<Vec<Range>, Stop>
    ensures { Reads some_ranges cursor.old (result_items result) cursor.new }
{
    let mut list = Vec::new(alloc);
    'items: loop {
        let item = match range(cursor) {
            Ok(item) => item,
            Err(stop) => return Err(stop),
        };
        match list.push(item) {
            Ok(()) => {}
            Err(_) => return Err(Stop::NoMemory),
        }
        if !cursor.takes(b'~') {
            return Ok(list);
        }
    }
}

/// A search that isn't empty.
fn some_search(alloc: Global, cursor: &mut Cursor<'_>) -> Result<Text, Stop>
    ensures { Reads some_searches cursor.old result cursor.new }
{
    match cursor.search(alloc) {
        Ok(search) => {
            if search.as_str().is_empty() {
                return Err(Stop::Fault);
            }
            Ok(search)
        }
        Err(stop) => Err(stop),
    }
}

/// What stands behind the word of a part.
fn content(alloc: Global, form: Form, part: Part, cursor: &mut Cursor<'_>) -> Result<Content, Stop>
    ensures { Reads (contents form part) cursor.old (result_said result) cursor.new }
{
    match part {
        Part::Ranges => match some_ranges(alloc, cursor) {
            Ok(ranges) => Ok(Content::Ranges(ranges)),
            Err(stop) => Err(stop),
        },
        Part::Implementation => match cursor.one_of(&SHOWN) {
            Ok(filter) => Ok(Content::Implementation(filter.0)),
            Err(stop) => Err(stop),
        },
        Part::Transforms => match some_transforms(alloc, form, cursor) {
            Ok(transforms) => Ok(Content::Transforms(transforms)),
            Err(stop) => Err(stop),
        },
        Part::Search => match some_search(alloc, cursor) {
            Ok(search) => Ok(Content::Search(search)),
            Err(stop) => Err(stop),
        },
    }
}

/// A part from a place on.
fn part(alloc: Global, form: Form, due: u8, cursor: &mut Cursor<'_>) -> Result<Content, Stop>
    requires { due < 4 }
    ensures { Reads (parts form due) cursor.old (result_said result) cursor.new }
{
    let part = match cursor.one_of(parts_from(due)) {
        Ok(part) => part,
        Err(stop) => return Err(stop),
    };
    content(alloc, form, part, cursor)
}

/// Whether the line ends here.
fn ends_line(cursor: &Cursor<'_>) -> bool
    ensures yes { IsTrue result → Apart not_line_end cursor.now }
    ensures no { IsFalse result → (b : ℕ) × (first cursor.now ≡ Some b) × (not_line_end b ≡ true) }
{
    match cursor.peek() {
        Some(byte) => byte == b'\n',
        None => true,
    }
}

/// Whether a part may come and one begins.
fn goes_on(due: u8, cursor: &Cursor<'_>) -> bool
    ensures yes { IsTrue result → (due < 4) × (first cursor.now ≡ Some 38) }
    ensures no { IsFalse result → due < 4 → first cursor.now ≢ Some 38 }
{
    if due < 4 { cursor.begins(b'&') } else { false }
}

/// A view, behind which only the end of a line may stand.
pub fn next_view(alloc: Global, form: Form, cursor: &mut Cursor<'_>) -> Result<View, Stop>
    ensures { Reads (views form) cursor.old result cursor.new }
{
    let thread = match thread(cursor) {
        Ok(thread) => thread,
        Err(stop) => return Err(stop),
    };
    let mut view = fresh(alloc, thread);
    let mut due = 0u8;
    'parts: while goes_on(due, cursor) {
        let content = match part(alloc, form, due, cursor) {
            Ok(content) => content,
            Err(stop) => return Err(stop),
        };
        due = content.place() + 1;
        view = with(view, content);
    }
    if ends_line(cursor) {
        Ok(view)
    } else {
        Err(Stop::Fault)
    }
}

/// The view of a text.
pub fn read_view(alloc: Global, text: &str) -> Result<View, TextRefusal>
    ensures { ReadsWhole (views Form.Second) text.now result }
{
    let mut cursor = Cursor::new(text.as_bytes());
    match next_view(alloc, Form::Second, &mut cursor) {
        Ok(view) => {
            if cursor.len() == 0 {
                return Ok(view);
            }
            Err(TextRefusal::BadAddress {
                at: (text.len() - cursor.len()) as u64,
            })
        }
        Err(Stop::Fault) => Err(TextRefusal::BadAddress {
            at: (text.len() - cursor.len()) as u64,
        }),
        Err(Stop::NoMemory) => Err(TextRefusal::NoMemory),
    }
}
