//! The texts of saved sessions, read.
ghost use Rattle.std.specs.Prelude.{◌≡◌, ◌≢◌, ℕ, ◌<◌, IfSome, IfNone, IsTrue, IsFalse, Some, false, length};
ghost use Rattle.std.specs.Fmt.{digit_glyph};
ghost use Rattle.prof_spell.specs.Spelling.{Reads, first};
ghost use Rattle.prof_spell.specs.Chains.{chains};
ghost use Rattle.prof_address.specs.Transforms.{result_items};
ghost use Rattle.prof_keep.specs.Saved.{ReadsSaved};
ghost use Rattle.prof_keep.specs.Reading.{lines, hex_bytes, digest_chain, line_chain, after_place, after_version, after_digest, wholes, as_lines, as_placed, as_versioned, as_whole, session_of};

use crate::head::{HEADS, Head};
use crate::saved::Saved;
use prof_address::{Form, TextRefusal, next_view};
use prof_io::Digest;
use prof_path::View;
use prof_spell::{Cursor, Stop};
use std::alloc::Global;

/// The lower-case hexadecimal digit that comes first.
fn nibble(cursor: &Cursor<'_>) -> Option<u8>
    ensures some { IfSome result (λ d. (d < 16) × (first cursor.now ≡ Some (digit_glyph false d))) }
    ensures none { IfNone result ((d : ℕ) → d < 16 → first cursor.now ≢ Some (digit_glyph false d)) }
{
    match cursor.peek() {
        Some(byte) if byte.is_ascii_digit() => Some(byte - b'0'),
        Some(byte) if b'a' <= byte && byte <= b'f' => Some(byte - b'a' + 10),
        _ => None,
    }
}

/// A byte by its two digits.
fn hex_byte(cursor: &mut Cursor<'_>) -> Result<u8, Stop>
    ensures { Reads hex_bytes cursor.old result cursor.new }
{
    let high = match nibble(cursor) {
        Some(high) => high,
        None => return Err(Stop::Fault),
    };
    cursor.pass();
    let low = match nibble(cursor) {
        Some(low) => low,
        None => return Err(Stop::Fault),
    };
    cursor.pass();
    Ok(16 * high + low)
}

fn digest(cursor: &mut Cursor<'_>) -> Result<Digest, Stop>
    ensures { Reads (chains digest_chain 0) cursor.old result cursor.new }
{
    let mut digest = [0u8; 32];
    'bytes: for i in 0..32 {
        match hex_byte(cursor) {
            Ok(byte) => digest[i] = byte,
            Err(stop) => return Err(stop),
        }
    }
    Ok(digest)
}

/// A line for a view.
fn line(alloc: Global, form: Form, cursor: &mut Cursor<'_>) -> Result<View, Stop>
    ensures { Reads (lines form) cursor.old result cursor.new }
{
    match cursor.literal("view ") {
        Ok(()) => {}
        Err(stop) => return Err(stop),
    }
    let view = match next_view(alloc, form, cursor) {
        Ok(view) => view,
        Err(stop) => return Err(stop),
    };
    match cursor.literal("\n") {
        Ok(()) => Ok(view),
        Err(stop) => Err(stop),
    }
}

/// Whether one more line may come, and either is wanted or begins.
fn goes_on(count: u64, place: u64, cursor: &Cursor<'_>) -> bool
    ensures yes { IsTrue result → count < 100 }
    ensures wanted { IsTrue result → place < count → 0 < length cursor.now }
    ensures no { IsFalse result → count < 100 → (place < count) × (length cursor.now ≡ 0) }
{
    if count < 100 {
        count <= place || cursor.len() > 0
    } else {
        false
    }
}

/// The lines of the views, up to the end of the text.
fn view_lines(
    alloc: Global,
    form: Form,
    place: u64,
    cursor: &mut Cursor<'_>,
) -> Result<Vec<View>, Stop>
    requires { place < 100 }
    ensures { Reads (chains (line_chain form place) 0) cursor.old (result_items result) cursor.new }
{
    let mut views = Vec::new(alloc);
    let mut count = 0u64;
    'lines: while goes_on(count, place, cursor) {
        let view = match line(alloc, form, cursor) {
            Ok(view) => view,
            Err(stop) => return Err(stop),
        };
        match views.push(view) {
            Ok(()) => {}
            Err(_) => return Err(Stop::NoMemory),
        }
        count += 1;
    }
    if cursor.len() == 0 {
        Ok(views)
    } else {
        Err(Stop::Fault)
    }
}

/// What stands behind the place.
fn after_place(
    alloc: Global,
    form: Form,
    place: u64,
    cursor: &mut Cursor<'_>,
) -> Result<Vec<View>, Stop>
    requires { place < 100 }
    ensures { Reads (after_place form place) cursor.old (as_lines result) cursor.new }
{
    match cursor.literal("\n") {
        Ok(()) => view_lines(alloc, form, place, cursor),
        Err(stop) => Err(stop),
    }
}

/// What stands behind the version: the place, and the views.
fn after_version(
    alloc: Global,
    form: Form,
    cursor: &mut Cursor<'_>,
) -> Result<(u32, Vec<View>), Stop>
    ensures { Reads (after_version form) cursor.old (as_placed result) cursor.new }
{
    match cursor.literal("\nplace ") {
        Ok(()) => {}
        Err(stop) => return Err(stop),
    }
    let place = match cursor.number(99) {
        Ok(place) => place,
        Err(stop) => return Err(stop),
    };
    match after_place(alloc, form, place, cursor) {
        Ok(views) => Ok((place as u32, views)),
        Err(stop) => Err(stop),
    }
}

/// What stands behind the digest: the version, the place, and the views.
fn after_digest(
    alloc: Global,
    form: Form,
    cursor: &mut Cursor<'_>,
) -> Result<(u32, (u32, Vec<View>)), Stop>
    ensures { Reads (after_digest form) cursor.old (as_versioned result) cursor.new }
{
    match cursor.literal("\nversion ") {
        Ok(()) => {}
        Err(stop) => return Err(stop),
    }
    let version = match cursor.number(u32::MAX as u64) {
        Ok(version) => version,
        Err(stop) => return Err(stop),
    };
    match after_version(alloc, form, cursor) {
        Ok(placed) => Ok((version as u32, placed)),
        Err(stop) => Err(stop),
    }
}

/// The saved session of this digest and these parts.
fn with_digest(digest: Digest, parts: (u32, (u32, Vec<View>))) -> Saved
    ensures { result ≡ session_of digest parts }
{
    let (version, (place, views)) = parts;
    Saved {
        digest,
        version,
        place,
        views,
    }
}

/// The whole text.
fn whole(alloc: Global, cursor: &mut Cursor<'_>) -> Result<(Head, Saved), Stop>
    ensures { Reads wholes cursor.old (as_whole result) cursor.new }
{
    let head = match cursor.one_of(&HEADS) {
        Ok(head) => head,
        Err(stop) => return Err(stop),
    };
    let digest = match digest(cursor) {
        Ok(digest) => digest,
        Err(stop) => return Err(stop),
    };
    match after_digest(alloc, head.0, cursor) {
        Ok(parts) => Ok((head, with_digest(digest, parts))),
        Err(stop) => Err(stop),
    }
}

/// The saved session of a text of either form.
pub fn read_saved(alloc: Global, text: &str) -> Result<Saved, TextRefusal>
    ensures { ReadsSaved text.now result }
{
    let mut cursor = Cursor::new(text.as_bytes());
    match whole(alloc, &mut cursor) {
        Ok(found) => Ok(found.1),
        Err(Stop::Fault) => Err(TextRefusal::BadAddress {
            at: (text.len() - cursor.len()) as u64,
        }),
        Err(Stop::NoMemory) => Err(TextRefusal::NoMemory),
    }
}
