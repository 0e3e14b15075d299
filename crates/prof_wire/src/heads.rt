// What a head's fields say.
ghost use Rattle.std.specs.Prelude.{◌≡◌, ◌≤◌, length, map, All, count_by, slice_get, codes, IsTrue, Some, None, if◌then◌else◌};
ghost use Rattle.std.specs.Char.{is_ascii_digit};
ghost use Rattle.std.specs.List.{list_any, list_all};
ghost use Rattle.std.specs.Option.{option_copied};
ghost use Rattle.std.specs.Str.{bytes_eq};
ghost use Rattle.std.specs.Str.Parse.{digits_value};
ghost use Rattle.httparse.specs.Spans.{IsHeaderWithin, header_bytes};
ghost use Rattle.prof_wire.specs.Heads.{decide, closes, is_last, is_named, is_size, size_of, values, verb_of};

use crate::messages::{Verb, Why, WireEnd};
use httparse::spans::HeaderSpan;

// Whether the field has that name, without ASCII case.
fn is_named(page: &[u8], field: HeaderSpan, name: &[u8]) -> bool
    requires { IsHeaderWithin (length page.now) field }
    ensures { result ≡ is_named name.now (header_bytes page.now field) }
{
    field.name.of(page).eq_ignore_ascii_case(name)
}

// How many fields have that name.
fn count_named(page: &[u8], fields: &[HeaderSpan], name: &[u8]) -> usize
    requires { All (IsHeaderWithin (length page.now)) fields.now }
    ensures { result ≡ count_by (is_named name.now) (map (header_bytes page.now) fields.now) }
{
    fields
        .iter()
        .filter(|field| is_named(page, **field, name))
        .count()
}

// Whether some field has that name.
fn has_named(page: &[u8], fields: &[HeaderSpan], name: &[u8]) -> bool
    requires { All (IsHeaderWithin (length page.now)) fields.now }
    ensures { result ≡ list_any (is_named name.now) (map (header_bytes page.now) fields.now) }
{
    fields.iter().any(|field| is_named(page, *field, name))
}

// Whether a text has decimal digits alone.
fn are_digits(text: &[u8]) -> bool
    ensures { result ≡ list_all is_ascii_digit text.now }
{
    text.iter().all(|byte| byte.is_ascii_digit())
}

// The number that a text says: 1 to 18 decimal digits.
fn read_size(text: &[u8]) -> Option<u64>
    ensures { result ≡ (if is_size text.now then Some (digits_value 10 text.now) else None) }
{
    if text.is_empty() || text.len() > 18 || !are_digits(text) {
        return None;
    }
    Some(number_of(text))
}

// The number that at most 18 decimal digits write.
fn number_of(digits: &[u8]) -> u64
    requires few { length digits.now ≤ 18 }
    requires digits { IsTrue (list_all is_ascii_digit digits.now) }
    ensures { result ≡ digits_value 10 digits.now }
{
    let mut number = 0u64;
    for digit in digits {
        number = 10 * number + u64::from(*digit - b'0');
    }
    number
}

// The value of the first field of that name.
fn value_named<'p>(page: &'p [u8], fields: &[HeaderSpan], name: &[u8]) -> Option<&'p [u8]>
    requires { All (IsHeaderWithin (length page.now)) fields.now }
    ensures { option_copied result ≡
        slice_get (values name.now (map (header_bytes page.now) fields.now)) 0 }
{
    for field in fields {
        if is_named(page, *field, name) {
            return Some(field.value.of(page));
        }
    }
    None
}

// Whether all fields of that name have that value.
fn all_say(page: &[u8], fields: &[HeaderSpan], name: &[u8], value: &[u8]) -> bool
    requires { All (IsHeaderWithin (length page.now)) fields.now }
    ensures { result ≡ list_all (bytes_eq value.now)
        (values name.now (map (header_bytes page.now) fields.now)) }
{
    fields.iter().all(|field| !is_named(page, *field, name) || value == field.value.of(page))
}

// The size that the fields named `Content-Length` say, and 0 where there is none.
fn declared_size(page: &[u8], fields: &[HeaderSpan]) -> Option<u64>
    requires { All (IsHeaderWithin (length page.now)) fields.now }
    ensures { result ≡
        size_of (values (codes "content-length") (map (header_bytes page.now) fields.now)) }
{
    let name = b"content-length";
    let Some(text) = value_named(page, fields, name) else {
        return Some(0);
    };
    if !all_say(page, fields, name, text) {
        return None;
    }
    read_size(text)
}

/// The size of the body that follows a head, or why it is refused.
pub(crate) fn body_size(page: &[u8], minor: u8, fields: &[HeaderSpan]) -> Result<usize, WireEnd>
    requires { All (IsHeaderWithin (length page.now)) fields.now }
    ensures { result ≡ decide minor (map (header_bytes page.now) fields.now) }
{
    if minor == 1 && count_named(page, fields, b"host") != 1 {
        return Err(WireEnd::Bad(Why::Host));
    }
    if has_named(page, fields, b"transfer-encoding") {
        return Err(WireEnd::Coded);
    }
    if has_named(page, fields, b"expect") {
        return Err(WireEnd::Expect);
    }
    match declared_size(page, fields) {
        None => Err(WireEnd::Bad(Why::Length)),
        Some(size) => {
            if size > 65_536 {
                return Err(WireEnd::BodyTooLong);
            }
            Ok(size as usize)
        }
    }
}

// Whether the field asks that the connection be closed.
fn closes(page: &[u8], field: HeaderSpan) -> bool
    requires { IsHeaderWithin (length page.now) field }
    ensures { result ≡ closes (header_bytes page.now field) }
{
    is_named(page, field, b"connection") && field.value.of(page).eq_ignore_ascii_case(b"close")
}

/// Whether some field asks that the connection be closed.
pub(crate) fn asks_to_close(page: &[u8], fields: &[HeaderSpan]) -> bool
    requires { All (IsHeaderWithin (length page.now)) fields.now }
    ensures { result ≡ list_any closes (map (header_bytes page.now) fields.now) }
{
    fields.iter().any(|field| closes(page, *field))
}

/// Whether the connection ends after a message, when so many messages came before.
pub(crate) fn ends_after(page: &[u8], minor: u8, fields: &[HeaderSpan], given: u16) -> bool
    requires { All (IsHeaderWithin (length page.now)) fields.now }
    ensures { result ≡ is_last given minor (map (header_bytes page.now) fields.now) }
{
    minor == 0 || asks_to_close(page, fields) || given >= 999
}

/// The verb of a method.
pub(crate) fn verb(method: &[u8]) -> Verb
    ensures { result ≡ verb_of method.now }
{
    match method {
        b"GET" => Verb::Get,
        b"POST" => Verb::Post,
        _ => Verb::Other,
    }
}
