//! How functions are named, before their texts have places in the strings.
ghost use Rattle.std.specs.Prelude.{◌≡◌, false, ◌<◌, ◌≤◌, ◌++◌, IfOk, None, Some, codes, drop, length, if◌then◌else◌};
ghost use Rattle.std.specs.List.{prefix_len};
ghost use Rattle.std.specs.Option.{option_copied};
ghost use Rattle.std.specs.Fmt.{digits};
ghost use Rattle.prof_location.specs.Cutting.{begins};
ghost use Rattle.prof_gecko_names.specs.Libraries.{lib_at};
ghost use Rattle.prof_gecko_names.specs.Naming as says;

use crate::libraries::{Lib, library_of};
use prof_io::{NoMemory, Text};
use prof_location::{Location, classify};
use std::alloc::Global;
use std::marker::Model;

/// A resource: a library, or that of the JavaScript files of one name.
#[derive(Drop)]
pub struct NamedResource {
    pub lib: Option<usize>,
    pub name: Text,
}

impl Model for NamedResource {
    ghost use Rattle.prof_gecko_names.specs.Naming.{Resource};

    ghost Value = { Resource };

    ghost view = { λ r. record { lib = r.lib; name = r.name } };
}

/// A function with its texts.
#[derive(Drop)]
pub struct NamedFunc {
    pub name: Text,
    pub is_js: bool,
    pub file: Option<Text>,
    pub resource: Option<NamedResource>,
}

impl Model for NamedFunc {
    ghost use Rattle.prof_gecko_names.specs.Naming.{Named};

    ghost Value = { Named };

    ghost view = { λ f. record {
      name = f.name;
      is_js = f.is_js;
      file = f.file;
      resource = f.resource;
    } };
}

/// An equal text, in memory of its own.
fn text_of(alloc: Global, text: &str) -> Result<Text, NoMemory>
    ensures { IfOk result (λ t. t ≡ text.now) }
{
    let mut copy = Text::new(alloc);
    copy.push_str(text)?;
    Ok(copy)
}

fn is_letter(c: u8) -> bool
    ensures { result ≡ says.is_letter c }
{
    b'A' <= c && c <= b'Z' || b'a' <= c && c <= b'z'
}

fn is_host_character(c: u8) -> bool
    ensures { result ≡ says.is_host_character c }
{
    b'0' <= c && c <= b'9' || is_letter(c) || c == b'.' || c == b'-'
}

/// How long the run of a host's characters is that a text begins with.
fn host_len(text: &[u8]) -> usize
    ensures value { result ≡ prefix_len says.is_host_character text.now }
    ensures within { result ≤ length text.now }
{
    for (i, c) in text.iter().enumerate() {
        if !is_host_character(*c) {
            return i;
        }
    }
    text.len()
}

/// Whether a host may end before a text.
fn ends_host(text: &[u8]) -> bool
    ensures { result ≡ says.ends_host text.now }
{
    match text.first() {
        None => true,
        Some(c) => *c == b'/' || *c == b':' || *c == b'?' || *c == b'#',
    }
}

/// What stands behind a piece that a text begins with.
fn behind<'t>(text: &'t [u8], piece: &[u8]) -> Option<&'t [u8]>
    ensures { option_copied result
        ≡ (if begins piece.now text.now then Some (drop (length piece.now) text.now) else None) }
{
    if text.starts_with(piece) {
        Some(&text[piece.len()..])
    } else {
        None
    }
}

/// The host that a file's address has behind its scheme, and else the file.
fn host_in<'t>(file: &'t str, rest: &'t [u8]) -> &'t str
    ensures { result.now ≡ says.host_in file.now rest.now }
{
    let n = host_len(rest);
    if n == 0 || !ends_host(&rest[n..]) {
        return file;
    }
    match std::str::from_utf8(&rest[..n]) {
        Ok(host) => host,
        Err(_) => unreachable!(),
    }
}

/// The name of a JavaScript file's resource.
#[tactic(auto, unfolding(crate::specs::Naming::resource_name))]
fn resource_name<'t>(file: &'t str) -> &'t str
    ensures { result.now ≡ says.resource_name file.now }
{
    let text = file.as_bytes();
    if let Some(rest) = behind(text, b"http://") {
        return host_in(file, rest);
    }
    match behind(text, b"https://") {
        Some(rest) => host_in(file, rest),
        None => file,
    }
}

/// A function that its location's text names.
fn plain(alloc: Global, text: &str) -> Result<NamedFunc, NoMemory>
    ensures { IfOk result (λ f. f ≡ says.plain text.now) }
{
    let name = text_of(alloc, text)?;
    Ok(NamedFunc {
        name,
        is_js: false,
        file: None,
        resource: None,
    })
}

/// The name of an address in a library.
fn offset_name(alloc: Global, offset: u64) -> Result<Text, NoMemory>
    ensures { IfOk result (λ t. t ≡ codes "0x" ++ digits 16 false offset) }
{
    let name = format!(in alloc; "0x{offset:x}")?;
    text_of(alloc, name.as_str())
}

/// The function of an address in a library.
fn in_library(alloc: Global, libs: &[Lib], address: u64, lib: usize) -> Result<NamedFunc, NoMemory>
    requires within { lib < length libs.now }
    requires start { (lib_at libs.now lib).start ≤ address }
    ensures { IfOk result (λ f. f ≡ says.in_library libs.now address lib) }
{
    let row = &libs[lib];
    let name = offset_name(alloc, address - row.start)?;
    let resource = NamedResource {
        lib: Some(lib),
        name: row.name.copy(alloc)?,
    };
    Ok(NamedFunc {
        name,
        is_js: false,
        file: None,
        resource: Some(resource),
    })
}

/// A JavaScript function.
fn scripted(alloc: Global, name: &str, file: &str) -> Result<NamedFunc, NoMemory>
    ensures { IfOk result (λ f. f ≡ says.scripted name.now file.now) }
{
    let name = text_of(alloc, name)?;
    let resource = NamedResource {
        lib: None,
        name: text_of(alloc, resource_name(file))?,
    };
    let file = text_of(alloc, file)?;
    Ok(NamedFunc {
        name,
        is_js: true,
        file: Some(file),
        resource: Some(resource),
    })
}

/// The function of a location.
pub fn named_of(alloc: Global, libs: &[Lib], text: &str) -> Result<NamedFunc, NoMemory>
    ensures { IfOk result (λ f. f ≡ says.named_of libs.now text.now) }
{
    match classify(text) {
        Location::Address {
            value: Some(address),
        } => match library_of(libs, address) {
            Some(lib) => in_library(alloc, libs, address, lib),
            None => plain(alloc, text),
        },
        Location::Address { value: None } | Location::Label => plain(alloc, text),
        Location::Script { name, file, .. } => scripted(alloc, name, file),
    }
}
