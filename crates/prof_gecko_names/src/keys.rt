//! What the functions of frames stand for.
ghost use Rattle.std.specs.Prelude.{◌≡◌, ◌<◌, length, IfOk, map, All};
ghost use Rattle.prof_gecko_names.specs.Keys.{key_of, IsKnown};

use crate::func::FuncKey;
use crate::libraries::{Lib, library_of};
use prof_io::NoMemory;
use prof_location::{Location, classify};
use prof_raw::Strings;
use std::alloc::Global;

/// What the function of the location at a place stands for.
fn key_at(strings: &Strings, libs: &[Lib], place: u32) -> FuncKey
    requires { place < length strings.now }
    ensures { result ≡ key_of libs.now strings.now place }
{
    let Some(text) = strings.get(place) else {
        unreachable!()
    };
    if let Location::Address {
        value: Some(address),
    } = classify(text)
    {
        if let Some(lib) = library_of(libs, address) {
            let row = &libs[lib];
            return FuncKey::Lib {
                lib,
                offset: address - row.start,
            };
        }
    }
    FuncKey::Text {
        place: strings.place(text).unwrap_or(place),
    }
}

/// What the function of the location at a place stands for, which is kept for each place that was looked at.
fn known_key(
    strings: &Strings,
    libs: &[Lib],
    known: &mut Vec<Option<FuncKey>>,
    place: u32,
) -> FuncKey
    requires place { place < length strings.now }
    requires many { length known.old.items ≡ length strings.now }
    requires known { IsKnown libs.now strings.now known.old.items }
    ensures value { result ≡ key_of libs.now strings.now place }
    ensures many { length known.new.items ≡ length strings.now }
    ensures known { IsKnown libs.now strings.now known.new.items }
{
    if let Some(key) = known[place as usize] {
        return key;
    }
    let key = key_at(strings, libs, place);
    known[place as usize] = Some(key);
    key
}

/// What the functions of frames stand for, by the places of their locations. Each place is looked at once.
pub fn location_keys(
    alloc: Global,
    strings: &Strings,
    libs: &[Lib],
    places: &[u32],
) -> Result<Vec<FuncKey>, NoMemory>
    requires { All (λ p. p < length strings.now) places.now }
    ensures { IfOk result (λ keys. keys.items ≡ map (key_of libs.now strings.now) places.now) }
{
    let mut known: Vec<Option<FuncKey>> = Vec::new(alloc);
    for _ in 0..strings.count() {
        known.push(None)?;
    }
    let mut keys = Vec::with_capacity(alloc, places.len())?;
    for place in places {
        let key = known_key(strings, libs, &mut known, *place);
        keys.push(key)?;
    }
    Ok(keys)
}
