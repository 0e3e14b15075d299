//! The strings, resources and functions that a thread's frames stand for.
ghost use Rattle.std.specs.Prelude.{◌≡◌, ◌<◌, ◌≤◌, length, IfOk, All, map, string_bytes};
ghost use Rattle.prof_gecko_names.specs.Keys.{text_at};
ghost use Rattle.prof_gecko_names.specs.Naming.{named_of};
ghost use Rattle.prof_gecko.specs.Converted.{locations, lists_of, lists_in, numbering_in};
ghost use Rattle.prof_gecko.specs.Fits.{FitLocations};

use crate::columns::FrameColumns;
use prof_gecko_names::{FuncLists, Lib, NamedFunc, location_keys, named_of, number_by_first_use};
use prof_io::NoMemory;
use prof_raw::cells::{cell, index, truth};
use prof_raw::{RawColumn, Strings};
use std::alloc::Global;
use std::rc::Rc;

/// The places of the frames' locations in the strings, of which there are so many.
#[tactic(auto, unfolding(crate::specs::Converted::locations))]
fn places_of(alloc: Global, strings: u32, frames: &FrameColumns) -> Result<Vec<u32>, NoMemory>
    requires { FitLocations strings frames.now }
    ensures rows { IfOk result (λ v. v.items ≡ locations frames.now) }
    ensures within { IfOk result (λ v. All (λ p. p < strings) v.items) }
    ensures count { IfOk result (λ v. length v.items ≡ length frames.now.location.cells) }
{
    let rows = frames.location.values.len();
    let mut places = Vec::with_capacity(alloc, rows)?;
    for j in 0..rows {
        places.push(index(strings, cell(&frames.location, j)))?;
    }
    Ok(places)
}

/// An equal list, in memory of its own.
fn copied(alloc: Global, strings: &Strings) -> Result<Strings, NoMemory>
    ensures { IfOk result (λ s. s ≡ strings.now) }
{
    let count = strings.count();
    let mut texts = Vec::with_capacity(alloc, count as usize)?;
    for i in 0..count {
        let Some(text) = strings.get(i) else {
            unreachable!()
        };
        texts.push(String::from_str(alloc, text)?)?;
    }
    Strings::of(alloc, texts)
}

/// The list by itself, which is copied only where others hold it too.
fn own_strings(alloc: Global, strings: Rc<Strings>) -> Result<Strings, NoMemory>
    ensures { IfOk result (λ s. s ≡ strings.value) }
{
    match Rc::try_unwrap(strings) {
        Ok(strings) => Ok(strings),
        Err(shared) => copied(alloc, &shared),
    }
}

/// The function of the location at a place.
fn named_at(
    alloc: Global,
    libs: &[Lib],
    strings: &Strings,
    place: u32,
) -> Result<NamedFunc, NoMemory>
    requires { place < length strings.now }
    ensures { IfOk result (λ f. f ≡ named_of libs.now (text_at strings.now place)) }
{
    match strings.get(place) {
        Some(text) => named_of(alloc, libs, text),
        None => unreachable!(),
    }
}

/// The lists after the functions of these frames.
#[tactic(auto, unfolding(crate::specs::Converted::lists_of))]
fn lists_of(
    alloc: Global,
    libs: &[Lib],
    strings: Strings,
    places: &[u32],
    relevant_for_js: &RawColumn,
    rows: &[u32],
) -> Result<FuncLists, NoMemory>
    requires places { All (λ p. p < length strings) places.now }
    requires rows { All (λ row. row < length places.now) rows.now }
    requires few_strings { length strings ≤ 4194304 }
    requires few_rows { length rows.now ≤ 4194304 }
    ensures { IfOk result (λ lists.
        lists ≡ lists_of libs.now strings places.now relevant_for_js.now rows.now) }
{
    let mut lists = FuncLists::over(alloc, strings);
    for row in rows {
        let row = *row as usize;
        let func = named_at(alloc, libs, &lists.strings, places[row])?;
        lists.add_func(alloc, &func, truth(cell(relevant_for_js, row)))?;
    }
    Ok(lists)
}

/// What the frames of a thread stand for.
#[derive(Drop)]
pub(crate) struct Derived {
    pub(crate) lists: FuncLists,
    /// The number of each frame's function.
    pub(crate) numbers: Vec<u32>,
}

impl Derived {
    /// What frames stand for over these strings.
    pub(crate) fn of(
        alloc: Global,
        libs: &[Lib],
        strings: Rc<Strings>,
        frames: &FrameColumns,
    ) -> Result<Derived, NoMemory>
        requires fit { FitLocations (length strings.value) frames.now }
        requires few { length strings.value ≤ 4194304 }
        ensures lists { IfOk result (λ d. d.lists ≡ lists_in libs.now strings.value frames.now) }
        ensures numbers { IfOk result (λ d.
            d.numbers.items ≡ (numbering_in libs.now strings.value frames.now).numbers) }
    {
        let places = places_of(alloc, strings.count(), frames)?;
        let keys = location_keys(alloc, &strings, libs, &places)?;
        let numbering = number_by_first_use(alloc, &keys)?;
        let strings = own_strings(alloc, strings)?;
        let relevant = &frames.relevant_for_js;
        let lists = lists_of(alloc, libs, strings, &places, relevant, &numbering.rows)?;
        Ok(Derived {
            lists,
            numbers: numbering.numbers,
        })
    }
}
