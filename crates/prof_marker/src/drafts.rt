//! The markers of the rows so far, and the starts among them that are open.
ghost use Rattle.std.specs.Prelude.{◌≡◌, ℕ, ◌<◌, List, [], ◌∷◌, ◌++◌, None, Option, Some, replicate, length, slice_set, slice_get, OnOk, IfOk};
ghost use Rattle.prof_raw.specs.Texts.{first_place};
ghost use Rattle.prof_marker.specs.declared.list.Marker.{Marker};
ghost use Rattle.prof_marker.specs.declared.drafts.Standing.{Standing};
ghost use Rattle.prof_marker.specs.Markers.{name_text, whole, unended, after_end, after_row};
ghost use Rattle.prof_marker.specs.Kept.{behind_of, AreFirsts, IsKept, drafts_in};
ghost use Rattle.prof_raw.specs.CellValues.{number_of};

use crate::alone::{instant, interval, time_of, unended, unstarted};
use crate::list::{Marker, MarkerList};
use crate::times::SampleTimes;
use prof_tables::{RawMarker, Strings};
use std::alloc::{AllocError, Global};

/// Whether a marker is a start that waits for its end, and then the open start of its name that it stands behind.
#[derive(Clone, Copy)]
pub enum Standing {
    Whole,
    Waiting { behind: Option<u32> },
}

impl Standing {
    fn behind(self) -> Option<u32>
        ensures { result ≡ behind_of self }
    {
        match self {
            Standing::Whole => None,
            Standing::Waiting { behind } => behind,
        }
    }
}

/// The markers of the rows so far. A start stands as if it had no end, until an end closes it.
#[derive(Drop)]
pub struct Drafts {
    markers: Vec<Marker>,
    standings: Vec<Standing>,
    /// Of each name the latest open start. A name goes by the first place of its text in the strings.
    latest: Vec<Option<u32>>,
    /// Of each string the first place of its text, where that was looked up.
    firsts: Vec<Option<u32>>,
}

/// The first place of a string's text.
fn first_of(strings: &Strings, name: u32) -> u32
    requires { name < length strings.now }
    ensures place { first_place strings.now (name_text strings.now name) ≡ Some result }
    ensures within { result < length strings.now }
{
    match strings.get(name) {
        Some(text) => match strings.place(text) {
            Some(place) => place,
            None => unreachable!(),
        },
        None => unreachable!(),
    }
}

fn nones(alloc: Global, count: usize) -> Result<Vec<Option<u32>>, AllocError>
    ensures { IfOk result (λ v. v.items ≡ replicate count None) }
{
    vec![in alloc; None; count]
}

impl Drafts {
    /// No markers yet, with room for so many.
    pub fn new(alloc: Global, strings: &Strings, room: usize) -> Result<Self, AllocError>
        ensures kept { IfOk result (IsKept strings.now) }
        ensures none { IfOk result (λ d. drafts_in d ≡ []) }
    {
        let count = strings.count() as usize;
        Ok(Drafts {
            markers: Vec::with_capacity(alloc, room)?,
            standings: Vec::with_capacity(alloc, room)?,
            latest: nones(alloc, count)?,
            firsts: nones(alloc, count)?,
        })
    }

    pub fn into_list(self) -> MarkerList
        ensures { result ≡ self.markers.items }
    {
        let Drafts {
            markers,
            standings: _,
            latest: _,
            firsts: _,
        } = self;
        MarkerList::of(markers)
    }

    /// The first place of a string's text, which is looked up once.
    fn name_place(&mut self, strings: &Strings, name: u32) -> usize
        requires name { name < length strings.now }
        requires many { length self.old.firsts.items ≡ length strings.now }
        requires firsts { AreFirsts strings.now self.old.firsts.items }
        ensures place { first_place strings.now (name_text strings.now name) ≡ Some result }
        ensures within { result < length strings.now }
        ensures many { length self.new.firsts.items ≡ length strings.now }
        ensures firsts { AreFirsts strings.now self.new.firsts.items }
        ensures markers { self.new.markers.items ≡ self.old.markers.items }
        ensures standings { self.new.standings.items ≡ self.old.standings.items }
        ensures latest { self.new.latest.items ≡ self.old.latest.items }
    {
        if let Some(place) = self.firsts[name as usize] {
            return place as usize;
        }
        let place = first_of(strings, name);
        self.firsts[name as usize] = Some(place);
        place as usize
    }

    /// Adds a marker.
    fn add(&mut self, marker: Marker, standing: Standing) -> Result<(), AllocError>
        ensures markers { OnOk result (self.new.markers.items ≡ self.old.markers.items ++ marker ∷ []) }
        ensures standings { OnOk result (self.new.standings.items ≡ self.old.standings.items ++ standing ∷ []) }
        ensures latest { self.new.latest.items ≡ self.old.latest.items }
        ensures firsts { self.new.firsts.items ≡ self.old.firsts.items }
    {
        self.markers.push(marker)?;
        self.standings.push(standing)?;
        Ok(())
    }

    /// Adds a marker that waits for no end.
    fn add_whole(&mut self, marker: Marker) -> Result<(), AllocError>
        ensures kept { (strings : List (List ℕ)) → IsKept strings self.old → marker.name < length strings → OnOk result (IsKept strings self.new) }
        ensures drafts { length self.old.standings.items ≡ length self.old.markers.items
            → OnOk result (drafts_in self.new ≡ drafts_in self.old ++ whole marker ∷ []) }
    {
        self.add(marker, Standing::Whole)
    }

    /// Adds the start of an interval.
    fn open(
        &mut self,
        strings: &Strings,
        times: SampleTimes,
        row: RawMarker,
    ) -> Result<(), AllocError>
        requires name { row.name < length strings.now }
        requires few { length self.old.markers.items < 4294967295 }
        requires kept { IsKept strings.now self.old }
        ensures kept { OnOk result (IsKept strings.now self.new) }
        ensures drafts { OnOk result (drafts_in self.new ≡ drafts_in self.old ++ unended times.last row ∷ []) }
    {
        let name = self.name_place(strings, row.name);
        let place = self.markers.len() as u32;
        let behind = self.latest[name];
        self.add(unended(times, row), Standing::Waiting { behind })?;
        self.latest[name] = Some(place);
        Ok(())
    }

    /// Lets an end close the latest open start of its name, which stands at a place.
    fn close(&mut self, name: usize, place: usize, row: RawMarker)
        requires name { name < length self.old.latest.items }
        requires place { place < length self.old.markers.items }
        requires many { length self.old.standings.items ≡ length self.old.markers.items }
        ensures markers { (m : Marker) → slice_get self.old.markers.items place ≡ Some m
            → self.new.markers.items ≡ slice_set self.old.markers.items place (record m { end = number_of row.end; more = row.texts }) }
        ensures latest { (s : Standing) → slice_get self.old.standings.items place ≡ Some s
            → self.new.latest.items ≡ slice_set self.old.latest.items name (behind_of s) }
        ensures standings { self.new.standings.items ≡ slice_set self.old.standings.items place Standing.Whole }
        ensures firsts { self.new.firsts.items ≡ self.old.firsts.items }
    {
        self.latest[name] = self.standings[place].behind();
        self.standings[place] = Standing::Whole;
        let marker = &mut self.markers[place];
        marker.end = time_of(row.end);
        marker.more = row.texts;
    }

    /// Takes in the end of an interval.
    fn end(
        &mut self,
        strings: &Strings,
        times: SampleTimes,
        row: RawMarker,
    ) -> Result<(), AllocError>
        requires name { row.name < length strings.now }
        requires kept { IsKept strings.now self.old }
        ensures kept { OnOk result (IsKept strings.now self.new) }
        ensures drafts { OnOk result (drafts_in self.new ≡ after_end strings.now times.first (drafts_in self.old) row) }
    {
        let name = self.name_place(strings, row.name);
        match self.latest[name] {
            Some(place) => {
                self.close(name, place as usize, row);
                Ok(())
            }
            None => self.add_whole(unstarted(times, row)),
        }
    }

    /// Takes in the next row.
    pub fn take_in(
        &mut self,
        strings: &Strings,
        times: SampleTimes,
        row: RawMarker,
    ) -> Result<(), AllocError>
        requires name { row.name < length strings.now }
        requires few { length self.old.markers.items < 4294967295 }
        requires kept { IsKept strings.now self.old }
        ensures kept { OnOk result (IsKept strings.now self.new) }
        ensures drafts { OnOk result (drafts_in self.new ≡ after_row strings.now times.first times.last (drafts_in self.old) row) }
    {
        match row.phase {
            0 => self.add_whole(instant(row)),
            1 => self.add_whole(interval(row)),
            2 => self.open(strings, times, row),
            _ => self.end(strings, times, row),
        }
    }
}
