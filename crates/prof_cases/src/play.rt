// A case played over the outside in memory.
ghost use Rattle.std.specs.Prelude.{◌≡◌, ◌<◌, ◌≤◌};

use crate::case::{Call, Case, Named, Object, Wanted};
use crate::difference::compare;
use crate::scripts::play_script_of;
use anyhow::Result;
use prof_desk::{Status, run};
use prof_io::{Keeper, Steps, Text};
use prof_memory::{MapKeeper, MemFiles, MemHall, MemSink};
use std::alloc::Global;
use std::marker::Brand;
use std::sync::ledger::{Blank, Ledger};

/// The outside of a case.
#[derive(Drop)]
struct Outside {
    files: MemFiles,
    hall: MemHall,
    keeper: MapKeeper,
    out: MemSink,
    err: MemSink,
}

fn counted<L: Ledger>(
    alloc: Global,
    words: &[String],
    outside: &mut Outside,
    blank: Blank,
) -> Status
    requires name { blank.name ≡ L.name }
    requires parts { blank.parts ≡ L.parts }
    requires some { 0 < L.parts }
{
    let mut reads: Steps<L> = Steps::new(blank);
    if let [first, profile, script] = words
        && first.as_str() == "play"
    {
        return play_script_of(
            alloc,
            profile.as_str(),
            script.as_str(),
            &mut outside.files,
            &mut outside.keeper,
            &mut outside.out,
            &mut reads,
        );
    }
    run(
        alloc,
        words,
        &mut outside.files,
        &mut outside.hall,
        &mut outside.keeper,
        &mut outside.out,
        &mut outside.err,
        &mut reads,
    )
}

fn shelf_of(alloc: Global, files: &[Named]) -> Result<Vec<(Text, Vec<u8>)>> {
    let mut shelf = Vec::new(alloc);
    for file in files {
        let mut name = Text::new(alloc);
        name.push_str(file.name.as_str())?;
        shelf.push((name, file.bytes.clone()?))?;
    }
    Ok(shelf)
}

fn coming_of(alloc: Global, connections: &[Vec<u8>]) -> Result<Vec<Vec<u8>>> {
    let mut coming = Vec::new(alloc);
    for bytes in connections {
        coming.push(bytes.clone()?)?;
    }
    Ok(coming)
}

/// The calls of an object that fail: those of the case, and the one of its sweep. Each has so many added.
fn calls_of(
    alloc: Global,
    case: &Case,
    swept: Option<Call>,
    object: Object,
    added: u64,
) -> Result<Vec<u64>> {
    let mut calls = case.failing_calls(alloc, object, added)?;
    if let Some(call) = swept
        && call.object == object
    {
        calls.push(added.saturating_add(call.number as u64))?;
    }
    Ok(calls)
}

/// A keeper that holds the kept texts. The calls that put them there come before those of the case.
fn keeper_of(alloc: Global, case: &Case, swept: Option<Call>) -> Result<MapKeeper> {
    let added = case.kept.len() as u64;
    let calls = calls_of(alloc, case, swept, Object::Keeper, added)?;
    let mut keeper = MapKeeper::new(alloc, calls);
    for one in &case.kept {
        let text = str::from_utf8(one.bytes.as_slice())?;
        keeper.put(alloc, one.name.as_str(), text)?;
    }
    Ok(keeper)
}

fn outside_of(alloc: Global, case: &Case, piece: usize, swept: Option<Call>) -> Result<Outside>
    requires { 1 ≤ piece }
{
    let files = shelf_of(alloc, &case.files)?;
    let coming = coming_of(alloc, &case.connections)?;
    let of_files = calls_of(alloc, case, swept, Object::Files, 0)?;
    let of_hall = calls_of(alloc, case, swept, Object::Hall, 0)?;
    let of_out = calls_of(alloc, case, swept, Object::Out, 0)?;
    let of_err = calls_of(alloc, case, swept, Object::Err, 0)?;
    Ok(Outside {
        files: MemFiles::new(files, piece, of_files),
        hall: MemHall::new(alloc, coming, case.room, piece, of_hall)?,
        keeper: keeper_of(alloc, case, swept)?,
        out: MemSink::new(alloc, case.room, 16, of_out)?,
        err: MemSink::new(alloc, 4096, 64, of_err)?,
    })
}

/// The first difference among what the connections got.
fn difference_of_answers(alloc: Global, case: &Case, hall: &MemHall) -> Result<Option<String>> {
    let nothing = Wanted::nothing(alloc);
    for number in 0..case.connections.len() {
        let wanted = case.answers.get(number).unwrap_or(&nothing);
        let came = hall.answer(number).unwrap_or(b"");
        let difference = compare(alloc, "an answer", wanted, came)?;
        if difference.is_some() {
            return Ok(difference);
        }
    }
    Ok(None)
}

/// The first difference between what came of a case and what was to come.
fn difference_of(
    alloc: Global,
    case: &Case,
    outside: &Outside,
    status: u8,
) -> Result<Option<String>> {
    let difference = compare(alloc, "err", &case.err, outside.err.bytes())?;
    if difference.is_some() {
        return Ok(difference);
    }
    let wanted = case.status;
    if status != wanted {
        let told = format!(in alloc; "the status is {status}, and not {wanted}")?;
        return Ok(Some(told));
    }
    let difference = compare(alloc, "out", &case.out, outside.out.bytes())?;
    if difference.is_some() {
        return Ok(difference);
    }
    difference_of_answers(alloc, case, &outside.hall)
}

/// Plays a case in pieces of one size, with the call of its sweep failing, and tells of the first difference.
fn play(alloc: Global, case: &Case, piece: usize, swept: Option<Call>) -> Result<Option<String>>
    requires { 1 ≤ piece }
{
    let mut outside = outside_of(alloc, case, piece, swept)?;
    let status = counted::<Brand>(alloc, &case.words, &mut outside, Blank::new(1)) as u8;
    let Some(difference) = difference_of(alloc, case, &outside, status)? else {
        return Ok(None);
    };
    let difference = difference.as_str();
    Ok(Some(match swept {
        None => format!(in alloc; ", in pieces of {piece}: {difference}")?,
        Some(Call { number, .. }) => {
            format!(in alloc; ", in pieces of {piece}, call {number} failing: {difference}")?
        }
    }))
}

/// Plays a case in pieces of one size, once for each call of its sweep.
fn play_sweep(alloc: Global, case: &Case, piece: usize) -> Result<Option<String>>
    requires { 1 ≤ piece }
{
    let Some(sweep) = case.sweep else {
        return play(alloc, case, piece, None);
    };
    let object = sweep.object;
    for number in sweep.first..sweep.end {
        let difference = play(alloc, case, piece, Some(Call { object, number }))?;
        if difference.is_some() {
            return Ok(difference);
        }
    }
    Ok(None)
}

/// Plays a case, and tells of the first difference between what came and what was to come.
pub fn first_difference(alloc: Global, case: &Case) -> Result<Option<String>> {
    if case.pieces.is_empty() {
        return play_sweep(alloc, case, 65536);
    }
    for piece in &case.pieces {
        if *piece > 0 {
            let difference = play_sweep(alloc, case, *piece)?;
            if difference.is_some() {
                return Ok(difference);
            }
        }
    }
    Ok(None)
}
