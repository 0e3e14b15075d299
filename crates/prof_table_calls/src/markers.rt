//! The markers of a small thread, and what a search finds among them.
use prof_marker::{Marker, MarkerList, derive, search, spans};
use prof_path::{Range, Span, terms};
use prof_worked::profiles::{MARKED, MARKED_ALONE};
use prof_worked::thread_of;
use std::test::Fail;

/// A marker with the places of its start's texts and of its end's. The only text stands at the place 0.
const fn marker(name: u32, start: i64, end: i64, texts: (u32, u32), more: (u32, u32)) -> Marker {
    Marker {
        name,
        start,
        end,
        texts,
        more,
    }
}

#[test]
fn ends_close_starts(rt: HostRuntime) -> Result<(), Fail> {
    let alloc = rt.alloc();
    let held = thread_of(alloc, MARKED)?;
    let thread = &*held;
    let markers = derive(alloc, thread.markers(), thread.strings(), thread)?;
    let wanted = [
        marker(0, 1000000, 3000000, (0, 0), (1, 1)),
        marker(1, 2000000, 2000000, (0, 1), (0, 0)),
        marker(0, 0, 4000000, (1, 1), (0, 0)),
        marker(1, 4500000, 5000000, (1, 1), (0, 0)),
    ];
    assert_eq!(rt; markers.as_slice(), wanted.as_slice());
    Ok(())
}

#[test]
fn unpaired_rows_without_samples(rt: HostRuntime) -> Result<(), Fail> {
    let alloc = rt.alloc();
    let held = thread_of(alloc, MARKED_ALONE)?;
    let thread = &*held;
    let markers = derive(alloc, thread.markers(), thread.strings(), thread)?;
    let wanted = [
        marker(0, 1000000, 3000000, (0, 0), (1, 1)),
        marker(1, 2000000, 2000000, (0, 1), (0, 0)),
        marker(0, 4000000, 4000000, (1, 1), (0, 0)),
        marker(1, 4500000, 4500000, (1, 1), (0, 0)),
    ];
    assert_eq!(rt; markers.as_slice(), wanted.as_slice());
    Ok(())
}

#[test]
fn markers_are_found(rt: HostRuntime) -> Result<(), Fail> {
    let alloc = rt.alloc();
    let held = thread_of(alloc, MARKED)?;
    let thread = &*held;
    let markers = derive(alloc, thread.markers(), thread.strings(), thread)?;
    let by_text = search(alloc, &markers, thread, &terms(alloc, "A/")?, &[])?;
    assert_eq!(rt; by_text.as_slice(), [1].as_slice());
    let by_either = search(alloc, &markers, thread, &terms(alloc, "A/,gc")?, &[])?;
    assert_eq!(rt; by_either.as_slice(), [0, 1, 2].as_slice());
    let range = Range {
        start: 3500000,
        end: 4000000,
    };
    let within = search(alloc, &markers, thread, &terms(alloc, "")?, &[range])?;
    assert_eq!(rt; within.as_slice(), [2].as_slice());
    Ok(())
}

#[test]
fn intervals_are_found(rt: HostRuntime) -> Result<(), Fail> {
    let alloc = rt.alloc();
    let held = thread_of(alloc, MARKED)?;
    let thread = &*held;
    let markers = derive(alloc, thread.markers(), thread.strings(), thread)?;
    let found = spans(alloc, &markers, thread, "GC")?;
    let wanted = [
        Span {
            start: 1000000,
            end: 3000000,
        },
        Span {
            start: 0,
            end: 4000000,
        },
    ];
    assert_eq!(rt; found.as_slice(), wanted.as_slice());
    Ok(())
}

#[test]
fn lists_are_copied(rt: HostRuntime) -> Result<(), Fail> {
    let alloc = rt.alloc();
    let mut list = MarkerList::new(alloc);
    list.push(marker(3, -5, 7, (1, 2), (2, 3)))?;
    let list = list.copy(alloc)?;
    assert_eq!(rt;
        list.as_slice(),
        [marker(3, -5, 7, (1, 2), (2, 3))].as_slice()
    );
    Ok(())
}
