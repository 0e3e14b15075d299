//! What is read of profiles, and the calls on a whole thread.
ghost use Rattle.std.specs.Prelude.{◌≡◌, ◌<◌, length};

use prof_io::Steps;
use prof_memory::SteadySource;
use prof_read::{Form, read_profile};
use prof_tables::{
    FrameRow, FuncStrings, RawMarker, SampleRow, StackRow, Stacks, StacksBuilder, Strings, Thread,
    Unit,
};
use prof_worked::profiles::{P, SHARED, SMALL};
use prof_worked::{profile_of, thread_of};
use std::marker::Brand;
use std::process::Abort;
use std::sync::ledger::{Blank, Ledger};
use std::test::Fail;

/// The digest of P's text, as `sha256sum` has it.
const DIGEST: [u8; 32] = [
    0x3c, 0xac, 0x0d, 0xf1, 0x68, 0x88, 0x54, 0x43, 0x9e, 0x75, 0xd3, 0x44, 0x6b, 0x17, 0xbf, 0x20,
    0xa6, 0x72, 0x70, 0xe6, 0xd0, 0xf8, 0x91, 0xe2, 0xc2, 0x33, 0x55, 0x61, 0xe6, 0x74, 0x90, 0xae,
];

#[test]
fn a_profile_has_its_digest(rt: HostRuntime) -> Result<(), Fail> {
    let alloc = rt.alloc();
    for piece in [1, 7, 65536] {
        let mut source = SteadySource::new(P.as_bytes().to_vec(alloc)?, piece);
        let (profile, digest, form) = read_profile(alloc, &mut source)?;
        assert_eq!(rt; form, Form::Processed);
        assert_eq!(rt; digest, DIGEST);
        assert_eq!(rt; profile.categories.len(), 1);
        assert_eq!(rt; profile.categories[0].as_str(), "Other");
        assert_eq!(rt; profile.threads.len(), 1);
    }
    Ok(())
}

#[test]
fn threads_stand_on_shared_tables(rt: HostRuntime) -> Result<(), Fail> {
    let profile = profile_of(rt.alloc(), SHARED)?;
    assert_eq!(rt; profile.threads.len(), 2);
    assert_eq!(rt; profile.threads[0].sample_count(), 6);
    let second = &*profile.threads[1];
    assert_eq!(rt; second.name(), "U");
    assert_eq!(rt; second.func_count(), 4);
    assert_eq!(rt; second.sample_count(), 2);
    let wanted = SampleRow {
        stack: Some(5),
        time: 0,
        weight: 1,
    };
    assert_eq!(rt; second.sample(0), wanted);
    Ok(())
}

#[test]
fn functions_and_frames_of_their_columns(rt: HostRuntime) -> Result<(), Fail> {
    let held = thread_of(rt.alloc(), SMALL)?;
    let thread = &*held;
    assert_eq!(rt; thread.name(), "T");
    assert_eq!(rt; thread.category_count(), 2);
    assert_eq!(rt; thread.default_category(), 0);
    assert_eq!(rt; thread.func_count(), 2);
    assert_eq!(rt; thread.resource_count(), 2);
    for (func, name, file, resource) in [
        (0, "A", None, None),
        (1, "B", Some("app"), Some(1)),
        (2, "A", None, Some(0)),
        (3, "app", None, Some(1)),
    ] {
        assert!(rt; func < 4);
        assert_eq!(rt; thread.func_name(func), name);
        assert_eq!(rt; thread.file_name(func), file);
        assert_eq!(rt; thread.func_resource(func), resource);
    }
    assert_eq!(rt; (thread.is_js(0), thread.is_js(1)), (true, false));
    assert_eq!(rt;
        (thread.relevant_for_js(0), thread.relevant_for_js(1)),
        (false, true)
    );
    assert_eq!(rt; thread.resource_name(1), "app");
    assert_eq!(rt; thread.resource_string(1), 2);
    let wanted = FuncStrings {
        name: 1,
        file: Some(2),
    };
    assert_eq!(rt; thread.func_strings(1), wanted);
    assert_eq!(rt; thread.frame_count(), 2);
    let wanted = FrameRow {
        func: 1,
        category: Some(1),
    };
    assert_eq!(rt; thread.frame(1), wanted);
    assert_eq!(rt; thread.strings().count(), 3);
    Ok(())
}

#[test]
fn samples_and_markers_of_their_columns(rt: HostRuntime) -> Result<(), Fail> {
    let held = thread_of(rt.alloc(), SMALL)?;
    let thread = &*held;
    assert_eq!(rt; thread.unit(), Unit::Bytes);
    assert_eq!(rt; thread.sample_count(), 2);
    let first = SampleRow {
        stack: Some(1),
        time: 5_000_000,
        weight: 2,
    };
    let second = SampleRow {
        stack: None,
        time: 7_000_000,
        weight: -3,
    };
    assert_eq!(rt; thread.sample(0), first);
    assert_eq!(rt; thread.sample(1), second);
    let markers = [
        RawMarker {
            name: 0,
            phase: 1,
            start: Some(3_000_000),
            end: Some(9_000_000),
            texts: (0, 2),
        },
        RawMarker {
            name: 1,
            phase: 0,
            start: Some(4_000_000),
            end: None,
            texts: (2, 2),
        },
    ];
    assert_eq!(rt; thread.markers().rows.as_slice(), markers.as_slice());
    // Of the members of one name the last counts, and what isn't a text is left out.
    assert_eq!(rt; thread.markers().texts.len(), 2);
    assert_eq!(rt; thread.markers().texts[0].as_str(), "y");
    assert_eq!(rt; thread.markers().texts[1].as_str(), "z");
    Ok(())
}

#[test]
fn other_samples_leave_the_rest(rt: HostRuntime) -> Result<(), Fail> {
    let held = thread_of(rt.alloc(), SMALL)?;
    let thread = &*held;
    assert_eq!(rt; thread.stacks().count(), 2);
    let row = SampleRow {
        stack: Some(0),
        time: 11,
        weight: 8,
    };
    let rows = vec![in rt.alloc(); row]?;
    let other = thread.with_samples(rt.alloc(), rows, Unit::Ns)?;
    assert_eq!(rt; other.sample_count(), 1);
    assert_eq!(rt; other.sample(0), row);
    assert_eq!(rt; other.unit(), Unit::Ns);
    assert_eq!(rt; other.name(), "T");
    assert_eq!(rt; other.func_count(), 2);
    assert_eq!(rt; other.markers().rows.len(), 2);
    Ok(())
}

/// Each row is its frame's function and category, or its prefix's category, or the default 0; a look is a reading.
fn rows_are_read<L: Ledger>(rt: &impl Abort, thread: &Thread, blank: Blank)
    requires name { blank.name ≡ L.name }
    requires parts { blank.parts ≡ L.parts }
    requires some { 0 < L.parts }
{
    let mut reads: Steps<L> = Steps::new(blank);
    let stacks = thread.stacks();
    assert_eq!(rt; stacks.count(), 2);
    let root = StackRow {
        prefix: None,
        func: 1,
        category: 1,
    };
    let leaf = StackRow {
        prefix: Some(0),
        func: 0,
        category: 1,
    };
    assert_eq!(rt; stacks.row(0, &mut reads), root);
    assert_eq!(rt; stacks.row(1, &mut reads), leaf);
    assert_eq!(rt; thread.stack_frame(0, &mut reads), 1);
    assert_eq!(rt; thread.stack_frame(1, &mut reads), 0);
}

#[test]
fn stack_rows_of_their_columns(rt: HostRuntime) -> Result<(), Fail> {
    let held = thread_of(rt.alloc(), SMALL)?;
    let thread = &*held;
    rows_are_read::<Brand>(&rt, thread, Blank::new(1));
    Ok(())
}

fn built_row_is_read<L: Ledger>(rt: &impl Abort, stacks: &Stacks, row: StackRow, blank: Blank)
    requires name { blank.name ≡ L.name }
    requires parts { blank.parts ≡ L.parts }
    requires some { 0 < L.parts }
{
    let mut reads: Steps<L> = Steps::new(blank);
    assert_eq!(rt; stacks.count(), 2);
    assert_eq!(rt; stacks.row(1, &mut reads), row);
}

#[test]
fn stack_rows_are_added(rt: HostRuntime) -> Result<(), Fail> {
    let mut builder = StacksBuilder::new(rt.alloc(), 2, 4, 3)?;
    assert_eq!(rt; builder.add(None, 3, 0), 0);
    assert_eq!(rt; builder.add(Some(0), 1, 2), 1);
    let stacks = builder.done();
    let row = StackRow {
        prefix: Some(0),
        func: 1,
        category: 2,
    };
    built_row_is_read::<Brand>(&rt, &stacks, row, Blank::new(1));
    Ok(())
}

#[test]
fn doubled_text_has_its_first_place(rt: HostRuntime) -> Result<(), Fail> {
    let mut texts = Vec::new(rt.alloc());
    texts.push(String::from_str(rt.alloc(), "A")?)?;
    texts.push(String::from_str(rt.alloc(), "B")?)?;
    texts.push(String::from_str(rt.alloc(), "A")?)?;
    let strings = Strings::of(rt.alloc(), texts)?;
    assert_eq!(rt; strings.count(), 3);
    for (place, text) in [(0, Some("A")), (1, Some("B")), (2, Some("A")), (3, None)] {
        assert_eq!(rt; strings.get(place), text);
    }
    for (text, place) in [("A", Some(0)), ("B", Some(1)), ("C", None)] {
        assert_eq!(rt; strings.place(text), place);
    }
    Ok(())
}
