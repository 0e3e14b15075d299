//! Each form of the outside on its happy path, and where a call fails in mid-stream.
ghost use Rattle.std.specs.Prelude.{◌≡◌, ◌<◌};

use prof_io::{
    Failed, Files, Hall, KeepRefusal, Keeper, OutFault, Sink, Source, Steps, Text, copy_out,
};
use prof_memory::{
    MapKeeper, MemFiles, MemHall, MemSink, MemSource, SteadyFiles, SteadyHall, SteadyKeeper,
    SteadySink, SteadySource,
};
use prof_system::{OsFiles, OsSink};
use std::alloc::Global;
use std::marker::Brand;
use std::sync::ledger::{Blank, Ledger};
use std::test::Fail;
use std::{env, fs, process};

fn text(alloc: Global, from: &str) -> Result<Text, Fail> {
    let mut text = Text::new(alloc);
    text.push_str(from)?;
    Ok(text)
}

#[test]
fn texts_grow_and_are_copied(rt: HostRuntime) -> Result<(), Fail> {
    let mut name = text(rt.alloc(), "fire")?;
    name.push_str("fox")?;
    assert_eq!(rt; name.copy(rt.alloc())?.as_str(), "firefox");
    Ok(())
}

fn counted_twice<L: Ledger>(blank: Blank)
    requires name { blank.name ≡ L.name }
    requires parts { blank.parts ≡ L.parts }
    requires some { 0 < L.parts }
{
    let mut steps: Steps<L> = Steps::new(blank);
    steps.tick();
    steps.tick();
}

#[test]
fn steps_are_counted() {
    counted_twice::<Brand>(Blank::new(1));
}

#[test]
fn a_source_goes_on_after_a_fault(rt: HostRuntime) -> Result<(), Fail> {
    let alloc = rt.alloc();
    let mut source = MemSource::new(b"abcde".to_vec(alloc)?, 2, vec![in alloc; 2]?);
    let mut buf = [0u8; 3];
    for (answer, got) in [
        (Ok(2), b"ab"),
        (Err(Failed), b"ab"),
        (Ok(2), b"cd"),
        (Ok(1), b"ed"),
        (Ok(0), b"ed"),
    ] {
        assert_eq!(rt; source.read(&mut buf), answer);
        assert_eq!(rt; &buf[..2], got.as_slice());
    }
    Ok(())
}

#[test]
fn a_sink_takes_pieces_while_it_has_room(rt: HostRuntime) -> Result<(), Fail> {
    let alloc = rt.alloc();
    // the failing call, and the bytes that there are then
    for (failing, answer, bytes) in [
        (9, Ok(()), "abcde"),
        (1, Err(OutFault), ""),
        (2, Err(OutFault), "ab"),
        (3, Err(OutFault), "abcd"),
    ] {
        let mut sink = MemSink::new(alloc, 5, 2, vec![in alloc; failing]?)?;
        assert_eq!(rt;
            copy_out(&mut sink, b"abcde"),
            answer,
            "failing call {failing}"
        );
        assert_eq!(rt; sink.bytes(), bytes.as_bytes());
    }
    let mut small = MemSink::new(alloc, 4, 9, Vec::new(alloc))?;
    assert_eq!(rt; small.write(b"abcde"), Ok(4));
    assert_eq!(rt; small.write(b"e"), Err(Failed));
    assert_eq!(rt; small.bytes(), b"abcd".as_slice());
    Ok(())
}

#[test]
fn files_are_begun_by_name(rt: HostRuntime) -> Result<(), Fail> {
    let alloc = rt.alloc();
    let files = vec![in alloc;
        (text(alloc, "a")?, b"one".to_vec(alloc)?),
        (text(alloc, "b")?, b"two".to_vec(alloc)?),
        (text(alloc, "b")?, b"three".to_vec(alloc)?),
    ]?;
    // calls: begin b, read, read (which fails), read, begin c (there is none), read
    let mut files = MemFiles::new(files, 2, vec![in alloc; 3]?);
    let mut buf = [0u8; 8];
    assert_eq!(rt; files.begin("b"), Ok(()));
    assert_eq!(rt; files.read(&mut buf), Ok(2));
    assert_eq!(rt; files.read(&mut buf), Err(Failed));
    assert_eq!(rt; &buf[..2], b"tw".as_slice());
    assert_eq!(rt; files.read(&mut buf), Ok(1));
    assert_eq!(rt; &buf[..1], b"o".as_slice());
    assert_eq!(rt; files.begin("c"), Err(Failed));
    assert_eq!(rt; files.read(&mut buf), Ok(0));
    Ok(())
}

#[test]
fn a_hall_serves_in_turn(rt: HostRuntime) -> Result<(), Fail> {
    let alloc = rt.alloc();
    let coming = vec![in alloc; b"ab".to_vec(alloc)?, b"c".to_vec(alloc)?]?;
    // calls: listen, next, read, write, write (which fails), next, read, write, next
    let mut hall = MemHall::new(alloc, coming, 6, 4, vec![in alloc; 5]?)?;
    let mut buf = [0u8; 8];
    assert_eq!(rt; hall.listen(80), Ok(()));
    assert_eq!(rt; hall.next(), Ok(true));
    assert_eq!(rt; hall.read(&mut buf), Ok(2));
    assert_eq!(rt; &buf[..2], b"ab".as_slice());
    assert_eq!(rt; hall.write(b"first"), Ok(4));
    assert_eq!(rt; hall.write(b"t"), Err(Failed));
    assert_eq!(rt; hall.next(), Ok(true));
    assert_eq!(rt; hall.read(&mut buf), Ok(1));
    assert_eq!(rt; &buf[..1], b"c".as_slice());
    assert_eq!(rt; hall.write(b"second"), Ok(2));
    assert_eq!(rt; hall.next(), Ok(false));
    assert_eq!(rt; hall.answer(0), Some(b"firs".as_slice()));
    assert_eq!(rt; hall.answer(1), Some(b"se".as_slice()));
    assert_eq!(rt; hall.answer(2), None);
    Ok(())
}

fn is_kept<K: Keeper>(keeper: &mut K, alloc: Global, key: &str, want: &str) -> bool {
    match keeper.get(alloc, key) {
        Ok(Some(text)) => text.as_str() == want,
        _ => false,
    }
}

#[test]
fn keepers_keep_texts_by_their_keys(rt: HostRuntime) -> Result<(), Fail> {
    let alloc = rt.alloc();
    // calls: begin, put, put, put (which fails), get, get, begin
    let mut keeper = MapKeeper::new(alloc, vec![in alloc; 4]?);
    keeper.begin(alloc, "texts")?;
    keeper.put(alloc, "a", "one")?;
    keeper.put(alloc, "b", "two")?;
    assert_eq!(rt; keeper.put(alloc, "a", "three"), Err(KeepRefusal::Failed));
    assert!(rt; is_kept(&mut keeper, alloc, "a", "one"));
    assert!(rt; is_kept(&mut keeper, alloc, "b", "two"));
    keeper.begin(alloc, "")?;
    assert!(rt; !is_kept(&mut keeper, alloc, "b", "two"));

    let mut steady = SteadyKeeper::new(alloc);
    steady.begin(alloc, "texts")?;
    steady.put(alloc, "a", "one")?;
    steady.put(alloc, "a", "two")?;
    assert!(rt; is_kept(&mut steady, alloc, "a", "two"));
    Ok(())
}

#[test]
fn steady_forms_give_what_they_hold(rt: HostRuntime) -> Result<(), Fail> {
    let alloc = rt.alloc();
    let mut buf = [0u8; 8];
    let mut source = SteadySource::new(b"abc".to_vec(alloc)?, 2);
    assert_eq!(rt; source.read(&mut buf), Ok(2));
    let mut sink = SteadySink::new(2);
    assert_eq!(rt; copy_out(&mut sink, b"abc"), Ok(()));

    let mut files = SteadyFiles::new(
        vec![in alloc; (text(alloc, "a")?, b"one".to_vec(alloc)?)]?,
        9,
    );
    assert_eq!(rt; files.begin("a"), Ok(()));
    assert_eq!(rt; files.read(&mut buf), Ok(3));
    assert_eq!(rt; &buf[..3], b"one".as_slice());

    let mut hall = SteadyHall::new(vec![in alloc; b"ab".to_vec(alloc)?]?, 9);
    assert_eq!(rt; hall.listen(80), Ok(()));
    assert_eq!(rt; hall.next(), Ok(true));
    assert_eq!(rt; hall.read(&mut buf), Ok(2));
    assert_eq!(rt; hall.write(b"abc"), Ok(3));
    assert_eq!(rt; hall.next(), Ok(false));
    Ok(())
}

#[test]
fn real_files_are_written_and_read(rt: HostRuntime) -> Result<(), Fail> {
    let alloc = rt.alloc();
    let folder = env::temp_dir(&rt)?;
    let folder = folder.as_str();
    let number = process::id(rt.process());
    let name = format!(in alloc; "{folder}/profdesk-{number}")?;
    let mut sink = OsSink::new(fs::create(&rt, name.as_str())?);
    assert_eq!(rt; copy_out(&mut sink, b"abcde"), Ok(()));

    let mut files = OsFiles::new(&rt);
    let mut buf = [0u8; 3];
    assert_eq!(rt; files.read(&mut buf), Ok(0));
    assert_eq!(rt; files.begin(name.as_str()), Ok(()));
    assert_eq!(rt; files.read(&mut buf), Ok(3));
    assert_eq!(rt; &buf, b"abc");
    assert_eq!(rt; files.read(&mut buf), Ok(2));
    assert_eq!(rt; &buf, b"dec");
    assert_eq!(rt; files.read(&mut buf), Ok(0));
    fs::remove_file(&rt, name.as_str())?;
    assert_eq!(rt; files.begin(name.as_str()), Err(Failed));
    assert_eq!(rt; files.read(&mut buf), Ok(0));
    Ok(())
}
