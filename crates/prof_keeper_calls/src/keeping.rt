//! Texts are put and found again, in memory and by a second keeper in a file; and what no keeper begins.

use prof_io::{KeepRefusal, Keeper};
use prof_sql_keeper::SqlKeeper;
use std::alloc::Global;
use std::test::Fail;
use std::{env, fs, process};

/// A folder of this test alone.
fn new_folder(rt: &HostRuntime, test: &str) -> Result<String, Fail> {
    let temporary = env::temp_dir(rt)?;
    let temporary = temporary.as_str();
    let number = process::id(rt.process());
    let folder = format!(in rt.alloc(); "{temporary}/profdesk-{test}-{number}")?;
    fs::create_dir(rt, folder.as_str())?;
    Ok(folder)
}

/// Two keys, one of them put again with another text.
fn put_two(keeper: &mut SqlKeeper, alloc: Global) -> Result<(), Fail> {
    keeper.put(alloc, "a", "1")?;
    keeper.put(alloc, "é", "two\nlines")?;
    keeper.put(alloc, "a", "3")?;
    Ok(())
}

fn has(keeper: &mut SqlKeeper, alloc: Global, key: &str, text: &str) -> Result<bool, Fail> {
    match keeper.get(alloc, key)? {
        Some(found) => Ok(found.as_str() == text),
        None => Ok(false),
    }
}

/// The two texts of `put_two` are there, and no third one.
fn has_two(keeper: &mut SqlKeeper, alloc: Global) -> Result<bool, Fail> {
    let first = has(keeper, alloc, "a", "3")?;
    let second = has(keeper, alloc, "é", "two\nlines")?;
    let third = keeper.get(alloc, "b")?;
    Ok(first && second && third.is_none())
}

#[test]
fn in_memory(rt: HostRuntime) -> Result<(), Fail> {
    let alloc = rt.alloc();
    let mut keeper = SqlKeeper::new(rt.clone()?);
    assert_eq!(rt; keeper.put(alloc, "a", "1"), Err(KeepRefusal::Failed));
    keeper.begin(alloc, "")?;
    put_two(&mut keeper, alloc)?;
    assert!(rt; has_two(&mut keeper, alloc)?);
    keeper.begin(alloc, "")?;
    assert!(rt; keeper.get(alloc, "a")?.is_none());
    Ok(())
}

#[test]
fn in_a_file(rt: HostRuntime) -> Result<(), Fail> {
    let alloc = rt.alloc();
    let folder = new_folder(&rt, "kept")?;
    let folder = folder.as_str();
    let name = format!(in alloc; "{folder}/sessions")?;
    let log = format!(in alloc; "{folder}/sessions-wal")?;
    let mut keeper = SqlKeeper::new(rt.clone()?);
    keeper.begin(alloc, name.as_str())?;
    put_two(&mut keeper, alloc)?;
    keeper.begin(alloc, name.as_str())?;
    assert!(rt; has_two(&mut keeper, alloc)?);

    // The file that is open is begun by no second keeper. Once it is closed, it holds all without its log.
    let mut second = SqlKeeper::new(rt.clone()?);
    assert_eq!(rt;
        second.begin(alloc, name.as_str()),
        Err(KeepRefusal::Failed)
    );
    drop(keeper);
    fs::remove_file(&rt, log.as_str())?;
    second.begin(alloc, name.as_str())?;
    assert!(rt; has_two(&mut second, alloc)?);
    drop(second);
    fs::remove_dir_all(&rt, folder)?;
    Ok(())
}

#[test]
fn what_is_no_database_is_refused(rt: HostRuntime) -> Result<(), Fail> {
    let alloc = rt.alloc();
    let folder = new_folder(&rt, "refused")?;
    let folder = folder.as_str();
    let other = format!(in alloc; "{folder}/other")?;
    let missing = format!(in alloc; "{folder}/missing/sessions")?;
    fs::write(&rt, other.as_str(), "Some text, and no database.")?;
    let mut keeper = SqlKeeper::new(rt.clone()?);
    keeper.begin(alloc, "")?;
    put_two(&mut keeper, alloc)?;
    for name in [other.as_str(), folder, missing.as_str(), ":memory:"] {
        assert_eq!(rt;
            keeper.begin(alloc, name),
            Err(KeepRefusal::Failed),
            "{name}"
        );
    }
    assert!(rt; has_two(&mut keeper, alloc)?);
    let left = fs::read_to_string(&rt, other.as_str())?;
    assert_eq!(rt; left.as_str(), "Some text, and no database.");
    fs::remove_dir_all(&rt, folder)?;
    Ok(())
}
