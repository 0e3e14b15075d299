//! A session that a script saves is loaded again out of the database.
ghost use Rattle.std.specs.Prelude.{◌≡◌, ◌<◌};

use prof_io::{Keeper, Steps};
use prof_memory::MemSink;
use prof_script::play_script;
use prof_session_desk::Desk;
use prof_sql_keeper::SqlKeeper;
use prof_worked::profile_of;
use prof_worked::profiles::P;
use std::alloc::Global;
use std::marker::Brand;
use std::process::Abort;
use std::sync::ledger::{Blank, Ledger};
use std::test::Fail;

const SCRIPT: &str = "a open main 0\na save\na close\na load main\na address\n";

const REPLIES: &str = "ok 0\nok 0\nok\nok 0\naddress thread=0\n";

/// Plays the script on a new desk, and compares the replies.
fn assert_replies<L: Ledger>(
    rt: &impl Abort,
    alloc: Global,
    keeper: &mut SqlKeeper,
    blank: Blank,
) -> Result<(), Fail>
    requires name { blank.name ≡ L.name }
    requires parts { blank.parts ≡ L.parts }
    requires some { 0 < L.parts }
{
    let mut reads: Steps<L> = Steps::new(blank);
    let mut desk = Desk::new(alloc);
    desk.add_profile(alloc, "main", profile_of(alloc, P)?, [0; 32])?;
    let mut out = MemSink::new(alloc, 4096, 4096, Vec::new(alloc))?;
    let played = play_script(
        alloc,
        &mut desk,
        SCRIPT.as_bytes(),
        keeper,
        &mut out,
        &mut reads,
    );
    assert_eq!(rt; played, Ok(()));
    assert_eq!(rt; out.bytes(), REPLIES.as_bytes());
    Ok(())
}

#[test]
fn a_session_is_saved_and_loaded(rt: HostRuntime) -> Result<(), Fail> {
    let alloc = rt.alloc();
    let mut keeper = SqlKeeper::new(rt.clone()?);
    keeper.begin(alloc, "")?;
    assert_replies::<Brand>(&rt, alloc, &mut keeper, Blank::new(1))
}
