//! The program: makes the real outside, and runs the desk over it.
#![tactic(auto)]

ghost use Rattle.std.specs.Prelude.{◌≡◌, ◌<◌};

use prof_desk::{Status, WordRefusal, refuse, run};
use prof_io::Steps;
use prof_listener::OsHall;
use prof_sql_keeper::SqlKeeper;
use prof_system::{OsFiles, OsSink};
use std::env;
use std::io::ErrorKind;
use std::marker::Brand;
use std::process::ExitCode;
use std::sync::ledger::{Blank, Ledger};

/// The words of the command line after the program's name. Words that aren't all text fit no command.
fn words_of(rt: &HostRuntime) -> Result<Vec<String>, WordRefusal> {
    match env::args(rt) {
        Ok(words) => words
            .skip(1)
            .collect(rt.alloc())
            .map_err(|_| WordRefusal::NoMemory),
        Err(error) if error.kind() == ErrorKind::OutOfMemory => Err(WordRefusal::NoMemory),
        Err(_) => Err(WordRefusal::Usage),
    }
}

/// Runs the desk over the system's files, streams and sockets and a database of texts, with a counter of readings of its own.
fn run_counted<L: Ledger>(rt: &HostRuntime, words: &[String], blank: Blank) -> Status
    requires name { blank.name ≡ L.name }
    requires parts { blank.parts ≡ L.parts }
    requires some { 0 < L.parts }
{
    let alloc = rt.alloc();
    let mut files = OsFiles::new(rt);
    let mut hall = OsHall::new(rt);
    let mut out = OsSink::new(rt.stdout());
    let mut err = OsSink::new(rt.stderr());
    let Ok(runtime) = rt.clone() else {
        return refuse(&mut err, WordRefusal::NoMemory);
    };
    let mut keeper = SqlKeeper::new(runtime);
    let mut reads: Steps<L> = Steps::new(blank);
    run(
        alloc,
        words,
        &mut files,
        &mut hall,
        &mut keeper,
        &mut out,
        &mut err,
        &mut reads,
    )
}

fn main(rt: HostRuntime) -> ExitCode {
    let status = match words_of(&rt) {
        Ok(words) => run_counted::<Brand>(&rt, &words, Blank::new(1)),
        Err(refusal) => refuse(&mut OsSink::new(rt.stderr()), refusal),
    };
    ExitCode::from(status as u8)
}
