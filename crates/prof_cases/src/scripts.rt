//! Scripts played by themselves, over a keeper that may hold texts at the start.
use prof_desk::Status;
use prof_io::{Files, Keeper, NoMemory, Sink, Source, Steps};
use prof_read::read_profile;
use prof_script::{PlayEnd, play_script};
use prof_session_desk::Desk;
use std::alloc::Global;
use std::sync::ledger::Ledger;

/// How many bytes are read at a time.
const PIECE: usize = 65536;

/// A desk with the profile of that name, as `main`, or why there is none.
fn desk_of<F: Files>(alloc: Global, name: &str, files: &mut F) -> Result<Desk, Status> {
    if files.begin(name).is_err() {
        return Err(Status::FileFault);
    }
    let Ok(read) = read_profile(alloc, files) else {
        return Err(Status::Broken);
    };
    let (profile, digest, _) = read;
    let mut desk = Desk::new(alloc);
    match desk.add_profile(alloc, "main", profile, digest) {
        Ok(()) => Ok(desk),
        Err(NoMemory) => Err(Status::NoMemory),
    }
}

/// All bytes of the file of that name, of which there are no more than 16 MiB.
fn bytes_of<F: Files>(alloc: Global, name: &str, files: &mut F) -> Result<Vec<u8>, Status> {
    if files.begin(name).is_err() {
        return Err(Status::FileFault);
    }
    let mut bytes = Vec::new(alloc);
    for _ in 0..16_777_216u32 {
        let mut piece = [0; PIECE];
        match files.read(&mut piece) {
            Ok(0) => return Ok(bytes),
            Ok(count) => match bytes.extend_from_slice(&piece[..count]) {
                Ok(()) => {}
                Err(_) => return Err(Status::NoMemory),
            },
            Err(_) => return Err(Status::FileFault),
        }
    }
    Err(Status::Broken)
}

/// Plays the script of that name over the profile of that name.
pub fn play_script_of<F: Files, K: Keeper, S: Sink, L: Ledger>(
    alloc: Global,
    profile: &str,
    script: &str,
    files: &mut F,
    keeper: &mut K,
    out: &mut S,
    reads: &mut Steps<L>,
) -> Status {
    let mut desk = match desk_of(alloc, profile, files) {
        Ok(desk) => desk,
        Err(status) => return status,
    };
    let script = match bytes_of(alloc, script, files) {
        Ok(script) => script,
        Err(status) => return status,
    };
    match play_script(alloc, &mut desk, &script, keeper, out, reads) {
        Ok(()) => Status::Done,
        Err(PlayEnd::OutFault) => Status::OutFault,
        Err(PlayEnd::NoMemory) => Status::NoMemory,
    }
}
