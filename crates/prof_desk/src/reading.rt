// The files that an order reads.
ghost use Rattle.std.specs.Prelude.{◌≡◌, ◌≢◌, ◌≤◌, ℕ, Err, IfErr, IfOk, IfSome, OnOk, length};
ghost use Rattle.std.specs.Io.KnownBytes.{IsAtEnd};
ghost use Rattle.std.specs.declared.alloc.Global.{Global};
ghost use Rattle.std.specs.declared.vec.Vec.{Vec};
ghost use Rattle.prof_desk.specs.Inputs.{of_script, profile_input, script_limit};
ghost use Rattle.prof_desk.specs.Orders.{a_profile, a_script};
ghost use Rattle.prof_desk.specs.Outcomes.{IsStopOf, Reads};
ghost use Rattle.prof_io.specs.Outside.{seen};

use crate::breaks::Break;
use crate::outcome::Stop;
use prof_io::Files;
use prof_read::{Digest, Form, ReadRefusal, read_profile};
use prof_tables::Profile;
use std::alloc::Global;

/// How many bytes a script may have.
const SCRIPT_LIMIT: usize = 16_777_216;

/// How many bytes of a script are read at a time.
const PIECE: usize = 65_536;

/// Begins the file of that name, and reads it as a profile.
pub fn read_named<F: Files>(
    alloc: Global,
    name: &str,
    files: &mut F,
) -> Result<(Profile, Digest, Form), Stop>
    ensures { Reads profile_input a_profile name.now (seen F.Counted files.old)
        (seen F.Counted files.new) result }
{
    if files.begin(name).is_err() {
        return Err(Stop::FileFault);
    }
    match read_profile(alloc, files) {
        Ok(read) => Ok(read),
        Err(ReadRefusal::Json(fault)) => Err(Stop::Broken(Break::Json(fault))),
        Err(ReadRefusal::Broken(broken)) => Err(Stop::Broken(Break::Rule(broken))),
        Err(ReadRefusal::ReadFault) => Err(Stop::FileFault),
        Err(ReadRefusal::NoMemory) => Err(Stop::NoMemory),
    }
}

/// Reads what is left of a file, unless that is more than a script may have.
fn read_rest<F: Files>(alloc: Global, files: &mut F) -> Result<Vec<u8>, Stop>
    ensures bytes { IfOk result (λ script. IfSome (F.left files.old) (λ bytes. script.items ≡ bytes)) }
    ensures short { IfOk result (λ script. length script.items ≤ script_limit) }
    ensures end { OnOk result (IsAtEnd (F.left files.new)) }
    ensures calm { OnOk result (F.faults files.new ≡ F.faults files.old) }
    ensures refused { IfErr result (λ s. IsStopOf a_script (F.left files.old) (seen F.Counted files.old)
        (seen F.Counted files.new) s) }
    ensures place { F.place files.new ≡ F.place files.old }
    ensures later { F.faults files.old ≤ F.faults files.new }
    ensures sure { F.sure files.old → F.sure files.new × (result ≢ Err Stop.FileFault) }
{
    let mut script = Vec::new(alloc);
    let mut page = [0; PIECE];
    while script.len() <= SCRIPT_LIMIT {
        match files.read(&mut page) {
            Ok(0) => return Ok(script),
            Ok(count) => {
                if script.extend_from_slice(&page[..count]).is_err() {
                    return Err(Stop::NoMemory);
                }
            }
            Err(_) => return Err(Stop::FileFault),
        }
    }
    Err(Stop::Broken(Break::LongScript))
}

/// Begins the file of that name, and reads it as a script.
pub fn read_script<F: Files>(alloc: Global, name: &str, files: &mut F) -> Result<Vec<u8>, Stop>
    ensures { Reads (λ (script : Vec ℕ Global). of_script script.items) a_script name.now
        (seen F.Counted files.old) (seen F.Counted files.new) result }
{
    if files.begin(name).is_err() {
        return Err(Stop::FileFault);
    }
    read_rest(alloc, files)
}
