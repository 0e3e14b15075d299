// Connections that are served over the profiles that were read.
ghost use Rattle.std.specs.Prelude.{◌≡◌, ◌≢◌, ◌++◌, [], ℕ, List, codes, length, true};
ghost use Rattle.std.specs.Fmt.{decimal};
ghost use Rattle.prof_desk.specs.Inputs.{Input};
ghost use Rattle.prof_desk.specs.Orders.{can_end};
ghost use Rattle.prof_desk.specs.Output.{served_profiles};
ghost use Rattle.prof_desk.specs.declared.words.Order.{Order};
ghost use Rattle.prof_desk.specs.Ran.{DoesServing, EndsServing, outside};
ghost use Rattle.prof_io.specs.Outside.{kept, seen};
ghost use Rattle.prof_io.specs.Sinks.{Wrote};
ghost use Rattle.prof_reply.specs.Lines.{line};

use crate::Status;
use crate::outcome::Outcome;
use crate::reading::read_named;
use arrayvec::ArrayString;
use prof_io::{Files, Hall, KeepRefusal, Keeper, OutFault, Sink, Steps, copy_out};
use prof_page::{Line, push_number};
use prof_serving::serve_hall;
use prof_session_desk::Desk;
use prof_wire::{Routes, Wire};
use prof_words::NamedFiles;
use std::alloc::Global;
use std::sync::ledger::Ledger;

/// The line of the port.
fn port_line(port: u16) -> Line
    ensures { result.bytes ≡ line (codes "serving " ++ decimal port) }
{
    let mut text = ArrayString::new();
    text.push_str("serving ");
    push_number(&mut text, port, "\n");
    text
}

/// The line of the number of connections.
fn count_line(count: u32) -> Line
    ensures { result.bytes ≡ line (codes "served " ++ decimal count) }
{
    let mut text = ArrayString::new();
    text.push_str("served ");
    push_number(&mut text, count, "\n");
    text
}

/// Writes a line.
fn put<S: Sink>(out: &mut S, line: Line) -> Result<(), OutFault>
    ensures { Wrote (seen S.Counted out.old) (seen S.Counted out.new) result line.bytes }
{
    copy_out(out, line.as_str().as_bytes())
}

/// Begins the keeper under a name, opens the hall, and serves the connections that come, on a desk without sessions.
fn serve_begun<H: Hall, K: Keeper, S: Sink, L: Ledger>(
    alloc: Global,
    desk: &mut Desk,
    wire: &mut Wire,
    routes: &Routes,
    port: u16,
    connections: u32,
    sessions: &str,
    hall: &mut H,
    keeper: &mut K,
    out: &mut S,
    reads: &mut Steps<L>,
) -> Status
    ensures ends { (files : List (List ℕ × List ℕ)) (inputs : List Input)
        → desk.old ≡ record { profiles = served_profiles files inputs; seats = [] } → length inputs ≡ length files
        → EndsServing (Order.Serve port connections sessions.now files) inputs
        (seen S.Counted out.old) (seen S.Counted out.new) reads.old reads.new
        (kept K.Counted K.Keeper.own keeper.old) (kept K.Counted K.Keeper.own keeper.new)
        (seen H.Counted hall.old) (seen H.Counted hall.new) result }
    ensures can { can_end (Order.Serve port connections sessions.now []) result ≡ true }
    ensures accepted { (result ≢ Status.Broken) × (result ≢ Status.FileFault) }
{
    match keeper.begin(alloc, sessions) {
        Ok(()) => {}
        Err(KeepRefusal::Failed) => return Status::KeeperFault,
        Err(KeepRefusal::NoMemory) => return Status::NoMemory,
    }
    if hall.listen(port).is_err() {
        return Status::HallFault;
    }
    if put(out, port_line(port)).is_err() {
        return Status::OutFault;
    }
    let served = serve_hall(alloc, desk, wire, routes, hall, keeper, reads, connections);
    if served.failed {
        return Status::HallFault;
    }
    match put(out, count_line(served.count)) {
        Ok(()) => Status::Done,
        Err(_) => Status::OutFault,
    }
}

/// Reads the profiles, each under its name, and serves the connections that come.
pub fn serve_of<F: Files, H: Hall, K: Keeper, S: Sink, L: Ledger>(
    alloc: Global,
    port: u16,
    connections: u32,
    sessions: &str,
    profiles: &NamedFiles,
    files: &mut F,
    hall: &mut H,
    keeper: &mut K,
    out: &mut S,
    reads: &mut Steps<L>,
) -> Outcome
    ensures { DoesServing (Order.Serve port connections sessions.now profiles.now)
        (outside F.Counted S.Counted files.old out.old reads.old)
        (outside F.Counted S.Counted files.new out.new reads.new)
        (kept K.Counted K.Keeper.own keeper.old) (kept K.Counted K.Keeper.own keeper.new)
        (seen H.Counted hall.old) (seen H.Counted hall.new) result }
{
    let Ok(mut wire) = Wire::new(alloc) else {
        return Outcome::ended(0, Status::NoMemory);
    };
    let Ok(routes) = Routes::new(alloc) else {
        return Outcome::ended(0, Status::NoMemory);
    };
    let mut desk = Desk::new(alloc);
    profiles.keeps();
    for (accepted, named) in profiles.as_slice().iter().enumerate() {
        let (name, file) = named;
        let (profile, digest, _) = match read_named(alloc, file.as_str(), files) {
            Ok(read) => read,
            Err(stop) => return Outcome::stopped(accepted, stop),
        };
        if desk
            .add_profile(alloc, name.as_str(), profile, digest)
            .is_err()
        {
            return Outcome::ended(accepted + 1, Status::NoMemory);
        }
    }
    let end = serve_begun(
        alloc,
        &mut desk,
        &mut wire,
        &routes,
        port,
        connections,
        sessions,
        hall,
        keeper,
        out,
        reads,
    );
    Outcome::ended(profiles.as_slice().len(), end)
}
