// A session that is opened on the profile of an order, and asked once.
ghost use Rattle.std.specs.Prelude.{◌≡◌, ◌≤◌, ◌+◌, [], ℕ, List, IfOk};
ghost use Rattle.prof_io.specs.Outside.{seen};
ghost use Rattle.prof_request.specs.declared.request.Command.{Command};
ghost use Rattle.prof_tables.specs.Profiles.{ProfileTables};
ghost use Rattle.prof_desk.specs.Opened.{opened_readings, opened_replies, opening, own_request};
ghost use Rattle.prof_desk.specs.Output.{first_rows, markers_replies, named_main, tree_replies};
ghost use Rattle.prof_desk.specs.Playing.{Leaves, status_of};

use prof_io::{NoMemory, Sink, Steps, Text};
use prof_memory::SteadyKeeper;
use prof_read::Digest;
use prof_request::{Command, Request};
use prof_script::{PlayEnd, play_request};
use prof_session_desk::Desk;
use prof_tables::Profile;
use std::alloc::Global;
use std::sync::ledger::Ledger;

/// A desk that has this profile alone, as `main`.
pub fn desk_of(alloc: Global, profile: Profile, digest: Digest) -> Result<Desk, NoMemory>
    ensures { IfOk result (λ desk. desk ≡ record { profiles = named_main profile digest; seats = [] }) }
{
    let mut desk = Desk::new(alloc);
    desk.add_profile(alloc, "main", profile, digest)?;
    Ok(desk)
}

/// A text in memory of its own.
fn text_of(alloc: Global, text: &str) -> Result<Text, NoMemory>
    ensures { IfOk result (λ copy. copy ≡ text.now) }
{
    let mut copy = Text::new(alloc);
    copy.push_str(text)?;
    Ok(copy)
}

/// A request of the one session.
fn request_of(alloc: Global, command: Command) -> Result<Request, NoMemory>
    ensures { IfOk result (λ request. request ≡ own_request command) }
{
    let session = text_of(alloc, "cli")?;
    Ok(Request { session, command })
}

/// The request that opens the session on a thread.
fn opening(alloc: Global, thread: u32) -> Result<Request, NoMemory>
    ensures { IfOk result (λ request. request ≡ own_request (opening thread)) }
{
    let profile = text_of(alloc, "main")?;
    request_of(alloc, Command::OpenOn { profile, thread })
}

/// Answers both requests, over a keeper in memory, which neither asks.
fn play_both<S: Sink, L: Ledger>(
    alloc: Global,
    desk: &mut Desk,
    first: &Request,
    second: &Request,
    out: &mut S,
    reads: &mut Steps<L>,
) -> Result<(), PlayEnd>
    ensures { (p : ProfileTables) (digest : List ℕ) (thread : ℕ) (command : Command)
        → desk.old ≡ record { profiles = named_main p digest; seats = [] }
        → first.now ≡ own_request (opening thread) → second.now ≡ own_request command
        → Leaves (seen S.Counted out.old) (seen S.Counted out.new) (status_of result) (opened_replies p digest thread command)
        × (reads.new ≤ reads.old + opened_readings p digest thread command) }
{
    let mut keeper = SteadyKeeper::new(alloc);
    play_request(alloc, desk, first, &mut keeper, out, reads)?;
    play_request(alloc, desk, second, &mut keeper, out, reads)
}

/// Opens a session on a thread of the profile, answers a request of it, and writes both replies.
fn play_opened<S: Sink, L: Ledger>(
    alloc: Global,
    desk: &mut Desk,
    thread: u32,
    command: Command,
    out: &mut S,
    reads: &mut Steps<L>,
) -> Result<(), PlayEnd>
    ensures { (p : ProfileTables) (digest : List ℕ)
        → desk.old ≡ record { profiles = named_main p digest; seats = [] }
        → Leaves (seen S.Counted out.old) (seen S.Counted out.new) (status_of result) (opened_replies p digest thread command)
        × (reads.new ≤ reads.old + opened_readings p digest thread command) }
{
    let Ok(first) = opening(alloc, thread) else {
        return Err(PlayEnd::NoMemory);
    };
    let Ok(second) = request_of(alloc, command) else {
        return Err(PlayEnd::NoMemory);
    };
    play_both(alloc, desk, &first, &second, out, reads)
}

/// Opens a session on the first thread of the profile, and shows its tree.
pub fn write_tree<S: Sink, L: Ledger>(
    alloc: Global,
    desk: &mut Desk,
    out: &mut S,
    reads: &mut Steps<L>,
) -> Result<(), PlayEnd>
    ensures { (p : ProfileTables) (digest : List ℕ)
        → desk.old ≡ record { profiles = named_main p digest; seats = [] }
        → Leaves (seen S.Counted out.old) (seen S.Counted out.new) (status_of result) (tree_replies p.threads)
        × (reads.new ≤ reads.old + first_rows p.threads) }
{
    play_opened(alloc, desk, 0, Command::Tree, out, reads)
}

/// Opens a session on a thread of the profile, and shows the markers that a search finds.
pub fn write_markers<S: Sink, L: Ledger>(
    alloc: Global,
    desk: &mut Desk,
    thread: u32,
    search: &str,
    out: &mut S,
    reads: &mut Steps<L>,
) -> Result<(), PlayEnd>
    ensures { (p : ProfileTables) (digest : List ℕ)
        → desk.old ≡ record { profiles = named_main p digest; seats = [] }
        → Leaves (seen S.Counted out.old) (seen S.Counted out.new) (status_of result) (markers_replies p.threads thread search.now)
        × (reads.new ≤ reads.old) }
{
    let Ok(search) = text_of(alloc, search) else {
        return Err(PlayEnd::NoMemory);
    };
    play_opened(alloc, desk, thread, Command::Markers { search }, out, reads)
}
