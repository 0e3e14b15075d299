// The top call.
ghost use Rattle.std.specs.Prelude.{◌≡◌, ◌≢◌, ◌∷◌, ◌⊎◌, ℕ, List, None, IfSome, false, map, true, [], Result, ⊤};
ghost use Rattle.prof_io.specs.declared.copying.OutFault.{OutFault};
ghost use Rattle.prof_desk.specs.Breaks.{break_text};
ghost use Rattle.prof_read.specs.declared.read.Form.{Form};
ghost use Rattle.prof_tables.specs.Profiles.{ProfileTables};
ghost use Rattle.prof_desk.specs.Inputs.{name_at, of_profile, of_script};
ghost use Rattle.prof_desk.specs.Orders.{a_profile, a_script, asks_hall, asks_keeper, can_end, files_of};
ghost use Rattle.prof_desk.specs.Output.{named_main};
ghost use Rattle.prof_io.specs.Outside.{kept, seen};
ghost use Rattle.prof_desk.specs.Playing.{status_of};
ghost use Rattle.prof_desk.specs.Ran.{Carried, Does, DoesKeeping, EndsKeeping, Ran, outside};
ghost use Rattle.prof_io.specs.Sinks.{Wrote};
ghost use Rattle.prof_desk.specs.Telling.{refusal_status, told};
ghost use Rattle.prof_desk.specs.Words.{order_of};
ghost use Rattle.prof_words.specs.Reading.{texts_of};

use crate::Status;
use crate::breaks::break_text;
use crate::opened::{desk_of, write_markers, write_tree};
use crate::outcome::Outcome;
use crate::playing::{write_check, write_converted, write_generated};
use crate::reading::{read_named, read_script};
use crate::serving::serve_of;
use crate::telling::tell;
use crate::words::{Order, read_words};
use prof_io::{Files, Hall, KeepRefusal, Keeper, OutFault, Sink, Steps, Text};
use prof_script::{PlayEnd, play_script};
use prof_session_desk::Desk;
use prof_trial::play_trial;
use prof_words::{NamedFiles, WordRefusal};
use std::alloc::Global;
use std::sync::ledger::Ledger;

/// The status by which answers end.
fn status_of(played: Result<(), PlayEnd>) -> Status
    ensures { result ≡ status_of played }
{
    match played {
        Ok(()) => Status::Done,
        Err(PlayEnd::OutFault) => Status::OutFault,
        Err(PlayEnd::NoMemory) => Status::NoMemory,
    }
}

/// Reads the profile of that name, and writes the tree of its first thread.
fn tree_of<F: Files, S: Sink, L: Ledger>(
    alloc: Global,
    name: &str,
    files: &mut F,
    out: &mut S,
    reads: &mut Steps<L>,
) -> Outcome
    ensures { Does (Order.Tree name.now) (outside F.Counted S.Counted files.old out.old reads.old)
        (outside F.Counted S.Counted files.new out.new reads.new) result }
{
    let (profile, digest, _) = match read_named(alloc, name, files) {
        Ok(read) => read,
        Err(stop) => return Outcome::stopped(0, stop),
    };
    let Ok(mut desk) = desk_of(alloc, profile, digest) else {
        return Outcome::ended(1, Status::NoMemory);
    };
    Outcome::ended(1, status_of(write_tree(alloc, &mut desk, out, reads)))
}

/// Reads the profile of that name, and writes the markers of a thread that a search finds.
fn markers_of<F: Files, S: Sink, L: Ledger>(
    alloc: Global,
    name: &str,
    thread: u32,
    search: &str,
    files: &mut F,
    out: &mut S,
    reads: &mut Steps<L>,
) -> Outcome
    ensures { Does (Order.Markers name.now thread search.now)
        (outside F.Counted S.Counted files.old out.old reads.old)
        (outside F.Counted S.Counted files.new out.new reads.new) result }
{
    let (profile, digest, _) = match read_named(alloc, name, files) {
        Ok(read) => read,
        Err(stop) => return Outcome::stopped(0, stop),
    };
    let Ok(mut desk) = desk_of(alloc, profile, digest) else {
        return Outcome::ended(1, Status::NoMemory);
    };
    let played = write_markers(alloc, &mut desk, thread, search, out, reads);
    Outcome::ended(1, status_of(played))
}

/// Begins the keeper without a name, and plays a script on a desk of a profile without sessions.
fn play_begun<K: Keeper, S: Sink, L: Ledger>(
    alloc: Global,
    desk: &mut Desk,
    script: &[u8],
    keeper: &mut K,
    out: &mut S,
    reads: &mut Steps<L>,
) -> Status
    ensures ends { (p : ProfileTables) (digest : List ℕ) (form : Form) (name file : List ℕ)
        → desk.old ≡ record { profiles = named_main p digest; seats = [] }
        → EndsKeeping (Order.Script name file) (of_profile p digest form ∷ of_script script.now ∷ [])
        (seen S.Counted out.old) (seen S.Counted out.new) reads.old reads.new
        (kept K.Counted K.Keeper.own keeper.old) (kept K.Counted K.Keeper.own keeper.new) result }
    ensures can { can_end (Order.Script [] []) result ≡ true }
    ensures accepted { (result ≢ Status.Broken) × (result ≢ Status.FileFault) }
{
    match keeper.begin(alloc, "") {
        Ok(()) => status_of(play_script(alloc, desk, script, keeper, out, reads)),
        Err(KeepRefusal::Failed) => Status::KeeperFault,
        Err(KeepRefusal::NoMemory) => Status::NoMemory,
    }
}

/// Reads the profile and the script of these names, and writes the replies to the script's lines.
fn script_of<F: Files, K: Keeper, S: Sink, L: Ledger>(
    alloc: Global,
    name: &str,
    script: &str,
    files: &mut F,
    keeper: &mut K,
    out: &mut S,
    reads: &mut Steps<L>,
) -> Outcome
    ensures { DoesKeeping (Order.Script name.now script.now)
        (outside F.Counted S.Counted files.old out.old reads.old)
        (outside F.Counted S.Counted files.new out.new reads.new)
        (kept K.Counted K.Keeper.own keeper.old) (kept K.Counted K.Keeper.own keeper.new) result }
{
    let (profile, digest, _) = match read_named(alloc, name, files) {
        Ok(read) => read,
        Err(stop) => return Outcome::stopped(0, stop),
    };
    let lines = match read_script(alloc, script, files) {
        Ok(lines) => lines,
        Err(stop) => return Outcome::stopped(1, stop),
    };
    let Ok(mut desk) = desk_of(alloc, profile, digest) else {
        return Outcome::ended(2, Status::NoMemory);
    };
    Outcome::ended(2, play_begun(alloc, &mut desk, &lines, keeper, out, reads))
}

/// Reads the profile of that name, and writes its summary.
fn check_of<F: Files, S: Sink, L: Ledger>(
    alloc: Global,
    name: &str,
    files: &mut F,
    out: &mut S,
    reads: &mut Steps<L>,
) -> Outcome
    ensures { Does (Order.Check name.now) (outside F.Counted S.Counted files.old out.old reads.old)
        (outside F.Counted S.Counted files.new out.new reads.new) result }
{
    let (profile, digest, form) = match read_named(alloc, name, files) {
        Ok(read) => read,
        Err(stop) => return Outcome::stopped(0, stop),
    };
    Outcome::ended(1, status_of(write_check(&profile, &digest, form, out)))
}

/// Reads the profile of that name, and writes it as a text.
fn convert_of<F: Files, S: Sink, L: Ledger>(
    alloc: Global,
    name: &str,
    files: &mut F,
    out: &mut S,
    reads: &mut Steps<L>,
) -> Outcome
    ensures { Does (Order.Convert name.now) (outside F.Counted S.Counted files.old out.old reads.old)
        (outside F.Counted S.Counted files.new out.new reads.new) result }
{
    let (profile, _, _) = match read_named(alloc, name, files) {
        Ok(read) => read,
        Err(stop) => return Outcome::stopped(0, stop),
    };
    Outcome::ended(1, status_of(write_converted(&profile, out, reads)))
}

/// Writes the profile that the number makes.
fn gen_of<F: Files, S: Sink, L: Ledger>(
    number: u32,
    files: &mut F,
    out: &mut S,
    reads: &mut Steps<L>,
) -> Outcome
    ensures { Does (Order.Gen number) (outside F.Counted S.Counted files.old out.old reads.old)
        (outside F.Counted S.Counted files.new out.new reads.new) result }
{
    Outcome::ended(0, status_of(write_generated(number, out)))
}

/// Plays the demo on the profile that the number makes.
fn demo_of<F: Files, S: Sink, L: Ledger>(
    alloc: Global,
    number: u32,
    files: &mut F,
    out: &mut S,
    reads: &mut Steps<L>,
) -> Outcome
    ensures { Does (Order.Demo number) (outside F.Counted S.Counted files.old out.old reads.old)
        (outside F.Counted S.Counted files.new out.new reads.new) result }
{
    Outcome::ended(0, status_of(play_trial(alloc, number, out, reads)))
}

/// Does what an order asks for.
fn carry_out<F: Files, H: Hall, K: Keeper, S: Sink, L: Ledger>(
    alloc: Global,
    order: &Order,
    files: &mut F,
    hall: &mut H,
    keeper: &mut K,
    out: &mut S,
    reads: &mut Steps<L>,
) -> Outcome
    ensures carried { Carried order.now (outside F.Counted S.Counted files.old out.old reads.old)
        (outside F.Counted S.Counted files.new out.new reads.new)
        (kept K.Counted K.Keeper.own keeper.old) (kept K.Counted K.Keeper.own keeper.new)
        (seen H.Counted hall.old) (seen H.Counted hall.new) result }
    ensures hall { asks_hall order.now ≡ false → hall.new ≡ hall.old }
    ensures keeper { asks_keeper order.now ≡ false → keeper.new ≡ keeper.old }
{
    match order {
        Order::Tree { profile } => tree_of(alloc, profile.as_str(), files, out, reads),
        Order::Markers {
            profile,
            thread,
            search,
        } => markers_of(
            alloc,
            profile.as_str(),
            *thread,
            search.as_str(),
            files,
            out,
            reads,
        ),
        Order::Script { profile, script } => script_of(
            alloc,
            profile.as_str(),
            script.as_str(),
            files,
            keeper,
            out,
            reads,
        ),
        Order::Serve {
            port,
            connections,
            sessions,
            profiles,
        } => serve_of(
            alloc,
            *port,
            *connections,
            sessions.as_str(),
            profiles,
            files,
            hall,
            keeper,
            out,
            reads,
        ),
        Order::Check { profile } => check_of(alloc, profile.as_str(), files, out, reads),
        Order::Convert { profile } => convert_of(alloc, profile.as_str(), files, out, reads),
        Order::Gen { number } => gen_of(*number, files, out, reads),
        Order::Demo { number } => demo_of(alloc, *number, files, out, reads),
    }
}

/// The one name, where no file is accepted yet.
fn only(name: &Text, accepted: usize) -> &str
    ensures { result.now ≡ name_at ((a_profile, name.now) ∷ []) accepted }
{
    if accepted == 0 { name.as_str() } else { "" }
}

/// The name of a profile or of a script, where that is the next to be accepted.
fn either<'a>(profile: &'a Text, script: &'a Text, accepted: usize) -> &'a str
    ensures { result.now ≡ name_at ((a_profile, profile.now) ∷ (a_script, script.now) ∷ []) accepted }
{
    match accepted {
        0 => profile.as_str(),
        1 => script.as_str(),
        _ => "",
    }
}

/// The name of a profile that is served, where that is the next to be accepted.
fn served_name(profiles: &NamedFiles, accepted: usize) -> &str
    ensures { result.now ≡ name_at (map (λ f. (a_profile, f.1)) profiles.now) accepted }
{
    match profiles.as_slice().get(accepted) {
        Some((_, file)) => file.as_str(),
        None => "",
    }
}

/// The name of the file behind so many.
fn name_behind(order: &Order, accepted: usize) -> &str
    ensures { result.now ≡ name_at (files_of order.now) accepted }
{
    match order {
        Order::Tree { profile } => only(profile, accepted),
        Order::Markers { profile, .. } => only(profile, accepted),
        Order::Script { profile, script } => either(profile, script, accepted),
        Order::Serve { profiles, .. } => served_name(profiles, accepted),
        Order::Check { profile } => only(profile, accepted),
        Order::Convert { profile } => only(profile, accepted),
        Order::Gen { .. } | Order::Demo { .. } => "",
    }
}

/// Tells how an order ended.
fn tell_end<E: Sink>(err: &mut E, order: &Order, end: Outcome) -> Result<(), OutFault>
    ensures { Wrote (seen E.Counted err.old) (seen E.Counted err.new) result
        (told end.status (name_at (files_of order.now) end.accepted) (break_text end.broken)) }
{
    let broken = break_text(end.broken);
    tell(
        err,
        end.status,
        name_behind(order, end.accepted),
        broken.as_str(),
    )
}

/// Tells that the words were refused, and says the status for it.
pub fn refuse<E: Sink>(err: &mut E, refusal: WordRefusal) -> Status
    ensures status { result ≡ refusal_status refusal }
    ensures told { (telling : Result ⊤ OutFault)
        × Wrote (seen E.Counted err.old) (seen E.Counted err.new) telling (told result [] []) }
{
    let status = match refusal {
        WordRefusal::Usage => Status::Usage,
        WordRefusal::NoMemory => Status::NoMemory,
    };
    let _ = tell(err, status, "", "");
    status
}

/// Does what the words ask for, and tells how it ended.
pub fn run<F: Files, H: Hall, K: Keeper, S: Sink, E: Sink, L: Ledger>(
    alloc: Global,
    words: &[String],
    files: &mut F,
    hall: &mut H,
    keeper: &mut K,
    out: &mut S,
    err: &mut E,
    reads: &mut Steps<L>,
) -> Status
    ensures usage { result ≡ Status.Usage → order_of (texts_of words.now) ≡ None }

    // For an order: what it did to the outside, how it ended, and what was told.
    ensures ran { IfSome (order_of (texts_of words.now)) (λ order. Ran order
        (outside F.Counted S.Counted files.old out.old reads.old)
        (outside F.Counted S.Counted files.new out.new reads.new)
        (kept K.Counted K.Keeper.own keeper.old) (kept K.Counted K.Keeper.own keeper.new)
        (seen H.Counted hall.old) (seen H.Counted hall.new)
        (seen E.Counted err.old) (seen E.Counted err.new) result) }
    ensures hall { IfSome (order_of (texts_of words.now)) (λ order.
        asks_hall order ≡ false → hall.new ≡ hall.old) }
    ensures keeper { IfSome (order_of (texts_of words.now)) (λ order.
        asks_keeper order ≡ false → keeper.new ≡ keeper.old) }

    // Without one nothing is touched, and the usage is told, or that memory ran out before that was known.
    ensures refused { order_of (texts_of words.now) ≡ None
        → (result ≡ Status.Usage) ⊎ (result ≡ Status.NoMemory) }
    ensures unasked { order_of (texts_of words.now) ≡ None → (files.new ≡ files.old) × (hall.new ≡ hall.old)
        × (keeper.new ≡ keeper.old) × (out.new ≡ out.old) × (reads.new ≡ reads.old) }
    ensures told { order_of (texts_of words.now) ≡ None → (telling : Result ⊤ OutFault)
        × Wrote (seen E.Counted err.old) (seen E.Counted err.new) telling (told result [] []) }
{
    let order = match read_words(alloc, words) {
        Ok(order) => order,
        Err(refusal) => return refuse(err, refusal),
    };
    let end = carry_out(alloc, &order, files, hall, keeper, out, reads);
    let _ = tell_end(err, &order, end);
    end.status
}
