//! What each command asks for with its words.
ghost use Rattle.std.specs.Prelude.{◌≡◌, IfOk, IfErr, Some};
ghost use Rattle.prof_words.specs.Numbers.{number_within, threads_of};
ghost use Rattle.prof_words.specs.Reading.{Reads, texts};
ghost use Rattle.prof_words.specs.Words.{alloc_order, demo_order, gen_order, markers_order, merge_order, serve_order, strategy_of};

use crate::files::files_of;
use crate::numbers::{number_within, threads_of};
use crate::order::{Order, Strategy, WordRefusal};
use prof_io::Text;
use std::alloc::Global;

/// The greatest port, and the most connections.
const PORTS: u32 = 65_535;

const CONNECTIONS: u32 = 1_000_000;

/// The word as a text.
fn text(alloc: Global, word: &str) -> Result<Text, WordRefusal>
    ensures { Reads (Some word.now) result }
{
    let mut text = Text::new(alloc);
    match text.push_str(word) {
        Ok(()) => Ok(text),
        Err(_) => Err(WordRefusal::NoMemory),
    }
}

/// The number that the word is, where it lies from a least to a greatest one.
fn number(word: &str, least: u32, most: u32) -> Result<u32, WordRefusal>
    ensures { Reads (number_within least most word.now) result }
{
    match number_within(word, least, most) {
        Some(number) => Ok(number),
        None => Err(WordRefusal::Usage),
    }
}

fn strategy(word: &str) -> Result<Strategy, WordRefusal>
    ensures { Reads (strategy_of word.now) result }
{
    match word {
        "allocated" => Ok(Strategy::Allocated),
        "atsite" => Ok(Strategy::AtSite),
        "byallocation" => Ok(Strategy::ByAllocation),
        "retained" => Ok(Strategy::Retained),
        _ => Err(WordRefusal::Usage),
    }
}

pub fn tree_order(alloc: Global, profile: &str) -> Result<Order, WordRefusal>
    ensures { Reads (Some (Order.Tree profile.now)) result }
{
    let profile = text(alloc, profile)?;
    Ok(Order::Tree { profile })
}

pub fn markers_order(
    alloc: Global,
    profile: &str,
    thread: &str,
    search: &str,
) -> Result<Order, WordRefusal>
    ensures { Reads (markers_order profile.now thread.now search.now) result }
{
    let thread = number(thread, 0, u32::MAX)?;
    let profile = text(alloc, profile)?;
    let search = text(alloc, search)?;
    Ok(Order::Markers {
        profile,
        thread,
        search,
    })
}

pub fn script_order(alloc: Global, profile: &str, script: &str) -> Result<Order, WordRefusal>
    ensures { Reads (Some (Order.Script profile.now script.now)) result }
{
    let profile = text(alloc, profile)?;
    let script = text(alloc, script)?;
    Ok(Order::Script { profile, script })
}

pub fn serve_order(
    alloc: Global,
    port: &str,
    connections: &str,
    sessions: &str,
    profiles: &[&str],
) -> Result<Order, WordRefusal>
    ensures { Reads (serve_order port.now connections.now sessions.now (texts profiles.now)) result }
{
    let port = number(port, 1, PORTS)? as u16;
    let connections = number(connections, 1, CONNECTIONS)?;
    let profiles = files_of(alloc, profiles)?;
    let sessions = text(alloc, sessions)?;
    Ok(Order::Serve {
        port,
        connections,
        sessions,
        profiles,
    })
}

pub fn check_order(alloc: Global, profile: &str) -> Result<Order, WordRefusal>
    ensures { Reads (Some (Order.Check profile.now)) result }
{
    let profile = text(alloc, profile)?;
    Ok(Order::Check { profile })
}

pub fn convert_order(alloc: Global, profile: &str) -> Result<Order, WordRefusal>
    ensures { Reads (Some (Order.Convert profile.now)) result }
{
    let profile = text(alloc, profile)?;
    Ok(Order::Convert { profile })
}

pub fn gen_order(number_word: &str) -> Result<Order, WordRefusal>
    ensures { Reads (gen_order number_word.now) result }
{
    let number = number(number_word, 0, u32::MAX)?;
    Ok(Order::Gen { number })
}

pub fn demo_order(number_word: &str) -> Result<Order, WordRefusal>
    ensures { Reads (demo_order number_word.now) result }
{
    let number = number(number_word, 0, u32::MAX)?;
    Ok(Order::Demo { number })
}

pub fn flame_order(alloc: Global, profile: &str, view: &str) -> Result<Order, WordRefusal>
    ensures { Reads (Some (Order.Flame profile.now view.now)) result }
{
    let profile = text(alloc, profile)?;
    let view = text(alloc, view)?;
    Ok(Order::Flame { profile, view })
}

pub fn chart_order(alloc: Global, profile: &str, view: &str) -> Result<Order, WordRefusal>
    ensures { Reads (Some (Order.Chart profile.now view.now)) result }
{
    let profile = text(alloc, profile)?;
    let view = text(alloc, view)?;
    Ok(Order::Chart { profile, view })
}

pub fn alloc_order(
    alloc: Global,
    profile: &str,
    strategy_word: &str,
    view: &str,
) -> Result<Order, WordRefusal>
    ensures { Reads (alloc_order profile.now strategy_word.now view.now) result }
{
    let strategy = strategy(strategy_word)?;
    let profile = text(alloc, profile)?;
    let view = text(alloc, view)?;
    Ok(Order::Alloc {
        profile,
        strategy,
        view,
    })
}

pub fn merge_order(
    alloc: Global,
    profile: &str,
    threads: &str,
    view: &str,
) -> Result<Order, WordRefusal>
    ensures { Reads (merge_order profile.now threads.now view.now) result }
{
    let threads = threads_of(alloc, threads)?;
    let profile = text(alloc, profile)?;
    let view = text(alloc, view)?;
    Ok(Order::Merge {
        profile,
        threads,
        view,
    })
}
