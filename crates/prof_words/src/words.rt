//! Words as orders.
ghost use Rattle.std.specs.Prelude.{◌≡◌, true, length};
ghost use Rattle.prof_words.specs.Commands.{are_words, fits, is_word};
ghost use Rattle.prof_words.specs.Reading.{Reads, texts, texts_of};
ghost use Rattle.prof_words.specs.Words.{named_by, order_of, ordered};

use crate::command::Command;
use crate::order::{Order, WordRefusal};
use crate::orders::{
    alloc_order, chart_order, check_order, convert_order, demo_order, flame_order, gen_order,
    markers_order, merge_order, script_order, serve_order, tree_order,
};
use crate::parser::{BEHIND, parsed};
use crate::parts::{one, three, three_and_more, two};
use std::alloc::Global;

/// Whether the word is neither empty nor begins with a dash.
fn is_word(word: &str) -> bool
    ensures { result ≡ is_word word.now }
{
    match word.as_bytes() {
        [] => false,
        [first, ..] => *first != b'-',
    }
}

fn are_words(words: &[String]) -> bool
    ensures { result ≡ are_words (texts_of words.now) }
{
    words.iter().all(|word| is_word(word.as_str()))
}

/// The command that the first of the words names, where all are words.
fn command_of(words: &[String]) -> Option<Command>
    ensures { result ≡ named_by (texts_of words.now) }
{
    if !are_words(words) {
        return None;
    }
    match words.first() {
        Some(name) => Command::named(name.as_str()),
        None => None,
    }
}

/// What markers are asked for. Without a search every marker is found.
fn markers(alloc: Global, words: &[&str]) -> Result<Order, WordRefusal>
    requires { fits Command.Markers (length words.now) ≡ true }
    ensures { Reads (ordered Command.Markers (texts words.now)) result }
{
    match words {
        [profile, thread] => markers_order(alloc, profile, thread, ""),
        [profile, thread, search] => markers_order(alloc, profile, thread, search),
        _ => unreachable!(),
    }
}

/// What a command asks for with the words behind its name, of which it takes so many.
fn order(alloc: Global, command: Command, words: &[&str]) -> Result<Order, WordRefusal>
    requires { fits command (length words.now) ≡ true }
    ensures { Reads (ordered command (texts words.now)) result }
{
    match command {
        Command::Tree => tree_order(alloc, one(words)),
        Command::Markers => markers(alloc, words),
        Command::Script => {
            let (profile, script) = two(words);
            script_order(alloc, profile, script)
        }
        Command::Serve => {
            let (port, connections, sessions, profiles) = three_and_more(words);
            serve_order(alloc, port, connections, sessions, profiles)
        }
        Command::Check => check_order(alloc, one(words)),
        Command::Convert => convert_order(alloc, one(words)),
        Command::Gen => gen_order(one(words)),
        Command::Demo => demo_order(one(words)),
        Command::Flame => {
            let (profile, view) = two(words);
            flame_order(alloc, profile, view)
        }
        Command::Chart => {
            let (profile, view) = two(words);
            chart_order(alloc, profile, view)
        }
        Command::Alloc => {
            let (profile, strategy, view) = three(words);
            alloc_order(alloc, profile, strategy, view)
        }
        Command::Merge => {
            let (profile, threads, view) = three(words);
            merge_order(alloc, profile, threads, view)
        }
    }
}

/// Reads the words.
pub fn read_words(alloc: Global, words: &[String]) -> Result<Order, WordRefusal>
    ensures { Reads (order_of (texts_of words.now)) result }
{
    let Some(command) = command_of(words) else {
        return Err(WordRefusal::Usage);
    };
    let matches = match parsed(alloc, words) {
        Ok(matches) => matches,
        Err(refusal) => return Err(refusal),
    };
    let Some((_, inner)) = matches.subcommand() else {
        unreachable!()
    };
    match inner.get_strs(BEHIND) {
        Some(behind) => order(alloc, command, behind),
        None => unreachable!(),
    }
}
