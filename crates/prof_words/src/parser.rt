//! The commands as clap reads them: each a subcommand that takes a number of words.
ghost use Rattle.std.specs.Prelude.{◌≡◌, ◌≤◌, [], ◌∷◌, IfOk, Err, true, false};
ghost use Rattle.clap.specs.Faults.{fault_of};
ghost use Rattle.clap.specs.Simple.{app_of, shape_of, with_subcommand};
ghost use Rattle.clap.specs.Walk.{is_empty, rule_of};
ghost use Rattle.clap.specs.Words.{subcommand_of, subcommand_rows_of};
ghost use Rattle.prof_words.specs.Desk.{and_mores, and_numbers, and_ones, and_threes, and_twos, desk, has_globals, leaf, some_words, taking, unnamed};
ghost use Rattle.prof_words.specs.Reading.{texts_of};

use crate::command::Command;
use crate::order::WordRefusal;
use clap::error::ErrorKind;
use clap::{Arg, ArgMatches};
use std::alloc::{AllocError, Global};

/// The name that clap knows the words behind a command by.
pub const BEHIND: &str = "words";

/// An argument that takes from a least to a greatest number of words.
fn some_words<'a>(alloc: Global, least: usize, most: usize) -> Arg<'a>
    requires { least ≤ most }
    ensures rule { rule_of result ≡ some_words least most }
    ensures local { result.global ≡ false }
{
    Arg::new(alloc, BEHIND)
        .required(true)
        .num_args(least..=most)
}

/// A command of that name, which takes from a least to a greatest number of words.
fn taking<'a>(
    alloc: Global,
    name: &'a str,
    least: usize,
    most: usize,
) -> Result<clap::Command<'a>, AllocError>
    requires { least ≤ most }
    ensures shape { IfOk result (λ c. shape_of c ≡ taking name.entry.now least most) }
    ensures local { IfOk result (λ c. has_globals c ≡ false) }
{
    clap::Command::new(alloc, name).arg(some_words(alloc, least, most))
}

/// A command with its words.
fn leaf<'a>(alloc: Global, command: Command) -> Result<clap::Command<'a>, AllocError>
    ensures shape { IfOk result (λ c. shape_of c ≡ leaf command) }
    ensures local { IfOk result (λ c. has_globals c ≡ false) }
{
    taking(
        alloc,
        command.name(),
        command.least_words(),
        command.most_words(),
    )
}

/// All the commands, none of which is there yet.
fn unnamed<'a>(alloc: Global) -> clap::Command<'a>
    ensures { app_of result ≡ unnamed }
{
    clap::Command::new(alloc, "profdesk")
        .no_binary_name(true)
        .disable_help_flag(true)
        .disable_help_subcommand(true)
        .subcommand_required(true)
}

/// One more of the commands.
fn with<'a>(
    alloc: Global,
    desk: clap::Command<'a>,
    command: Command,
) -> Result<clap::Command<'a>, AllocError>
    ensures { IfOk result (λ c. app_of c ≡ with_subcommand (app_of desk.entry) (leaf command)) }
{
    desk.subcommand(leaf(alloc, command)?)
}

fn with_ones<'a>(alloc: Global, desk: clap::Command<'a>) -> Result<clap::Command<'a>, AllocError>
    ensures { IfOk result (λ c. app_of c ≡ and_ones (app_of desk.entry)) }
{
    let desk = with(alloc, desk, Command::Tree)?;
    let desk = with(alloc, desk, Command::Check)?;
    with(alloc, desk, Command::Convert)
}

fn with_numbers<'a>(alloc: Global, desk: clap::Command<'a>) -> Result<clap::Command<'a>, AllocError>
    ensures { IfOk result (λ c. app_of c ≡ and_numbers (app_of desk.entry)) }
{
    let desk = with(alloc, desk, Command::Gen)?;
    with(alloc, desk, Command::Demo)
}

fn with_twos<'a>(alloc: Global, desk: clap::Command<'a>) -> Result<clap::Command<'a>, AllocError>
    ensures { IfOk result (λ c. app_of c ≡ and_twos (app_of desk.entry)) }
{
    let desk = with(alloc, desk, Command::Script)?;
    let desk = with(alloc, desk, Command::Flame)?;
    with(alloc, desk, Command::Chart)
}

fn with_threes<'a>(alloc: Global, desk: clap::Command<'a>) -> Result<clap::Command<'a>, AllocError>
    ensures { IfOk result (λ c. app_of c ≡ and_threes (app_of desk.entry)) }
{
    let desk = with(alloc, desk, Command::Alloc)?;
    with(alloc, desk, Command::Merge)
}

fn with_mores<'a>(alloc: Global, desk: clap::Command<'a>) -> Result<clap::Command<'a>, AllocError>
    ensures { IfOk result (λ c. app_of c ≡ and_mores (app_of desk.entry)) }
{
    let desk = with(alloc, desk, Command::Markers)?;
    with(alloc, desk, Command::Serve)
}

/// All the commands.
fn desk<'a>(alloc: Global) -> Result<clap::Command<'a>, AllocError>
    ensures { IfOk result (λ c. app_of c ≡ desk) }
{
    let desk = with_ones(alloc, unnamed(alloc))?;
    let desk = with_numbers(alloc, desk)?;
    let desk = with_twos(alloc, desk)?;
    let desk = with_threes(alloc, desk)?;
    with_mores(alloc, desk)
}

fn refusal_of(kind: ErrorKind) -> WordRefusal
    ensures { result ≡ WordRefusal.Usage → (kind ≡ ErrorKind.OutOfMemory → ⊥) }
{
    match kind {
        ErrorKind::OutOfMemory => WordRefusal::NoMemory,
        _ => WordRefusal::Usage,
    }
}

/// Reads words with clap.
pub fn parsed<'a>(alloc: Global, words: &'a [String]) -> Result<ArgMatches<'a>, WordRefusal>
    ensures fits { IfOk result (λ m. is_empty (fault_of desk (texts_of words.entry.now)) ≡ true) }
    ensures rows { IfOk result (λ m.
        subcommand_rows_of m ≡ subcommand_of desk (texts_of words.entry.now)) }
    ensures usage { result ≡ Err WordRefusal.Usage
        → is_empty (fault_of desk (texts_of words.entry.now)) ≡ false }
{
    let Ok(desk) = desk(alloc) else {
        return Err(WordRefusal::NoMemory);
    };
    match desk.try_get_matches_from(words) {
        Ok(matches) => Ok(matches),
        Err(error) => Err(refusal_of(error.kind())),
    }
}
