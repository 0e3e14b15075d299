//! Plays the cases of the files that the words name over the outside in memory, and prints each that came out otherwise
//! than it was to, and how many passed.
#![tactic(auto)]

ghost use Rattle.std.specs.Prelude.{◌≡◌, ◌<◌};

mod blocks;
mod case;
mod difference;
mod marks;
mod play;
mod reading;
mod scripts;

use anyhow::{Context, Result};
use play::first_difference;
use reading::read_cases;
use std::process::ExitCode;
use std::{env, fs};

/// How many cases came out as they were to, and how many didn't.
#[derive(Clone, Copy)]
struct Score {
    passed: u64,
    failed: u64,
}

/// Plays the cases of one file.
fn play_file(rt: &HostRuntime, file: &str, score: &mut Score) -> Result<()> {
    let text = fs::read_to_string(rt, file).context(format_args!("reading {file}"))?;
    let cases = read_cases(rt, text.as_str()).context(format_args!("in {file}"))?;
    for case in &cases {
        let name = case.name.as_str();
        let difference = first_difference(rt.alloc(), case).context(format_args!(
            "playing {name}"
        ))?;
        match difference {
            None => score.passed = score.passed.saturating_add(1),
            Some(difference) => {
                score.failed = score.failed.saturating_add(1);
                let difference = difference.as_str();
                println!(rt; "FAILED {name} ({file}){difference}")?;
            }
        }
    }
    Ok(())
}

/// Plays the files that the words name, in their order.
fn play_all(rt: &HostRuntime) -> Result<Score> {
    let mut score = Score {
        passed: 0,
        failed: 0,
    };
    for file in env::args(rt)?.skip(1) {
        play_file(rt, file.as_str(), &mut score)?;
    }
    let passed = score.passed;
    let failed = score.failed;
    println!(rt; "{passed} passed, {failed} failed")?;
    Ok(score)
}

fn main(rt: HostRuntime) -> Result<ExitCode> {
    let score = play_all(&rt)?;
    Ok(ExitCode::from(if score.failed == 0 { 0 } else { 1 }))
}
