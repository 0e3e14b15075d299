//! Plays the cases of the files that the words name: reads each text, and prints where what came of it is otherwise than it
//! was to be, and how many passed.
#![tactic(auto)]

ghost use Rattle.std.specs.Prelude.{◌≡◌, ◌<◌, ◌≤◌};

mod case;
mod escapes;
mod outcome;
mod play;

use anyhow::{Context, Result};
use case::case_of;
use play::{Score, play_case};
use std::process::ExitCode;
use std::{env, fs};

/// Plays the cases of one file. A line that is empty, or that begins with `#`, is passed over.
fn play_file(rt: &HostRuntime, file: &str, score: &mut Score) -> Result<()> {
    let text = fs::read_to_string(rt, file).context(format_args!("reading {file}"))?;
    for (at, line) in text.as_str().lines().enumerate() {
        if line.is_empty() || line.starts_with('#') {
            continue;
        }
        let number = at.saturating_add(1);
        let case = case_of(rt.alloc(), line).context(format_args!("in {file}, line {number}"))?;
        let difference = play_case(rt.alloc(), &case, score).context(format_args!(
            "playing line {number} of {file}"
        ))?;
        if let Some(difference) = difference {
            let difference = difference.as_str();
            println!(rt; "FAILED line {number} of {file}: {difference}")?;
        }
    }
    Ok(())
}

/// Plays the files that the words name, in their order.
fn play_all(rt: &HostRuntime) -> Result<Score> {
    let mut score = Score {
        passed: 0,
        failed: 0,
    };
    for file in env::args(rt)?.skip(1) {
        play_file(rt, file.as_str(), &mut score)?;
    }
    let passed = score.passed;
    let failed = score.failed;
    println!(rt; "{passed} passed, {failed} failed")?;
    Ok(score)
}

fn main(rt: HostRuntime) -> Result<ExitCode> {
    let score = play_all(&rt)?;
    Ok(ExitCode::from(if score.failed == 0 { 0 } else { 1 }))
}
