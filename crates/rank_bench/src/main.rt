//! Ranks a plan's own sides many times and makes their schedule many times, to be timed: `rank_bench ROBOTS STEPS RANKS
//! SCHEDULES`, of robots that follow one another in a row.
#![tactic(auto)]

mod convoy;
mod ranks;
mod schedules;

use bench_base::{number, words};
use std::process::ExitCode;

/// Ends with 0 after the rankings and schedules, with 2 where there is no such plan, and with 3 where the words are not read.
fn main(rt: HostRuntime) -> ExitCode {
    match words(rt) {
        Ok(words) => run(rt, &words),
        Err(_) => ExitCode::from(3),
    }
}

fn run(rt: HostRuntime, words: &[String]) -> ExitCode {
    let (robots, steps) = (number(words, 0), number(words, 1));
    let (ranks, schedules) = (number(words, 2), number(words, 3));
    match ranks::ranked(rt.alloc(), robots, steps, ranks, schedules) {
        Some(()) => ExitCode::from(0),
        None => ExitCode::from(2),
    }
}
