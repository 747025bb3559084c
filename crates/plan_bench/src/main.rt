//! Plans in turn for drawn tasks on a drawn map many times, to be timed: `plan_bench ROBOTS SIDE HORIZON BLOCKED SEED PLANS`,
//! where the map has SIDE rows and columns, and BLOCKED cells of a hundred are blocked.
#![tactic(auto)]

mod draws;
mod plans;

use crate::plans::{Draw, Outcome};
use bench_base::{number, words};
use std::io;
use std::process::ExitCode;

/// Writes what became of the last plan and ends with 0; ends with 2 where there is no such map or memory is wanting, and
/// with 3 where words are not read or the line is not written.
fn main(rt: HostRuntime) -> ExitCode {
    match words(rt) {
        Ok(words) => run(rt, &words),
        Err(_) => ExitCode::from(3),
    }
}

fn run(rt: HostRuntime, words: &[String]) -> ExitCode {
    let draw = Draw {
        robots: small(words, 0),
        side: small(words, 1),
        blocked: small(words, 3),
        seed: small(words, 4),
    };
    match plans::planned(rt.alloc(), draw, small(words, 2), small(words, 5)) {
        Some(outcome) => match told(rt, outcome) {
            Ok(()) => ExitCode::from(0),
            Err(_) => ExitCode::from(3),
        },
        None => ExitCode::from(2),
    }
}

/// Writes what became of the last plan.
fn told(rt: HostRuntime, outcome: Outcome) -> io::Result<()> {
    match outcome {
        Outcome::Planned { last, ticks } => println!(rt; "last tick {last}, {ticks} ticks in all"),
        Outcome::NoPath { robot } => println!(rt; "no path for robot {robot}"),
        Outcome::NotAsked => println!(rt; "no plan asked"),
    }
}

/// The number that a word spells; 0 where it spells none below 2^32.
fn small(words: &[String], at: usize) -> u32 {
    u32::try_from(number(words, at)).ok().unwrap_or(0)
}
