//! Searches for a cheaper order after a delay many times, and makes the schedule of the delayed state many times, to be timed:
//! `search_bench SEED ROBOT EXTRA BUDGET SEARCHES SCHEDULES`, where robot ROBOT of the fleet of SEED takes EXTRA ticks longer
//! for its first move. With two words more, ROBOTS and STEPS, the fleet is not that of SEED, but two streams of ROBOTS robots
//! that cross, each of which makes STEPS moves.
#![tactic(auto)]

mod fleets;
mod searches;
mod streams;

use crate::searches::{Asked, Made, Outcome};
use bench_base::{number, words};
use std::io;
use std::process::ExitCode;

/// Writes what the last search found and ends with 0; ends with 2 where there is no such delay or memory is wanting, and with 3
/// where words are not read or the line is not written.
fn main(rt: HostRuntime) -> ExitCode {
    match words(rt) {
        Ok(words) => run(rt, &words),
        Err(_) => ExitCode::from(3),
    }
}

fn run(rt: HostRuntime, words: &[String]) -> ExitCode {
    let asked = Asked {
        made: made(words),
        robot: number(words, 1),
        extra: number(words, 2),
        budget: number(words, 3),
        searches: number(words, 4),
        schedules: number(words, 5),
    };
    match searches::searched(rt.alloc(), asked) {
        Some(outcome) => match told(rt, outcome) {
            Ok(()) => ExitCode::from(0),
            Err(_) => ExitCode::from(3),
        },
        None => ExitCode::from(2),
    }
}

/// The plan that is asked for.
fn made(words: &[String]) -> Made {
    let robots = number(words, 6);
    if robots == 0 {
        return Made::Seed(number(words, 0));
    }
    Made::Streams {
        robots,
        steps: number(words, 7),
    }
}

/// Writes what the last search found.
fn told(rt: HostRuntime, outcome: Outcome) -> io::Result<()> {
    let Outcome {
        pairs,
        visits,
        asked,
        branches,
        kept,
        cost,
    } = outcome;
    println!(rt;
        "{pairs} pairs, {visits} visits, {asked} decisions asked, {branches} branches, {kept} before, {cost} after"
    )
}
