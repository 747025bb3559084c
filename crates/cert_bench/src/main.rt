//! Reads a made-up certificate and checks it, so many times, to be timed: `cert_bench KIND CROSSINGS ARM DEPTH READS CHECKS`.
//! KIND is `bare`, `listed` or `spent`. With no READS the certificate's text is written to standard output.
#![tactic(auto)]

mod checks;
mod crossings;
mod state;
mod tree;

use crate::checks::judged;
use crate::crossings::Crossings;
use crate::tree::{Kind, Tree};
use bench_base::{number, words};
use std::process::ExitCode;

/// Ends with 0 where each check said Yes, with 1 where one said No, with 2 where there is no such plan or tree, and with 3
/// where the words are not read.
fn main(rt: HostRuntime) -> ExitCode {
    let Ok(words) = words(rt) else {
        return ExitCode::from(3);
    };
    match wanted(&words) {
        Some(tree) => run(rt, &tree, number(&words, 4), number(&words, 5)),
        None => ExitCode::from(3),
    }
}

/// The tree that the words ask for.
fn wanted(words: &[String]) -> Option<Tree> {
    let kind = match words.first()?.as_bytes() {
        b"bare" => Kind::Bare,
        b"listed" => Kind::Listed,
        b"spent" => Kind::Spent,
        _ => return None,
    };
    let count = u8::try_from(number(words, 1)).ok()?;
    let arm = u8::try_from(number(words, 2)).ok()?;
    let depth = u8::try_from(number(words, 3)).ok()?;
    Some(Tree {
        kind,
        crossings: Crossings { count, arm },
        depth,
    })
}

fn run(rt: HostRuntime, tree: &Tree, reads: u64, checks: u64) -> ExitCode {
    let Ok(text) = tree.text(rt.alloc()) else {
        return ExitCode::from(2);
    };
    if reads == 0 {
        return match print!(rt; "{text}") {
            Ok(()) => ExitCode::from(0),
            Err(_) => ExitCode::from(2),
        };
    }
    match judged(rt.alloc(), tree, text.as_bytes(), reads, checks) {
        Some(true) => ExitCode::from(0),
        Some(false) => ExitCode::from(1),
        None => ExitCode::from(2),
    }
}
