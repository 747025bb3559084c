//! What the benches share: the words of their command line, and the numbers among them.
#![tactic(auto)]

use fleet_base::read_number;
use std::{env, io};

/// The words of the command line, without the program's own name.
pub fn words(rt: HostRuntime) -> io::Result<Vec<String>> {
    let mut words = Vec::new(rt.alloc());
    for word in env::args(&rt)?.skip(1) {
        words
            .push(word)
            .map_err(|_| io::Error::from(io::ErrorKind::OutOfMemory))?;
    }
    Ok(words)
}

/// The number that a word spells; 0 where it spells none.
pub fn number(words: &[String], at: usize) -> u64 {
    match words.get(at) {
        Some(word) => read_number(word.as_bytes()).unwrap_or(0),
        None => 0,
    }
}
