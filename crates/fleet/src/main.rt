//! The executive of a robot fleet: the top call over real files, standard input and standard output.
#![tactic(auto)]

use fleet_base::Status;
use fleet_cli::fleet_main;
use station_real::{RealShelf, RealSource, RealStation, StandardStreams};
use std::process::ExitCode;
use std::{env, io};

fn main(rt: HostRuntime) -> ExitCode {
    let status = match StandardStreams::hold(&rt) {
        Ok(_streams) => obey(rt),
        // Any file might be taken for standard output.
        Err(_) => Status::StationFault,
    };
    ExitCode::from(status.code())
}

fn obey(rt: HostRuntime) -> Status {
    match words(rt) {
        Ok(words) => run(rt, &words),
        Err(error) if error.kind() == io::ErrorKind::OutOfMemory => Status::Memory,
        // Words that are no text are those of no command.
        Err(_) => run(rt, &[]),
    }
}

/// The words of the command line, without the program's own name.
fn words(rt: HostRuntime) -> io::Result<Vec<String>> {
    let mut words = Vec::new(rt.alloc());
    for word in env::args(&rt)?.skip(1) {
        words
            .push(word)
            .map_err(|_| io::Error::from(io::ErrorKind::OutOfMemory))?;
    }
    Ok(words)
}

fn run(rt: HostRuntime, words: &[String]) -> Status {
    let mut shelf = RealShelf::new(rt);
    let mut source = RealSource::new(rt.reader());
    let mut station = RealStation::new(rt);
    fleet_main(rt.alloc(), words, &mut shelf, &mut source, &mut station)
}
