// The numbers of the standard streams.
use std::fs::File;
use std::io;
use std::rt::Files;

/// While this lives, standard input, output and error are open, so that no other file has the number of one of them.
///
/// A program may be started with some of the three closed, and a file that it opens gets the lowest free number. So the
/// root folder, opened three times before all other files, takes each number that is free. A folder can neither be read nor
/// be written as a file is: a read of an input that was closed fails, and so does a send on an output that was closed.
#[derive(Drop)]
pub struct StandardStreams {
    stand_ins: [File; 3],
}

impl StandardStreams {
    /// Fails where the root folder cannot be opened.
    pub fn hold<R: Files<File = File>>(rt: &R) -> io::Result<Self> {
        Ok(StandardStreams {
            stand_ins: [
                File::open(rt, "/")?,
                File::open(rt, "/")?,
                File::open(rt, "/")?,
            ],
        })
    }
}
