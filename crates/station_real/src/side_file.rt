// The file of one side of a journal.
ghost use Rattle.std.specs.Prelude.{◌≡◌, ◌≤◌, length, string_bytes, IfOk};
ghost use Rattle.station_real.specs.Real.{folder_bytes};

use std::alloc::Global;
use std::fs::{File, OpenOptions};
use std::io;
use std::marker::Model;
use std::os::unix::fs::FileExt;
use std::path::Path;
use std::rt::Files;

/// A missing file has length 0, and is made by the first write or by a lock.
#[derive(Drop)]
pub struct SideFile {
    path: String,
    folder: String,
    file: Option<File>,
    // whether all that stood there at first is known to be on the disk, and the file's name in its folder
    is_settled: bool,
}

impl Model for SideFile {
    ghost use Rattle.std.specs.Prelude.{◌≡◌, ℕ, List, string_bytes};
    ghost use Rattle.station_real.specs.Real.{folder_bytes};

    ghost Value = { List ℕ };

    ghost view = { λ s. string_bytes s.path };

    ghost invariant = { λ s. string_bytes s.folder ≡ folder_bytes (string_bytes s.path) };
}

/// How many bytes are written again at once.
pub const PIECE: usize = 1 << 16;

/// Writes all bytes of a file back to their places.
fn write_again(file: &File) -> io::Result<()> {
    let length = file.metadata()?.len();
    let mut room = [0; PIECE];
    for at in (0..length).step_by(PIECE) {
        let count = length.saturating_sub(at).min(PIECE as u64) as usize;
        file.read_exact_at(&mut room[..count], at)?;
        file.write_all_at(&room[..count], at)?;
    }
    Ok(())
}

/// The folder of a file.
pub fn folder_of(path: &str) -> &str
    ensures { result.now ≡ folder_bytes path.now }
{
    match Path::new(path).parent() {
        Some(folder) if !folder.as_str().is_empty() => folder.as_str(),
        _ => ".",
    }
}

fn find<R: Files<File = File>>(rt: &R, path: &str) -> io::Result<Option<File>> {
    match OpenOptions::new().read(true).write(true).open(rt, path) {
        Ok(file) => Ok(Some(file)),
        Err(error) if error.kind() == io::ErrorKind::NotFound => Ok(None),
        Err(error) => Err(error),
    }
}

fn find_or_make<R: Files<File = File>>(rt: &R, path: &str) -> io::Result<File> {
    OpenOptions::new()
        .read(true)
        .write(true)
        .create(true)
        .open(rt, path)
}

impl SideFile {
    pub fn open<R: Files<File = File>>(rt: &R, alloc: Global, path: String) -> io::Result<Self>
        ensures { IfOk result (λ side. side ≡ string_bytes path) }
    {
        let file = find(rt, path.as_str())?;
        let folder = String::from_str(alloc, folder_of(path.as_str()))?;
        Ok(SideFile {
            path,
            folder,
            file,
            is_settled: false,
        })
    }

    /// Looks again for a file that was missing.
    pub fn look_again<R: Files<File = File>>(&mut self, rt: &R) -> io::Result<()>
        ensures { self.new ≡ self.old }
    {
        if self.file.is_none() {
            self.file = find(rt, self.path.as_str())?;
        }
        Ok(())
    }

    /// Fails where another program, or another station of this one, has the lock. It is let go where the file is closed.
    pub fn lock<R: Files<File = File>>(&mut self, rt: &R) -> io::Result<()>
        ensures { self.new ≡ self.old }
    {
        let file = match self.file.take() {
            Some(file) => file,
            None => find_or_make(rt, self.path.as_str())?,
        };
        let answer = file.try_lock();
        self.file = Some(file);
        Ok(answer?)
    }

    pub fn length(&self) -> io::Result<u64> {
        match &self.file {
            Some(file) => Ok(file.metadata()?.len()),
            None => Ok(0),
        }
    }

    pub fn read(&self, at: u64, room: &mut [u8]) -> io::Result<usize>
        ensures { IfOk result (λ n. n ≤ length room.new) }
    {
        let Some(file) = &self.file else {
            return Ok(0);
        };
        let left = file.metadata()?.len().saturating_sub(at);
        let count = left.min(room.len() as u64) as usize;
        file.read_exact_at(&mut room[..count], at)?;
        Ok(count)
    }

    pub fn write_at<R: Files<File = File>>(
        &mut self,
        rt: &R,
        at: u64,
        bytes: &[u8],
    ) -> io::Result<()>
        ensures { self.new ≡ self.old }
    {
        let file = match self.file.take() {
            Some(file) => file,
            None => find_or_make(rt, self.path.as_str())?,
        };
        let answer = file.write_all_at(bytes, at);
        self.file = Some(file);
        answer
    }

    pub fn cut(&mut self, length: u64) -> io::Result<()>
        ensures { self.new ≡ self.old }
    {
        match &self.file {
            Some(file) => file.set_len(length),
            None => Ok(()),
        }
    }

    /// The first sync writes all bytes again, and syncs the folder too. A program before this one may have stopped before
    /// it synced the folder. And where a sync of its own failed, the system may read the new bytes and count them as
    /// written, so that a sync alone would promise what the disk does not hold.
    pub fn sync<R: Files<File = File>>(&mut self, rt: &R) -> io::Result<()>
        ensures { self.new ≡ self.old }
    {
        let Some(file) = &self.file else {
            return Ok(());
        };
        if self.is_settled {
            return file.sync_data();
        }
        write_again(file)?;
        file.sync_data()?;
        File::open(rt, self.folder.as_str())?.sync_all()?;
        self.is_settled = true;
        Ok(())
    }
}
