// The two files of a journal.
ghost use Rattle.std.specs.Prelude.{◌≤◌, length, IfOk};

use crate::side_file::SideFile;
use station_api::DiskSide;
use std::alloc::Global;
use std::fs::File;
use std::io;
use std::rt::Files;

/// The files `NAME.a` and `NAME.b`. The first call that may change one of them locks the first against other programs.
#[derive(Drop)]
pub struct Journal {
    a: SideFile,
    b: SideFile,
    is_locked: bool,
}

impl Journal {
    pub fn open<R: Files<File = File>>(rt: &R, alloc: Global, name: &str) -> io::Result<Journal> {
        Ok(Journal {
            a: SideFile::open(rt, alloc, format!(in alloc; "{name}.a")?)?,
            b: SideFile::open(rt, alloc, format!(in alloc; "{name}.b")?)?,
            is_locked: false,
        })
    }

    /// Another program may have made the other file since this one looked.
    fn lock<R: Files<File = File>>(&mut self, rt: &R) -> io::Result<()> {
        if !self.is_locked {
            self.a.lock(rt)?;
            self.b.look_again(rt)?;
            self.is_locked = true;
        }
        Ok(())
    }

    fn side(&self, side: DiskSide) -> &SideFile {
        match side {
            DiskSide::A => &self.a,
            DiskSide::B => &self.b,
        }
    }

    fn side_mut(&mut self, side: DiskSide) -> &mut SideFile {
        match side {
            DiskSide::A => &mut self.a,
            DiskSide::B => &mut self.b,
        }
    }

    pub fn length(&self, side: DiskSide) -> io::Result<u64> {
        self.side(side).length()
    }

    pub fn read(&self, side: DiskSide, at: u64, room: &mut [u8]) -> io::Result<usize>
        ensures { IfOk result (λ n. n ≤ length room.new) }
    {
        self.side(side).read(at, room)
    }

    pub fn write_at<R: Files<File = File>>(
        &mut self,
        rt: &R,
        side: DiskSide,
        at: u64,
        bytes: &[u8],
    ) -> io::Result<()> {
        self.lock(rt)?;
        self.side_mut(side).write_at(rt, at, bytes)
    }

    pub fn cut<R: Files<File = File>>(
        &mut self,
        rt: &R,
        side: DiskSide,
        length: u64,
    ) -> io::Result<()> {
        self.lock(rt)?;
        self.side_mut(side).cut(length)
    }

    pub fn sync<R: Files<File = File>>(&mut self, rt: &R, side: DiskSide) -> io::Result<()> {
        self.lock(rt)?;
        self.side_mut(side).sync(rt)
    }
}
