// The two sides and the sent bytes of a station in memory, with each change that was made to them.
ghost use Rattle.std.specs.Prelude.{◌≡◌, ◌≤◌, ◌++◌, [], ℕ, List, take, length, IfOk, OnOk, OnErr};
ghost use Rattle.station_api.specs.Scene.{side_of};
ghost use Rattle.station_api.specs.Disk.{written, Torn, Shortened, Reaches, IsQuiet, IsStep, IsSending, IsSynced, Writes, Cuts, Sends};
ghost use Rattle.station_api.specs.Clock.{IsKept};
ghost use Rattle.station_api.specs.Past.{past_clock, past_stopped};
ghost use Rattle.station_api.specs.Replay.{scene, with_side};

use crate::DiskSide;
use crate::call::{Call, Change};
use crate::play::Playing;
use std::alloc::{AllocError, Global};
use std::marker::Model;

/// Writes over what stands there, and past the end. An `Err` changes nothing.
pub fn put<T: Copy + Drop>(stands: &mut Vec<T>, at: usize, bytes: &[T]) -> Result<(), AllocError>
    requires { at ≤ length stands.old.items }
    ensures ok { OnOk result (stands.new.items ≡ written at bytes.now stands.old.items) }
    ensures err { OnErr result (stands.new.items ≡ stands.old.items) }
{
    let room = stands.len() - at;
    if bytes.len() <= room {
        stands[at..at + bytes.len()].copy_from_slice(bytes);
    } else {
        stands.extend_from_slice(&bytes[room..])?;
        stands[at..at + room].copy_from_slice(&bytes[..room]);
    }
    Ok(())
}

/// The same on one of two sides.
fn put_on(
    side: DiskSide,
    a: &mut Vec<u8>,
    b: &mut Vec<u8>,
    at: usize,
    bytes: &[u8],
) -> Result<(), AllocError>
    requires { at ≤ length (side_of side (scene a.old.items b.old.items [])) }
    ensures ok { OnOk result ((sent : List ℕ) → scene a.new.items b.new.items sent ≡ with_side side (written at bytes.now (side_of side (scene a.old.items b.old.items sent))) (scene a.old.items b.old.items sent)) }
    ensures err { OnErr result ((a.new.items ≡ a.old.items) × (b.new.items ≡ b.old.items)) }
{
    match side {
        DiskSide::A => put(a, at, bytes),
        DiskSide::B => put(b, at, bytes),
    }
}

/// Cuts one of two sides.
fn cut_on(side: DiskSide, a: &mut Vec<u8>, b: &mut Vec<u8>, length: usize)
    ensures { (sent : List ℕ) → scene a.new.items b.new.items sent ≡ with_side side (take length (side_of side (scene a.old.items b.old.items sent))) (scene a.old.items b.old.items sent) }
{
    match side {
        DiskSide::A => a.truncate(length),
        DiskSide::B => b.truncate(length),
    }
}

/// It keeps what it began with, and a call that answers an `Err` changes nothing.
#[derive(Drop)]
pub struct Disk {
    first_a: Vec<u8>,
    first_b: Vec<u8>,
    first_sent: Vec<u8>,
    a: Vec<u8>,
    b: Vec<u8>,
    sent: Vec<u8>,
    past: Vec<Call>,
}

impl Model for Disk {
    ghost use Rattle.station_api.specs.Past.{Past, IsHeld};
    ghost use Rattle.station_api.specs.Replay.{scene};

    ghost Value = { Past };

    ghost view = { λ d. record { first = scene d.first_a.items d.first_b.items d.first_sent.items; calls = d.past.items } };

    ghost invariant = { λ d. IsHeld (scene d.first_a.items d.first_b.items d.first_sent.items) d.past.items d.a.items d.b.items d.sent.items };
}

impl Disk {
    /// An empty disk.
    pub fn empty(alloc: Global) -> Self
        ensures seen { (past_clock result).seen ≡ scene [] [] [] }
        ensures kept { IsKept (past_clock result) }
    {
        Disk {
            first_a: Vec::new(alloc),
            first_b: Vec::new(alloc),
            first_sent: Vec::new(alloc),
            a: Vec::new(alloc),
            b: Vec::new(alloc),
            sent: Vec::new(alloc),
            past: Vec::new(alloc),
        }
    }

    /// A disk that holds these sides and has sent these bytes, all of it kept.
    pub fn new(alloc: Global, a: Vec<u8>, b: Vec<u8>, sent: Vec<u8>) -> Result<Self, AllocError>
        ensures seen { IfOk result (λ disk. (past_clock disk).seen ≡ scene a.items b.items sent.items) }
        ensures kept { IfOk result (λ disk. IsKept (past_clock disk)) }
    {
        Ok(Disk {
            first_a: a.as_slice().to_vec(alloc)?,
            first_b: b.as_slice().to_vec(alloc)?,
            first_sent: sent.as_slice().to_vec(alloc)?,
            a,
            b,
            sent,
            past: Vec::new(alloc),
        })
    }

    pub fn side(&self, side: DiskSide) -> &[u8]
        ensures { result.now ≡ side_of side (past_clock self.now).seen }
    {
        match side {
            DiskSide::A => &self.a,
            DiskSide::B => &self.b,
        }
    }

    pub fn sent(&self) -> &[u8]
        ensures { result.now ≡ (past_clock self.now).seen.sent }
    {
        &self.sent
    }

    pub fn write_at(
        &mut self,
        alloc: Global,
        number: u64,
        side: DiskSide,
        at: u64,
        bytes: &[u8],
    ) -> Result<(), AllocError>
        requires { Reaches side at (past_clock self.old) }
        ensures step { IsStep side (Torn at (length bytes.now)) (past_clock self.old) (past_clock self.new) }
        ensures written { OnOk result (Writes side at bytes.now (past_clock self.old) (past_clock self.new)) }
        ensures err { OnErr result (self.new ≡ self.old) }
    {
        let before = self.past.len();
        let copy = bytes.to_vec(alloc)?;
        self.past.push(Call {
            number,
            change: Change::Write {
                side,
                at,
                bytes: copy,
            },
        })?;
        if let Err(e) = put_on(side, &mut self.a, &mut self.b, at as usize, bytes) {
            self.past.truncate(before);
            return Err(e);
        }
        Ok(())
    }

    pub fn cut(&mut self, number: u64, side: DiskSide, length: u64) -> Result<(), AllocError>
        requires { Reaches side length (past_clock self.old) }
        ensures step { IsStep side (Shortened length) (past_clock self.old) (past_clock self.new) }
        ensures shortened { OnOk result (Cuts side length (past_clock self.old) (past_clock self.new)) }
        ensures err { OnErr result (self.new ≡ self.old) }
    {
        self.past.push(Call {
            number,
            change: Change::Cut { side, length },
        })?;
        cut_on(side, &mut self.a, &mut self.b, length as usize);
        Ok(())
    }

    pub fn sync(&mut self, number: u64, side: DiskSide) -> Result<(), AllocError>
        ensures quiet { IsQuiet (past_clock self.old) (past_clock self.new) }
        ensures synced { OnOk result (IsSynced side (past_clock self.new)) }
        ensures err { OnErr result (self.new ≡ self.old) }
    {
        self.past.push(Call {
            number,
            change: Change::Sync { side },
        })?;
        Ok(())
    }

    pub fn send(&mut self, alloc: Global, number: u64, bytes: &[u8]) -> Result<(), AllocError>
        ensures sending { IsSending (past_clock self.old) (past_clock self.new) }
        ensures sent { OnOk result ((past_clock self.new).seen.sent ≡ (past_clock self.old).seen.sent ++ bytes.now) }
        ensures none { OnErr result ((past_clock self.new).seen.sent ≡ (past_clock self.old).seen.sent) }
        ensures err { OnErr result (self.new ≡ self.old) }
    {
        let before = self.past.len();
        let copy = bytes.to_vec(alloc)?;
        self.past.push(Call {
            number,
            change: Change::Send { bytes: copy },
        })?;
        if let Err(e) = self.sent.extend_from_slice(bytes) {
            self.past.truncate(before);
            return Err(e);
        }
        Ok(())
    }

    /// The disk that a stop after the calls up to a number leaves, where the first of the bytes not synced are kept,
    /// and the others hold a filler.
    pub fn stopped(
        &self,
        alloc: Global,
        last: u64,
        kept: u64,
        filler: u8,
    ) -> Result<Self, AllocError>
        ensures exact { IfOk result (λ disk. (past_clock disk).seen ≡ past_stopped self.now last kept filler) }
        ensures left { IfOk result (λ disk. (past_clock self.now).left_since 0 (past_clock disk).seen) }
        ensures kept { IfOk result (λ disk. IsKept (past_clock disk)) }
    {
        let Playing {
            a,
            b,
            sent,
            marks_a: _,
            marks_b: _,
        } = Playing::stopped(
            alloc,
            &self.first_a,
            &self.first_b,
            &self.first_sent,
            &self.past,
            last,
            kept,
            filler,
        )?;
        let disk = Disk::new(alloc, a, b, sent)?;
        Ok(disk)
    }
}
