// Entries: accepted reports, with the pairs that are switched for them.
ghost use Rattle.std.specs.Prelude.{◌≡◌, ◌^◌, ◌<◌, ◌++◌, ◌↔◌, [], map, length, All, IsTrue, OnOk, IfOk, MatchResult};
ghost use Rattle.std.specs.List.{AllByRecursion};
ghost use Rattle.std.specs.List.Sorted.{IsStrictlyIncreasing};
ghost use Rattle.std.specs.Int.{w32, to_be_bytes};
ghost use Rattle.journal_frame.specs.Entries.{Accepted, IsEntry, HasShortNumbers, HasLongTick, MaySwitch, counted_pairs, entry_payload};
ghost use Rattle.journal_frame.specs.Reading.{Reads, pairs_at, arrival_of, counted_of, delay_of, entry_of};

use crate::FrameError;
use crate::fields::{put, u32_at, u64_at};
use fleet_base::{Memory, PairId, PairList, Report, Text};
use std::alloc::Global;

/// The payload of an entry. All numbers in it are big-endian.
///
/// An arrival is the byte 1, robot, index and tick; a delay is the byte 2, robot, index, extra
/// delay, tick, the number of pairs and the pairs. The tick has eight bytes, each other number
/// four.
pub fn entry_bytes(alloc: Global, report: &Report, switched: &PairList) -> Result<Text, Memory>
    requires numbers { HasShortNumbers report.now }
    requires order { MaySwitch report.now switched.now }
    requires few { length switched.now < 2 ^ 32 }
    ensures { IfOk result (λ text. IsEntry text (record { report = report.now; switched = switched.now })) }
{
    let mut out = Vec::new(alloc);
    put_entry(&mut out, report, switched.as_slice())?;
    Ok(Text::from_vec(out))
}

/// The entry that has this payload.
pub fn read_entry(alloc: Global, payload: &[u8]) -> Result<(Report, PairList), FrameError>
    // What is read has this payload.
    ensures read { IfOk result (λ e. IsEntry payload.now (record { report = e.0; switched = e.1 })) }
    // What has this payload is read, unless memory runs out.
    ensures only { (entry : Accepted) → IsEntry payload.now entry →
        MatchResult result (λ e. e ≡ (entry.report, entry.switched)) (λ e. e ≡ FrameError.Memory) }
{
    let (report, switched) = fields(alloc, payload)?;
    if !is_ascending(switched.as_slice()) {
        return Err(FrameError::NotInGrammar);
    }
    Ok((report, switched))
}

/// The fields of an entry, all of the payload, whatever the order of its pairs.
#[tactic(auto, unfolding(crate::specs::Reading::entry_of))]
fn fields(alloc: Global, payload: &[u8]) -> Result<(Report, PairList), FrameError>
    ensures { Reads (λ e. e) result (entry_of payload.now) }
{
    match payload {
        [1, rest @ ..] => Ok((arrival(rest)?, PairList::new(alloc))),
        [2, rest @ ..] => delay(alloc, rest),
        _ => Err(FrameError::NotInGrammar),
    }
}

#[tactic(auto, unfolding(crate::specs::Reading::arrival_of))]
fn arrival(bytes: &[u8]) -> Result<Report, FrameError>
    ensures { Reads (λ report. (report, [])) result (arrival_of bytes.now) }
{
    let (robot, rest) = u32_at(bytes)?;
    let (index, rest) = u32_at(rest)?;
    let (tick, rest) = u64_at(rest)?;
    if !rest.is_empty() {
        return Err(FrameError::NotInGrammar);
    }
    Ok(Report::Arrive {
        robot: u64::from(robot),
        index: u64::from(index),
        tick,
    })
}

#[tactic(auto, unfolding(crate::specs::Reading::delay_of))]
fn delay(alloc: Global, bytes: &[u8]) -> Result<(Report, PairList), FrameError>
    ensures { Reads (λ e. e) result (delay_of bytes.now) }
{
    let (robot, rest) = u32_at(bytes)?;
    let (index, rest) = u32_at(rest)?;
    let (extra, rest) = u32_at(rest)?;
    let (tick, rest) = u64_at(rest)?;
    let switched = counted(alloc, rest)?;
    let report = Report::Delay {
        robot: u64::from(robot),
        index: u64::from(index),
        extra: u64::from(extra),
        tick,
    };
    Ok((report, switched))
}

/// A count of pairs and so many pairs, all of the bytes.
#[tactic(auto, unfolding(crate::specs::Reading::counted_of))]
fn counted(alloc: Global, bytes: &[u8]) -> Result<PairList, FrameError>
    ensures { Reads (λ pairs. pairs) result (counted_of bytes.now) }
{
    let (count, rest) = u32_at(bytes)?;
    let (pairs, after) = pairs(alloc, count, rest)?;
    if !after.is_empty() {
        return Err(FrameError::NotInGrammar);
    }
    Ok(pairs)
}

/// So many pairs, and the bytes after them.
fn pairs(alloc: Global, count: u32, bytes: &[u8]) -> Result<(PairList, &[u8]), FrameError>
    ensures { Reads (λ x. (x.0, x.1.now)) result (pairs_at count bytes.now) }
{
    let mut pairs = PairList::new(alloc);
    let mut rest = bytes;
    for _ in 0..count {
        let (number, after) = u32_at(rest)?;
        pairs.push(PairId(number))?;
        rest = after;
    }
    Ok((pairs, rest))
}

/// Whether each pair is below the next.
fn is_ascending(pairs: &[PairId]) -> bool
    ensures { IsTrue result ↔ IsStrictlyIncreasing (map (λ q. q.0) pairs.now) }
{
    pairs.is_sorted_by(|a, b| a.0 < b.0)
}

#[tactic(auto, unfolding(crate::specs::Entries::entry_payload))]
fn put_entry(out: &mut Vec<u8>, report: &Report, switched: &[PairId]) -> Result<(), Memory>
    requires numbers { HasShortNumbers report.now }
    requires order { MaySwitch report.now switched.now }
    requires few { length switched.now < 2 ^ 32 }
    ensures payload { OnOk result (out.new.items ≡ out.old.items ++ entry_payload report.now switched.now) }
    ensures tick { HasLongTick report.now }
    ensures pairs { OnOk result (AllByRecursion (λ q. q.0 < 2 ^ 32) switched.now) }
{
    match *report {
        Report::Arrive { robot, index, tick } => {
            put(out, &[1])?;
            put_visit(out, robot as u32, index as u32)?;
            put(out, &tick.to_be_bytes())
        }
        Report::Delay {
            robot,
            index,
            extra,
            tick,
        } => {
            put(out, &[2])?;
            put_visit(out, robot as u32, index as u32)?;
            put(out, &(extra as u32).to_be_bytes())?;
            put(out, &tick.to_be_bytes())?;
            put_pairs(out, switched)
        }
    }
}

fn put_visit(out: &mut Vec<u8>, robot: u32, index: u32) -> Result<(), Memory>
    ensures { OnOk result (out.new.items ≡ out.old.items ++ (to_be_bytes w32 robot ++ to_be_bytes w32 index)) }
{
    put(out, &robot.to_be_bytes())?;
    put(out, &index.to_be_bytes())
}

/// Appends how many pairs there are, and the pairs.
fn put_pairs(out: &mut Vec<u8>, pairs: &[PairId]) -> Result<(), Memory>
    requires { length pairs.now < 2 ^ 32 }
    ensures payload { OnOk result (out.new.items ≡ out.old.items ++ counted_pairs pairs.now) }
    ensures numbers { OnOk result (All (λ q. q.0 < 2 ^ 32) pairs.now) }
{
    put(out, &(pairs.len() as u32).to_be_bytes())?;
    for pair in pairs {
        put(out, &pair.0.to_be_bytes())?;
    }
    Ok(())
}
