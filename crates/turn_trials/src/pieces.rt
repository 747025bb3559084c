// Input that comes in pieces, and answers that go out in pieces.
use station_api::{Failed, MemSource, Source};
use std::alloc::Global;
use std::test::Fail;
use trial_base::{CROSSING, WHOLE_PLAN, end_of, joined, sent_behind, shelf_of, side_a, station_of};

/// Bytes of which each read takes at most one.
#[derive(Drop)]
pub struct Drip {
    bytes: Vec<u8>,
    taken: usize,
    last: usize,
}

impl Source for Drip {
    ghost use Rattle.std.specs.Prelude.{[], true};
    ghost use Rattle.station_api.specs.Causes.{counts_of};

    ghost tells = { ⊥ };

    ghost left = { λ _. [] };

    ghost last = { λ s. s.last };

    ghost counts = { λ _. counts_of 0 0 true [] };

    fn read(&mut self, room: &mut [u8]) -> Result<usize, Failed> {
        self.last = 0;
        if let Some(byte) = self.bytes.get(self.taken)
            && let Some(place) = room.first_mut()
        {
            *place = *byte;
            self.taken += 1;
            self.last = 1;
        }
        Ok(self.last)
    }
}

/// What a first session sends and keeps whose reports come from this source, on a line that takes so many bytes at a time.
fn outcome<S: Source>(
    alloc: Global,
    source: &mut S,
    most: u64,
) -> Result<(u8, Vec<u8>, Vec<u8>), Fail> {
    let mut shelf = shelf_of(alloc, CROSSING, &[])?;
    let mut station = station_of(alloc, &[])?;
    station.take_at_most(most.max(1));
    let code = end_of(
        alloc,
        &["run", "M", "P", "J"],
        &mut shelf,
        source,
        &mut station,
    )?;
    Ok((
        code,
        sent_behind(alloc, &station, 0)?,
        side_a(alloc, &station)?,
    ))
}

pub fn at_once(alloc: Global, reports: &[u8]) -> Result<MemSource, Fail> {
    Ok(MemSource::new(alloc, reports.to_vec(alloc)?, Vec::new(alloc)))
}

pub fn byte_by_byte(alloc: Global, reports: &[u8]) -> Result<Drip, Fail> {
    Ok(Drip {
        bytes: reports.to_vec(alloc)?,
        taken: 0,
        last: 0,
    })
}

#[test]
fn pieces_do_not_matter(rt: HostRuntime) -> Result<(), Fail> {
    let whole = joined(rt.alloc(), WHOLE_PLAN.reports)?;
    for reports in [
        whole.as_slice(),
        b"arrive 0 1 1\r\n\narrive 0 1 1\narrive 0 2 2",
    ] {
        let want = outcome(rt.alloc(), &mut at_once(rt.alloc(), reports)?, u64::MAX)?;
        for most in [1, 3, 7, u64::MAX] {
            let found = outcome(rt.alloc(), &mut at_once(rt.alloc(), reports)?, most)?;
            assert!(rt; found == want);
            let found = outcome(rt.alloc(), &mut byte_by_byte(rt.alloc(), reports)?, most)?;
            assert!(rt; found == want);
        }
    }
    Ok(())
}
