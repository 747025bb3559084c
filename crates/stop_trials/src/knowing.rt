// What the next session knows of the reports of one that was stopped, or broke off.
use fleet_base::Why;
use report_text::Answer;
use station_api::MemStation;
use std::alloc::Global;
use std::process::Abort;
use std::test::Fail;
use trial_base::{CROSSING, Script, answers_in, joined, kept_by, next_session};

/// What may be left of bytes that are not synced: how many are kept, and what the others hold.
pub const LEFT: [(u64, u8); 9] = [
    (0, 0),
    (0, 1),
    (0, 7),
    (0, 255),
    (1, 0),
    (1, 1),
    (1, 7),
    (1, 255),
    (u64::MAX, 0),
];

/// After how many reports of a script a session is greeted so.
fn count_of(script: &Script, greeting: &[u8]) -> Option<u64> {
    let mut count = 0;
    for known in script.greetings {
        if *known == greeting {
            return Some(count);
        }
        count = count.wrapping_add(1);
    }
    None
}

/// The releases that a robot may know that has read all greetings up to the one after so many reports.
fn released_by(alloc: Global, script: &Script, count: u64) -> Result<Vec<Answer>, Fail> {
    let mut released = Vec::new(alloc);
    let known = (count as usize).saturating_add(1);
    for greeting in script.greetings.iter().take(known) {
        released.extend_from_slice(&answers_in(alloc, greeting)?)?;
    }
    Ok(released)
}

/// Opens the journal of a script again after a session that has said this: every report that it answered ok is kept, and at
/// most one more, and every visit that it released on a whole line is released.
pub fn assert_keeps(
    rt: &impl Abort,
    alloc: Global,
    script: &Script,
    said: &[u8],
    station: &mut MemStation,
) -> Result<(), Fail> {
    let said = answers_in(alloc, said)?;
    let greeting = next_session(alloc, CROSSING, b"", station)?;
    let count = count_of(script, &greeting).ok_or("a state of the script")?;
    match kept_by(&said) {
        Some(kept) => assert!(rt; kept == count || kept.saturating_add(1) == count),
        None => assert_eq!(rt; count, 0),
    }
    let released = released_by(alloc, script, count)?;
    for answer in &said {
        if let Answer::Release { .. } = answer {
            assert!(rt; released.contains(answer));
        }
    }
    Ok(())
}

/// Tells the next session all reports of a script, some of which it knows: it keeps the others, and all robots arrive.
pub fn assert_ends(
    rt: &impl Abort,
    alloc: Global,
    script: &Script,
    station: &mut MemStation,
) -> Result<(), Fail> {
    let reports = joined(alloc, script.reports)?;
    let said = answers_in(alloc, &next_session(alloc, CROSSING, &reports, station)?)?;
    for answer in &said {
        if let Answer::Refused(why) = *answer {
            assert_eq!(rt; why, Why::Arrived);
        }
    }
    let greeting = next_session(alloc, CROSSING, b"", station)?;
    assert_eq!(rt; Some(&greeting.as_slice()), script.greetings.last());
    Ok(())
}
