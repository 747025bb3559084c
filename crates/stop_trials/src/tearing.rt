// Answers that a stop cuts off: a torn piece has no line end and is no line, and the next session sends it whole.
use report_text::read_answer;
use station_api::MemStation;
use std::alloc::Global;
use std::process::Abort;
use std::test::Fail;
use trial_base::{
    CROSSING, Script, WHOLE_PLAN, WITH_DELAYS, answers_in, joined, next_session, play, sent_behind,
    station_of,
};

/// The first session of a script hears so many reports, on a line that takes so many bytes at a time. It is stopped when all
/// but so many pieces of its last answer are sent; this is then sent of that answer.
type Tear = (&'static Script, usize, u64, u64, &'static [u8]);

const TEARS: [Tear; 11] = [
    (&WHOLE_PLAN, 1, 20, 2, b""),
    (&WHOLE_PLAN, 1, 20, 1, b"release 0 2 1 2\nok 1"),
    (&WHOLE_PLAN, 1, 15, 1, b"release 0 2 1 2"),
    (&WHOLE_PLAN, 1, 9, 2, b"release 0"),
    (&WHOLE_PLAN, 3, 31, 1, b"release 0 4 1 4\nrelease 1 1 1 2"),
    (
        &WHOLE_PLAN,
        3,
        36,
        1,
        b"release 0 4 1 4\nrelease 1 1 1 2\nok 3",
    ),
    (&WITH_DELAYS, 1, 12, 5, b""),
    (&WITH_DELAYS, 1, 12, 4, b"order optima"),
    (
        &WITH_DELAYS,
        1,
        51,
        1,
        b"order optimal 11\nswitch 0\ncert bound\nrelease 1 1 1 ",
    ),
    (
        &WITH_DELAYS,
        1,
        57,
        1,
        b"order optimal 11\nswitch 0\ncert bound\nrelease 1 1 1 2\nok 1",
    ),
    (
        &WITH_DELAYS,
        3,
        40,
        1,
        b"order optimal 20\ncert bound\ncert path 0 ",
    ),
];

/// What a stop leaves that tears the last answer.
fn torn(alloc: Global, tear: &Tear) -> Result<MemStation, Fail> {
    let (script, count, most, unsent, _) = *tear;
    let mut station = station_of(alloc, &[])?;
    station.take_at_most(most.max(1));
    play(alloc, script, count, &mut station)?;
    Ok(station.stopped(alloc, station.calls().saturating_sub(unsent), 0, 0)?)
}

/// All that such a session has sent.
fn sent_before(alloc: Global, tear: &Tear) -> Result<Vec<u8>, Fail> {
    let (script, count, _, _, part) = *tear;
    let answers = script
        .answers
        .get(..count.saturating_sub(1))
        .ok_or("answers")?;
    let greeting = *script.greetings.first().ok_or("a greeting")?;
    joined(alloc, &[greeting, &joined(alloc, answers)?, part])
}

#[test]
fn a_torn_answer_is_sent_again(rt: HostRuntime) -> Result<(), Fail> {
    for tear in &TEARS {
        let mut left = torn(rt.alloc(), tear)?;
        assert_eq!(rt;
            sent_behind(rt.alloc(), &left, 0)?,
            sent_before(rt.alloc(), tear)?
        );
        let greeting = next_session(rt.alloc(), CROSSING, b"", &mut left)?;
        assert_eq!(rt; Some(&greeting.as_slice()), tear.0.greetings.get(tear.1));
    }
    Ok(())
}

/// All that a session sends that hears all reports of a script.
fn all_sent(alloc: Global, script: &Script) -> Result<Vec<u8>, Fail> {
    let mut station = station_of(alloc, &[])?;
    play(alloc, script, script.reports.len(), &mut station)?;
    sent_behind(alloc, &station, 0)
}

/// A front of what was sent, cut off so that it ends with a torn piece, and the first line of the next session behind it. So
/// many whole lines are in it, without those of certificates.
fn assert_no_line(
    rt: &impl Abort,
    alloc: Global,
    sent: &[u8],
    lines: usize,
    piece: &[u8],
) -> Result<(), Fail> {
    assert_eq!(rt; answers_in(alloc, sent)?.len(), lines);
    for next in [b"ready 0".as_slice(), b"ready 17"] {
        assert!(rt; read_answer(&joined(alloc, &[piece, next])?).is_none());
    }
    Ok(())
}

#[test]
fn a_torn_piece_is_no_line(rt: HostRuntime) -> Result<(), Fail> {
    for script in [&WHOLE_PLAN, &WITH_DELAYS] {
        let sent = all_sent(rt.alloc(), script)?;
        let mut piece = Vec::new(rt.alloc());
        let mut lines: usize = 0;
        let mut length: usize = 0;
        for byte in &sent {
            length = length.wrapping_add(1);
            if *byte == b'\n' {
                if !piece.starts_with(b"cert ") {
                    lines = lines.wrapping_add(1);
                }
                piece.clear();
                continue;
            }
            piece.push(*byte)?;
            let front = sent.get(..length).ok_or("a front")?;
            assert_no_line(&rt, rt.alloc(), front, lines, &piece)?;
        }
    }
    Ok(())
}
