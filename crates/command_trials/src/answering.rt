// A first session: how each line is answered.
use std::alloc::Global;
use std::test::Fail;
use trial_base::{
    CROSSING, CROSSING_MAP, Script, Texts, WHOLE_PLAN, WITH_DELAYS, joined, session, station_of,
};

/// How a first session ends that hears these reports, and what it sends.
fn run_of(alloc: Global, texts: Texts<'_>, reports: &[u8]) -> Result<(u8, Vec<u8>), Fail> {
    let mut station = station_of(alloc, &[])?;
    let code = session(alloc, texts, reports, &mut station)?;
    Ok((code, station.sent().to_vec(alloc)?))
}

/// Reports over the crossing, and the answers to them.
type Row = (&'static [u8], &'static [u8]);

const ANSWERS: [Row; 13] = [
    (b"", b""),
    (b"arrive 0 2 1\n", b"refused unreleased\n"),
    (
        b"arrive 0 1 1\narrive 0 1 1\narrive 0 1 0\n",
        b"release 0 2 1 2\nok 1\nknown\nknown\n",
    ),
    (
        b"delay 0 1 5 0\ndelay 0 1 5 0\n",
        b"order optimal 11\nswitch 0\ncert bound\nrelease 1 1 1 2\nok 1\nknown\n",
    ),
    (
        b"arrive 0 1 1000000000000\narrive 0 2 1000000000001\narrive 0 2 5\n",
        b"release 0 2 1 2\nok 1\nrefused tick\nrefused tick\n",
    ),
    (
        b"delay 1 1 1000001 0\narrive 7 1 1\narrive 0 5 1\ndelay 1 1 0 0\n",
        b"refused size\nrefused robot\nrefused index\nknown\n",
    ),
    (
        b"arrive 0 1 1\ndelay 0 1 3 1\n",
        b"release 0 2 1 2\nok 1\nrefused arrived\n",
    ),
    (
        b"delay 1 1 1000000 0\ndelay 1 1 1000000 9\n",
        b"order optimal 1000009\ncert branch 0\ncert bound\ncert path 1 1 0\ncert bound\ncert path 0 1 0\nok 1\nknown\n",
    ),
    (
        b"arrive 0 02 1\n\narrive 0 1\n arrive 0 1 1\n",
        b"refused line\nrefused line\nrefused line\nrefused line\n",
    ),
    (b"arrive 0 1 1\r\narrive 0 2 2", b"release 0 2 1 2\nok 1\n"),
    (b"arrive 0 1 1", b""),
    (
        b"arrive 18446744073709551616 1 1\narrive 4294967296 1 1\narrive 0 4294967297 1\n",
        b"refused line\nrefused robot\nrefused index\n",
    ),
    (
        b"arrive 0 1 1\ndelay 0 2 3 1\narrive 0 2 5\ndelay 1 1 2 5\narrive 0 3 6\n",
        b"release 0 2 1 2\nok 1\norder optimal 15\ncert bound\ncert path 1 1 0\nok 2\nrelease 0 3 1 3\nok 3\norder optimal 17\ncert bound\ncert path 1 1 0\nok 4\nrelease 0 4 1 4\nrelease 1 1 1 2\nok 5\n",
    ),
];

#[test]
fn each_line_is_answered(rt: HostRuntime) -> Result<(), Fail> {
    for (reports, answers) in ANSWERS {
        let want = joined(rt.alloc(), &[b"ready 0\nrelease 0 1 1 1\n", answers])?;
        let (code, sent) = run_of(rt.alloc(), CROSSING, reports)?;
        assert_eq!(rt; code, 0);
        assert_eq!(rt; sent, want);
    }
    Ok(())
}

#[test]
fn a_long_line_is_refused(rt: HostRuntime) -> Result<(), Fail> {
    for length in [256, 257, 600] {
        let line = vec![in rt.alloc(); b'a'; length]?;
        let reports = joined(rt.alloc(), &[&line, b"\narrive 0 1 1\n"])?;
        let (code, sent) = run_of(rt.alloc(), CROSSING, &reports)?;
        assert_eq!(rt; code, 0);
        assert_eq!(rt;
            sent.as_slice(),
            b"ready 0\nrelease 0 1 1 1\nrefused line\nrelease 0 2 1 2\nok 1\n".as_slice()
        );
    }
    Ok(())
}

/// The greeting of a first session and its answers to the reports of a script.
fn all_answers(alloc: Global, script: &Script) -> Result<Vec<u8>, Fail> {
    let mut whole = joined(alloc, script.greetings.get(..1).ok_or("a greeting")?)?;
    whole.extend_from_slice(&joined(alloc, script.answers)?)?;
    Ok(whole)
}

#[test]
fn the_whole_plan_runs(rt: HostRuntime) -> Result<(), Fail> {
    for script in [&WHOLE_PLAN, &WITH_DELAYS] {
        let want = all_answers(rt.alloc(), script)?;
        let reports = joined(rt.alloc(), script.reports)?;
        let (code, sent) = run_of(rt.alloc(), CROSSING, &reports)?;
        assert_eq!(rt; code, 0);
        assert_eq!(rt; sent, want);
    }
    Ok(())
}

/// A plan, reports, and status and lines of a first session.
type Run = (Texts<'static>, &'static [u8], u8, &'static [u8]);

const RUNS: [Run; 6] = [
    (
        (
            b"type octile\nheight 1\nwidth 4\nmap\n....\n",
            b"Agent 0: (0,0)->(0,1)\nAgent 1: (0,1)->(0,2)\nAgent 2: (0,2)->(0,3)\n",
        ),
        b"arrive 2 1 1\n",
        0,
        b"ready 0\nrelease 2 1 0 3\nrelease 1 1 0 2\nok 1\n",
    ),
    (
        (
            CROSSING_MAP,
            b"Agent 0: (0,2)->(0,2)->(1,2)\nAgent 1: (1,1)->(1,2)->(1,3)\n",
        ),
        b"delay 1 1 5 0\narrive 1 1 1\narrive 1 2 2\n",
        0,
        b"ready 0\nrelease 1 1 1 2\norder optimal 15\ncert bound\ncert path 0 1 0\nok 1\nrelease 1 2 1 3\nok 2\nrelease 0 1 1 2\nok 3\n",
    ),
    (
        (
            CROSSING_MAP,
            b"Agent 0: (1,1)->(1,2)->(1,3)->(1,2)->(1,1)\nAgent 1: (0,2)->(0,2)->(0,2)->(0,2)->(1,2)->(2,2)\n",
        ),
        b"arrive 0 1 1\narrive 0 2 2\n",
        0,
        b"ready 0\nrelease 0 1 1 2\nrelease 0 2 1 3\nok 1\nrelease 0 3 1 2\nok 2\n",
    ),
    ((CROSSING_MAP, b"Agent 0: (1,2)\n"), b"", 0, b"ready 0\n"),
    (
        (
            b"type octile\nheight 1\nwidth 2\nmap\n..\n",
            b"Agent 0: (0,0)->(0,1)\nAgent 1: (0,1)->(0,0)\n",
        ),
        b"arrive 0 1 1\n",
        3,
        b"fault swap 0 1 1\n",
    ),
    ((CROSSING_MAP, b""), b"", 3, b"fault plan 1 1 empty\n"),
];

#[test]
fn other_plans_are_run(rt: HostRuntime) -> Result<(), Fail> {
    for (texts, reports, code, lines) in RUNS {
        let (end, sent) = run_of(rt.alloc(), texts, reports)?;
        assert_eq!(rt; end, code);
        assert_eq!(rt; sent.as_slice(), lines);
    }
    Ok(())
}
