// Delays in a first session: the order that is chosen, what shows it, and what it releases.
use std::alloc::Global;
use std::test::Fail;
use trial_base::{CORRIDOR, CROSSING, CROSSING_MAP, Texts, session_with, side_a, station_of};

/// What a first session sends that is set so and hears these reports, and side A of its journal.
fn run_of(
    alloc: Global,
    texts: Texts<'_>,
    options: &[&str],
    reports: &[u8],
) -> Result<(Vec<u8>, Vec<u8>), Fail> {
    let mut station = station_of(alloc, &[])?;
    match session_with(alloc, texts, options, reports, &mut station)? {
        0 => Ok((station.sent().to_vec(alloc)?, side_a(alloc, &station)?)),
        _ => Err(Fail::from("a session that ends well")),
    }
}

/// Robot 0 goes to the cell that robot 1 crosses, and stays there.
const GOALS: Texts<'static> = (
    CROSSING_MAP,
    b"Agent 0: (0,2)->(0,2)->(1,2)\nAgent 1: (1,1)->(1,2)->(1,3)\n",
);

/// A plan, words behind the names, reports, and all that is sent.
type Row = (
    Texts<'static>,
    &'static [&'static str],
    &'static [u8],
    &'static [u8],
);

const ROWS: [Row; 13] = [
    // Robot 1 need not wait for a robot that is late.
    (
        CROSSING,
        &[],
        b"delay 0 1 5 0\n",
        b"ready 0\nrelease 0 1 1 1\norder optimal 11\nswitch 0\ncert bound\nrelease 1 1 1 2\nok 1\n",
    ),
    (
        CROSSING,
        &["--budget", "0"],
        b"delay 0 1 5 0\n",
        b"ready 0\nrelease 0 1 1 1\norder optimal 11\nswitch 0\ncert bound\nrelease 1 1 1 2\nok 1\n",
    ),
    (
        CROSSING,
        &["--quiet"],
        b"delay 0 1 5 0\n",
        b"ready 0\nrelease 0 1 1 1\norder optimal 11\nswitch 0\nrelease 1 1 1 2\nok 1\n",
    ),
    // Then the pair is closed, and keeps its side.
    (
        CROSSING,
        &[],
        b"delay 0 1 5 0\ndelay 1 1 50 0\n",
        b"ready 0\nrelease 0 1 1 1\norder optimal 11\nswitch 0\ncert bound\nrelease 1 1 1 2\nok 1\norder optimal 107\ncert bound\ncert path 0 1 0\nok 2\n",
    ),
    (
        CROSSING,
        &["--quiet", "--budget=0"],
        b"delay 0 1 5 0\ndelay 1 1 50 0\n",
        b"ready 0\nrelease 0 1 1 1\norder optimal 11\nswitch 0\nrelease 1 1 1 2\nok 1\norder optimal 107\nok 2\n",
    ),
    // Both robots would come at one tick: one pair is to be decided.
    (
        CROSSING,
        &[],
        b"delay 1 1 1 0\n",
        b"ready 0\nrelease 0 1 1 1\norder optimal 9\nswitch 0\ncert branch 0\ncert bound\ncert path 1 1 0\ncert bound\ncert path 0 1 0\nrelease 1 1 1 2\nok 1\n",
    ),
    (
        CROSSING,
        &["--budget", "1"],
        b"delay 1 1 1 0\n",
        b"ready 0\nrelease 0 1 1 1\norder optimal 9\nswitch 0\ncert branch 0\ncert bound\ncert path 1 1 0\ncert bound\ncert path 0 1 0\nrelease 1 1 1 2\nok 1\n",
    ),
    (
        CROSSING,
        &["--budget", "0"],
        b"delay 1 1 1 0\n",
        b"ready 0\nrelease 0 1 1 1\norder spent 10 7\ncert open 7\nok 1\n",
    ),
    (
        CROSSING,
        &["--budget=0", "--quiet"],
        b"delay 1 1 1 0\n",
        b"ready 0\nrelease 0 1 1 1\norder spent 10 7\nok 1\n",
    ),
    // At equal costs the order stays.
    (
        CROSSING,
        &["--budget", "0"],
        b"delay 1 1 1 0\ndelay 1 1 0 0\ndelay 0 1 9 0\n",
        b"ready 0\nrelease 0 1 1 1\norder spent 10 7\ncert open 7\nok 1\norder spent 9 6\ncert open 6\nok 2\norder optimal 15\nswitch 0\ncert bound\nrelease 1 1 1 2\nok 3\n",
    ),
    // In the corridor robot 0 goes first in one pair, and so in all of them.
    (
        CORRIDOR,
        &[],
        b"delay 0 1 5 0\n",
        b"ready 0\nrelease 0 1 1 0\norder optimal 31\ncert force 1 lower 2 0 1\ncert force 2 lower 2 1 2\ncert force 3 lower 2 2 3\ncert force 4 lower 2 3 4\ncert force 5 lower 2 4 5\ncert bound\ncert path 1 1 5\nok 1\n",
    ),
    (
        CORRIDOR,
        &["--quiet"],
        b"delay 0 1 5 0\n",
        b"ready 0\nrelease 0 1 1 0\norder optimal 31\nok 1\n",
    ),
    // A pair with a last visit is never open.
    (
        GOALS,
        &[],
        b"delay 1 1 5 0\n",
        b"ready 0\nrelease 1 1 1 2\norder optimal 15\ncert bound\ncert path 0 1 0\nok 1\n",
    ),
];

#[test]
fn each_delay_has_its_order(rt: HostRuntime) -> Result<(), Fail> {
    for (texts, options, reports, sent) in ROWS {
        let run = run_of(rt.alloc(), texts, options, reports)?;
        assert_eq!(rt; run.0.as_slice(), sent);
        // The same lines have the same bytes.
        assert_eq!(rt; run_of(rt.alloc(), texts, options, reports)?, run);
    }
    Ok(())
}
