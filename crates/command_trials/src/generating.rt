// The command `gen`: what it sends is a map and a plan that `check` accepts.
use station_api::{MemSource, MemStation};
use std::alloc::Global;
use std::test::Fail;
use trial_base::{CROSSING, Texts, end_of, shelf_of, station_of};

/// How a command ends over these files, and what it has sent.
fn answer_of(
    alloc: Global,
    words: &[&str],
    texts: Texts<'_>,
    failing: &[u64],
) -> Result<(u8, MemStation), Fail> {
    let mut shelf = shelf_of(alloc, texts, &[])?;
    let mut source = MemSource::new(alloc, Vec::new(alloc), Vec::new(alloc));
    let mut station = station_of(alloc, failing)?;
    let code = end_of(alloc, words, &mut shelf, &mut source, &mut station)?;
    Ok((code, station))
}

/// Each seed, and how many robots, visits and pairs a plain slow program of the rules counts in its plan.
const FLEETS: [(&str, &[u8]); 3] = [
    ("0", b"sound 32 1440 660\n"),
    ("1", b"sound 32 1378 549\n"),
    ("18446744073709551615", b"sound 32 1330 497\n"),
];

#[test]
fn what_is_generated_is_checked(rt: HostRuntime) -> Result<(), Fail> {
    for (seed, line) in FLEETS {
        let (code, map) = answer_of(rt.alloc(), &["gen", seed], CROSSING, &[])?;
        assert_eq!(rt; code, 0);
        let (code, plan) = answer_of(rt.alloc(), &["gen", "--plan", seed], CROSSING, &[])?;
        assert_eq!(rt; code, 0);
        // One text is sent, and the journal's disk is not called.
        assert_eq!(rt; (map.calls(), plan.calls()), (1, 1));
        let texts = (map.sent(), plan.sent());
        let (code, checked) = answer_of(rt.alloc(), &["check", "M", "P"], texts, &[])?;
        assert_eq!(rt; code, 0);
        assert_eq!(rt; checked.sent(), line);
    }
    Ok(())
}

#[test]
fn a_map_and_its_plan_are_told_apart(rt: HostRuntime) -> Result<(), Fail> {
    let rows: [(&[&str], &[u8]); 4] = [
        (
            &["gen", "1"],
            b"type octile\nheight 32\nwidth 32\nmap\n................................\n",
        ),
        (&["gen", "1", "--plan"], b"Agent 0: (0,0)->(0,1)->"),
        (&["gen", "--plan", "1"], b"Agent 0: (0,0)->(0,1)->"),
        (&["gen", "0"], b"type octile\nheight 32\nwidth 32\nmap\n"),
    ];
    for (words, front) in rows {
        let (code, station) = answer_of(rt.alloc(), words, CROSSING, &[])?;
        assert_eq!(rt; code, 0);
        let begins = station.sent().starts_with(front);
        assert!(rt; begins);
    }
    Ok(())
}

#[test]
fn other_words_generate_nothing(rt: HostRuntime) -> Result<(), Fail> {
    let rows: [&[&str]; 14] = [
        &["gen"],
        &["gen", "18446744073709551616"],
        &["gen", "03"],
        &["gen", "+3"],
        &["gen", "-3"],
        &["gen", ""],
        &["gen", "3x"],
        &["gen", "1", "2"],
        &["gen", "--plan"],
        &["gen", "1", "--plan", "--plan"],
        &["gen", "1", "--plan=true"],
        &["gen", "1", "--quiet"],
        &["gen", "1", "--seed", "2"],
        &["gen", "--", "1"],
    ];
    for words in rows {
        let (code, station) = answer_of(rt.alloc(), words, CROSSING, &[])?;
        assert_eq!(rt; code, 2);
        assert_eq!(rt; station.sent(), b"fault usage\n".as_slice());
    }
    Ok(())
}

#[test]
fn a_text_that_is_not_taken_ends_with_its_status(rt: HostRuntime) -> Result<(), Fail> {
    let (code, station) = answer_of(rt.alloc(), &["gen", "1"], CROSSING, &[1])?;
    assert_eq!(rt; code, 6);
    assert_eq!(rt; station.sent(), b"".as_slice());
    Ok(())
}
