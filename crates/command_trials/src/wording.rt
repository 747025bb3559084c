// Words of a run: each option in each place and form, and words that are no command.
use station_api::{MemSource, MemStation};
use std::alloc::Global;
use std::test::Fail;
use trial_base::{CROSSING, end_of, shelf_of, station_of};

/// How a command over the crossing ends, and what it has sent.
fn answer_of(alloc: Global, words: &[&str]) -> Result<(u8, MemStation), Fail> {
    let mut shelf = shelf_of(alloc, CROSSING, &[])?;
    let mut source = MemSource::new(alloc, Vec::new(alloc), Vec::new(alloc));
    let mut station = station_of(alloc, &[])?;
    let code = end_of(alloc, words, &mut shelf, &mut source, &mut station)?;
    Ok((code, station))
}

#[test]
fn options_stand_anywhere_in_each_form(rt: HostRuntime) -> Result<(), Fail> {
    let rows: [&[&str]; 15] = [
        &["run", "M", "P", "J"],
        &["run", "M", "P", "J", "--quiet"],
        &["run", "--quiet", "M", "P", "J"],
        &["run", "M", "--quiet", "P", "J"],
        &["run", "M", "P", "--quiet", "J"],
        &["run", "M", "P", "J", "--budget", "0"],
        &["run", "M", "P", "J", "--budget=0"],
        &["run", "--budget", "4096", "M", "P", "J"],
        &["run", "--budget=4096", "M", "P", "J"],
        &["run", "M", "--budget", "1", "P", "J"],
        &["run", "M", "P", "--budget=128", "J"],
        &["run", "--quiet", "--budget", "7", "M", "P", "J"],
        &["run", "--budget=7", "--quiet", "M", "P", "J"],
        &["run", "M", "--quiet", "P", "--budget", "7", "J"],
        &["run", "--budget", "7", "M", "P", "J", "--quiet"],
    ];
    for words in rows {
        let (status, station) = answer_of(rt.alloc(), words)?;
        assert_eq!(rt; status, 0);
        assert_eq!(rt; station.sent(), b"ready 0\nrelease 0 1 1 1\n".as_slice());
    }
    Ok(())
}

#[test]
fn options_that_are_none_are_refused(rt: HostRuntime) -> Result<(), Fail> {
    let rows: [&[&str]; 30] = [
        &["run", "M", "P", "J", "--budget"],
        &["run", "M", "P", "J", "--budget="],
        &["run", "M", "P", "J", "--budget", ""],
        &["run", "M", "P", "--budget", "J"],
        &["run", "M", "P", "J", "--budget", "--quiet"],
        &["run", "M", "P", "J", "--budget", "--budget", "1"],
        &["run", "M", "P", "J", "--budget", "--quiet", "1"],
        &["run", "M", "P", "J", "--budget", "-1"],
        &["run", "M", "P", "J", "--budget=-1"],
        &["run", "M", "P", "J", "--budget", "+1"],
        &["run", "M", "P", "J", "--budget", "01"],
        &["run", "M", "P", "J", "--budget=00"],
        &["run", "M", "P", "J", "--budget", "4097"],
        &["run", "M", "P", "J", "--budget=4097"],
        &["run", "M", "P", "J", "--budget=18446744073709551616"],
        &["run", "M", "P", "J", "--budget=1 "],
        &["run", "M", "P", "J", "--budget==1"],
        &["run", "M", "P", "J", "--budget", "1", "--budget", "1"],
        &["run", "M", "P", "J", "--budget=1", "--budget=2"],
        &["run", "M", "P", "J", "--budget=1", "--budget", "2"],
        &["run", "M", "P", "J", "--quiet", "--quiet"],
        &["run", "M", "P", "J", "--quiet=true"],
        &["run", "M", "P", "J", "--quiet="],
        &["run", "M", "P", "J", "--quie"],
        &["run", "M", "P", "J", "-q"],
        &["run", "M", "P", "J", "-"],
        &["run", "--", "M", "P", "J"],
        &["run", "M", "P", "J", "--help"],
        &["run", "M", "P", "J", "-h"],
        &["run", "M", "P", "J", "--ahead", "1"],
    ];
    for words in rows {
        let (status, station) = answer_of(rt.alloc(), words)?;
        assert_eq!(rt; status, 2);
        assert_eq!(rt; station.sent(), b"fault usage\n".as_slice());
    }
    Ok(())
}

#[test]
fn words_of_another_command_are_refused(rt: HostRuntime) -> Result<(), Fail> {
    let rows: [&[&str]; 10] = [
        &["check", "M", "P", "--quiet"],
        &["check", "M", "P", "--budget", "1"],
        &["check", "--budget=1", "M", "P"],
        &["check", "M", "P", "--help"],
        &["--quiet", "run", "M", "P", "J"],
        &["--budget=1", "run", "M", "P", "J"],
        &["help"],
        &["help", "run"],
        &["Run", "M", "P", "J"],
        &[""],
    ];
    for words in rows {
        let (status, station) = answer_of(rt.alloc(), words)?;
        assert_eq!(rt; status, 2);
        assert_eq!(rt; station.sent(), b"fault usage\n".as_slice());
    }
    Ok(())
}
