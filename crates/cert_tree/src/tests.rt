ghost use Rattle.std.specs.Prelude.{◌<◌, ◌^◌, length};

use crate::{Cert, CertError, Node, read_cert, write_cert};
use fleet_base::{PairId, Side, Text};
use std::alloc::Global;
use std::test::Fail;

/// The text of what a text is read as.
fn reprinted(alloc: Global, text: &[u8]) -> Result<Text, CertError>
    requires { length text.now < 2 ^ 32 }
{
    let cert = read_cert(alloc, text)?;
    let mut out = Text::new(alloc);
    match write_cert(&cert, &mut out) {
        Ok(()) => Ok(out),
        Err(_) => Err(CertError::Memory),
    }
}

#[test]
fn trees_are_read_and_printed(rt: HostRuntime) -> Result<(), Fail> {
    let table = [
        b"".as_slice(),
        b"cert bound\n",
        b"cert bound\ncert path 1 1 0\n",
        b"cert open 7\n",
        b"cert branch 0\ncert bound\ncert path 1 1 0\ncert bound\ncert path 0 1 0\n",
        b"cert force 1 lower 2 0 1\ncert force 2 higher 3 1 2 4294967295\ncert cyclic 2 4 5\n",
        b"cert bound\ncert path 0 2 10 0\ncert path 4294967295 1 5\ncert branch 4294967295\n",
        b"cert open 18446744073709551615\ncert open 0\ncert bound\n",
    ];
    for text in table {
        assert!(rt; text.len() < 200);
        assert_eq!(rt; reprinted(rt.alloc(), text)?.as_slice(), text);
    }
    Ok(())
}

#[test]
fn a_return_before_a_line_end_is_dropped(rt: HostRuntime) -> Result<(), Fail> {
    let out = reprinted(
        rt.alloc(),
        b"cert bound\r\ncert path 1 1 0\ncert open 7\r\n",
    )?;
    assert_eq!(rt;
        out.as_slice(),
        b"cert bound\ncert path 1 1 0\ncert open 7\n".as_slice()
    );
    Ok(())
}

/// Whether these are a Force of pair 12 to `Lower` with the cycle of the pairs 0 and 12, and a Bound with robot 3's path
/// over pair 12.
fn is_forced_bound(cert: &Cert) -> bool {
    let [Node::Force { pair, side, cycle }, Node::Bound { paths }] = cert.as_slice() else {
        return false;
    };
    let [path] = paths.as_slice() else {
        return false;
    };
    *pair == PairId(12)
        && *side == Side::Lower
        && cycle.as_slice() == [PairId(0), PairId(12)].as_slice()
        && path.robot == 3
        && path.pairs.as_slice() == [PairId(12)].as_slice()
}

#[test]
fn nodes_have_what_their_lines_say(rt: HostRuntime) -> Result<(), Fail> {
    let text = b"cert force 12 lower 2 0 12\ncert bound\ncert path 3 1 12\n";
    assert!(rt; is_forced_bound(&read_cert(rt.alloc(), text)?));
    Ok(())
}

/// The line that a text's fault names, and 0 where it has none.
fn fault_line(alloc: Global, text: &[u8]) -> u32
    requires { length text.now < 2 ^ 32 }
{
    match read_cert(alloc, text) {
        Err(CertError::Fault { line }) => line,
        _ => 0,
    }
}

#[test]
fn other_texts_fail_at_their_first_bad_line(rt: HostRuntime) {
    let table = [
        (b"cert path 0 1 0\n".as_slice(), 1),
        (b"cert branch 0", 1),
        (b"cert branch 0\ncert bound\ncert path 1 1 0", 3),
        (b"\n", 1),
        (b"cert bound\n\ncert bound\n", 2),
        (b"cert open 7\ncert path 0 1 0\n", 2),
        (b"cert cyclic 1 0\n", 1),
        (b"cert force 1 lower 1 0\n", 1),
        (b"cert bound\ncert path 1 0\n", 2),
        (b"cert bound\ncert path 1 1 0\ncert path 0 1 0\n", 3),
        (b"cert bound\ncert path 1 1 0\ncert path 1 1 0\n", 3),
        (b"cert branch 4294967296\n", 1),
        (b"cert cyclic 2 0 4294967296\n", 1),
        (b"cert bound\ncert path 4294967296 1 0\n", 2),
        (b"cert open 18446744073709551616\n", 1),
        (b"cert cyclic 0 1\n", 1),
        (b"cert cyclic 3 0 1\n", 1),
        (b"cert cyclic 2 0 1 2\n", 1),
        (b"cert cyclic 02 0 1\n", 1),
        (b"cert cyclic 4294967298 0 1\n", 1),
        (b"cert branch 0 \n", 1),
        (b"cert bound \n", 1),
        (b"cert cyclic 2 0 1 \n", 1),
        (b"cert branch  0\n", 1),
        (b" cert branch 0\n", 1),
        (b"Cert branch 0\n", 1),
        (b"cert force 1 Lower 2 0 1\n", 1),
        (b"cert force 1 lowers 2 0 1\n", 1),
        (b"cert force 1 2 0 1\n", 1),
        (b"cert branch 0\r\r\n", 1),
        (b"cert branch\n", 1),
        (b"cert bounds\n", 1),
        (b"cert branch 0 1\n", 1),
        (b"cert leaf 0\n", 1),
    ];
    for (text, line) in table {
        assert!(rt; text.len() < 200);
        assert_eq!(rt; fault_line(rt.alloc(), text), line);
    }
}
