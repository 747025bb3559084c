// A certificate that is read and checked, again and again.
ghost use Rattle.std.specs.Prelude.{◌≡◌, ◌<◌, ◌^◌, All, length, IfSome};
ghost use Rattle.fleet_base.specs.Rules.{IsFleetState};
ghost use Rattle.cert_tree.specs.CertText.{IsWritten};
ghost use Rattle.cert_check.specs.Rooms.{IsRoomFor};

use crate::state::first;
use crate::tree::{Kind, Tree};
use cert_check::{Scratch, Verdict, check_optimal, check_spent};
use cert_tree::{Cert, read_cert};
use fleet_base::Fleet;
use plan_graph::PlanGraph;
use std::alloc::Global;

/// Whether each of so many checks says Yes, after the text is read so many times; none where there is no such plan or
/// certificate, or memory is wanting.
pub fn judged(alloc: Global, tree: &Tree, text: &[u8], reads: u64, checks: u64) -> Option<bool> {
    let (graph, fleet) = first(alloc, tree.crossings)?;
    let Ok(mut scratch) = Scratch::new(alloc, &graph) else {
        return None;
    };
    let cert = read_often(alloc, text, reads)?;
    Some(check_often(&graph, &fleet, tree, &cert, &mut scratch, checks))
}

fn read_often(alloc: Global, text: &[u8], times: u64) -> Option<Cert>
    ensures written { IfSome result (All IsWritten) }
    ensures few { IfSome result (λ nodes. length nodes < 2 ^ 32) }
{
    for _ in 1..times {
        let _read = cert_of(alloc, text)?;
    }
    cert_of(alloc, text)
}

fn cert_of(alloc: Global, text: &[u8]) -> Option<Cert>
    ensures written { IfSome result (All IsWritten) }
    ensures few { IfSome result (λ nodes. length nodes < 2 ^ 32) }
{
    if text.len() >= 1 << 32 {
        return None;
    }
    match read_cert(alloc, text) {
        Ok(cert) if cert.as_slice().len() < 1 << 32 => Some(cert),
        _ => None,
    }
}

fn check_often(
    graph: &PlanGraph,
    fleet: &Fleet,
    tree: &Tree,
    cert: &Cert,
    scratch: &mut Scratch,
    times: u64,
) -> bool
    requires state { IsFleetState graph.now fleet.now }
    requires nodes { All IsWritten cert.now }
    requires few { length cert.now < 2 ^ 32 }
    requires room { IsRoomFor graph.now scratch.old }
{
    for _ in 0..times {
        if check_once(graph, fleet, tree, cert, scratch) != Verdict::Yes {
            return false;
        }
    }
    true
}

fn check_once(
    graph: &PlanGraph,
    fleet: &Fleet,
    tree: &Tree,
    cert: &Cert,
    scratch: &mut Scratch,
) -> Verdict
    requires state { IsFleetState graph.now fleet.now }
    requires nodes { All IsWritten cert.now }
    requires few { length cert.now < 2 ^ 32 }
    requires room { IsRoomFor graph.now scratch.old }
    ensures room { scratch.new ≡ scratch.old }
{
    let left = tree.relaxed();
    match tree.kind {
        Kind::Bare => check_optimal(graph, fleet, tree.shortest(), cert, scratch),
        Kind::Listed => check_optimal(graph, fleet, left, cert, scratch),
        Kind::Spent => {
            let budget = tree.leaves() - 1;
            check_spent(graph, fleet, left + 1, left, budget, cert, scratch)
        }
    }
}
