ghost use Rattle.std.specs.Prelude.{◌≡◌, ◌<◌, ◌≤◌, ◌^◌, ℕ, All, MatchOption, IfSome, IfNone, length};
ghost use Rattle.fleet_base.specs.declared.geometry.Visit.{Visit};
ghost use Rattle.fleet_base.specs.Rules.{IsFleetState};
ghost use Rattle.fleet_base.specs.Schedule.{IsLawful, end_sum_of};
ghost use Rattle.cert_tree.specs.CertText.{IsWritten};
ghost use Rattle.cert_check.specs.declared.verdict.Verdict.TheVariants.{Yes};
ghost use Rattle.cert_check.specs.declared.judge.Kind.TheVariants as kind;
ghost use Rattle.cert_check.specs.Verdicts.{OptimalVerdict, SpentVerdict, IsSpentWholeFault};
ghost use Rattle.cert_check.specs.Judging.{Judges, IsWhole, IsFirstAs, IsWholeRight, lower_of};
ghost use Rattle.cert_check.specs.Rooms.{IsRoomFor};
ghost use Rattle.cert_check.specs.Work.{IsWorkFor, KeepsWork};

use crate::judge::{Kind, judge};
use crate::sums::sum_up;
use crate::workspace::Workspace;
use crate::{NoWhy, Scratch, Verdict};
use cert_tree::{Cert, Node};
use fleet_base::Fleet;
use plan_graph::PlanGraph;

/// Whether a certificate is an optimal tree for a cost. It takes no memory.
pub fn check_optimal(
    graph: &PlanGraph,
    fleet: &Fleet,
    cost: u64,
    cert: &Cert,
    scratch: &mut Scratch,
) -> Verdict
    requires state { IsFleetState graph.now fleet.now }
    requires nodes { All IsWritten cert.now }
    requires few { length cert.now < 2 ^ 32 }
    requires room { IsRoomFor graph.now scratch.old }
    ensures verdict { OptimalVerdict graph.now fleet.now cost cert.now result }
    ensures bound { result ≡ Yes → (s : Visit → ℕ) → IsLawful graph.now fleet.now s → cost ≤ end_sum_of graph.now s }
    ensures room { scratch.new ≡ scratch.old }
{
    let nodes = cert.as_slice();
    match first_fault(graph, fleet, Kind::Optimal, cost, nodes, scratch) {
        Some((node, why)) => Verdict::No { node, why },
        None => Verdict::Yes,
    }
}

/// Whether a certificate is a spent tree for a cost, a least cost that is left, and a budget. It takes no memory.
pub fn check_spent(
    graph: &PlanGraph,
    fleet: &Fleet,
    cost: u64,
    least: u64,
    budget: u64,
    cert: &Cert,
    scratch: &mut Scratch,
) -> Verdict
    requires state { IsFleetState graph.now fleet.now }
    requires nodes { All IsWritten cert.now }
    requires few { length cert.now < 2 ^ 32 }
    requires room { IsRoomFor graph.now scratch.old }
    ensures verdict { SpentVerdict graph.now fleet.now cost least budget cert.now result }
    ensures bound { result ≡ Yes → (s : Visit → ℕ) → IsLawful graph.now fleet.now s → least ≤ end_sum_of graph.now s }
    ensures room { scratch.new ≡ scratch.old }
{
    let nodes = cert.as_slice();
    let kind = Kind::Spent { least };
    if let Some((node, why)) = first_fault(graph, fleet, kind, cost, nodes, scratch) {
        return Verdict::No { node, why };
    }
    match whole_fault(nodes, least, budget) {
        Some(why) => Verdict::No {
            node: nodes.len() as u32,
            why,
        },
        None => Verdict::Yes,
    }
}

/// The first node that fails, and the first word that fits there.
fn first_fault(
    graph: &PlanGraph,
    fleet: &Fleet,
    kind: Kind,
    cost: u64,
    nodes: &[Node],
    scratch: &mut Scratch,
) -> Option<(u32, NoWhy)>
    requires state { IsFleetState graph.now fleet.now }
    requires nodes { All IsWritten nodes.now }
    requires few { length nodes.now < 2 ^ 32 }
    requires room { IsRoomFor graph.now scratch.old }
    ensures none { IfNone result (IsWhole graph.now fleet.now cost kind nodes.now) }
    ensures some { IfSome result (IsFirstAs graph.now fleet.now cost kind nodes.now) }
    ensures room { scratch.new ≡ scratch.old }
{
    go_through(graph, fleet, kind, cost, nodes, &mut scratch.work)
}

fn go_through(
    graph: &PlanGraph,
    fleet: &Fleet,
    kind: Kind,
    cost: u64,
    nodes: &[Node],
    work: &mut Workspace,
) -> Option<(u32, NoWhy)>
    requires state { IsFleetState graph.now fleet.now }
    requires nodes { All IsWritten nodes.now }
    requires few { length nodes.now < 2 ^ 32 }
    requires work { IsWorkFor graph.now work.old }
    ensures none { IfNone result (IsWhole graph.now fleet.now cost kind nodes.now) }
    ensures some { IfSome result (IsFirstAs graph.now fleet.now cost kind nodes.now) }
    ensures work { KeepsWork work.old work.new }
{
    work.way.clear();
    sum_up(graph, fleet, &mut work.sums);
    let mut goes_on = true;
    for (number, node) in nodes.iter().enumerate() {
        if !goes_on {
            return Some((number as u32, NoWhy::Shape));
        }
        if let Some(why) = judge(graph, fleet, kind, cost, node, work) {
            return Some((number as u32, why));
        }
        goes_on = work.way.follow(node);
    }
    if goes_on {
        Some((nodes.len() as u32, NoWhy::Shape))
    } else {
        None
    }
}

/// The first word that fits a whole spent tree.
fn whole_fault(nodes: &[Node], least: u64, budget: u64) -> Option<NoWhy>
    requires { length nodes.now < 2 ^ 32 }
    ensures { Judges (IsWholeRight least budget nodes.now) (IsSpentWholeFault least budget nodes.now) result }
{
    let mut branches = 0_u64;
    let mut lowest = None;
    for node in nodes {
        match node {
            Node::Branch { .. } => branches += 1,
            Node::OpenLeaf { least } => lowest = Some(lower_of(lowest, *least)),
            _ => {}
        }
    }
    match lowest {
        Some(lowest) if branches == budget => (lowest != least).then_some(NoWhy::Least),
        _ => Some(NoWhy::Count),
    }
}

/// The smaller one of a number and the least so far.
fn lower_of(lowest: Option<u64>, least: u64) -> u64
    ensures { result ≡ lower_of lowest least }
{
    match lowest {
        Some(lowest) => lowest.min(least),
        None => least,
    }
}
