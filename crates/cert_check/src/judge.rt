ghost use Rattle.std.specs.Prelude.{◌≡◌, ◌<◌, ◌≤◌, ◌^◌, ◌↔◌, true, None, ℕ, List, IsTrue, All, length, map, reverse, slice_get, Some};
ghost use Rattle.std.specs.List.Sorted.{IsStrictlyIncreasing};
ghost use Rattle.fleet_base.specs.Order.{IsVisit};
ghost use Rattle.fleet_base.specs.Open.{is_open};
ghost use Rattle.fleet_base.specs.Rules.{IsFleetState};
ghost use Rattle.fleet_base.specs.Schedule.{ObeysEdge};
ghost use Rattle.fleet_base.specs.VisitRows.{tick_in, AreRowsFor, KeepsRows};
ghost use Rattle.cert_tree.specs.declared.node.Node.TheVariants.{Branch, Force, Cyclic, Bound, OpenLeaf};
ghost use Rattle.cert_tree.specs.CertText.{IsWritten};
ghost use Rattle.cert_check.specs.declared.judge.Kind.TheVariants as kind;
ghost use Rattle.cert_tree.specs.Decisions.{Decision};
ghost use Rattle.cert_check.specs.Sides.{decided, HasSides};
ghost use Rattle.cert_tree.specs.Trees.{IsNeeded, IsLeftOpen};
ghost use Rattle.cert_check.specs.Judging.{IsJudged, Judges, MeetsAs, FailsAs, Gives};
ghost use Rattle.cert_check.specs.Sums.{AreSums};
ghost use Rattle.cert_check.specs.Ways.{HasWay, way_of};
ghost use Rattle.cert_check.specs.Work.{IsWorkFor, KeepsWork};
ghost use Rattle.cert_check.specs.Rounds.{IsBelow};

use crate::NoWhy;
use crate::cycle::is_cycle;
use crate::edges::is_free;
use crate::groups::judge_group;
use crate::path::total_length;
use crate::rounds::{Ticks, end_sum, relax, tick_of};
use crate::sums::Sums;
use crate::workspace::Workspace;
use cert_tree::{CertPath, Node};
use fleet_base::{Edge, Fleet, PairId, Side};
use plan_graph::PlanGraph;

/// What a tree is judged as.
#[derive(Clone, Copy)]
pub(crate) enum Kind {
    Optimal,
    Spent { least: u64 },
}

/// The first word that fits a node, given the way to it.
pub(crate) fn judge(
    graph: &PlanGraph,
    fleet: &Fleet,
    kind: Kind,
    cost: u64,
    node: &Node,
    work: &mut Workspace,
) -> Option<NoWhy>
    requires state { IsFleetState graph.now fleet.now }
    requires work { IsWorkFor graph.now work.old }
    requires way { HasWay work.old.way (reverse work.old.way.steps.items) }
    requires sums { AreSums graph.now fleet.now work.old.sums }
    requires written { IsWritten node.now }
    ensures word { Judges (MeetsAs graph.now fleet.now cost kind (way_of (reverse work.old.way.steps.items)) node.now) (FailsAs graph.now fleet.now cost kind (way_of (reverse work.old.way.steps.items)) node.now) result }
    ensures sides { work.new.way.sides.items ≡ work.old.way.sides.items }
    ensures steps { work.new.way.steps ≡ work.old.way.steps }
    ensures sums { work.new.sums ≡ work.old.sums }
    ensures work { KeepsWork work.old work.new }
{
    let sides = &mut work.way.sides;
    let word = judge_alone(
        graph,
        fleet,
        kind,
        cost,
        node,
        &work.sums,
        sides,
        &mut work.ticks,
    );
    match kind {
        Kind::Spent { .. } if word.is_none() => judge_group(graph, fleet, node, work),
        _ => word,
    }
}

/// The first word that fits a node, groups apart, given the sides that are decided on the way to it.
fn judge_alone(
    graph: &PlanGraph,
    fleet: &Fleet,
    kind: Kind,
    cost: u64,
    node: &Node,
    sums: &Sums,
    sides: &mut [Option<Side>],
    ticks: &mut Ticks,
) -> Option<NoWhy>
    requires state { IsFleetState graph.now fleet.now }
    requires sides { HasSides graph.now sides.old }
    requires ticks { AreRowsFor graph.now ticks.old }
    requires sums { AreSums graph.now fleet.now sums.now }
    requires written { IsWritten node.now }
    ensures word { IsJudged graph.now fleet.now cost kind sides.old node.now result }
    ensures sides { sides.new ≡ sides.old }
    ensures rows { KeepsRows ticks.old ticks.new }
{
    match node {
        Node::Branch { pair } => judge_branch(graph, fleet, kind, cost, *pair, sides, ticks),
        Node::Force { pair, side, cycle } => judge_force(
            graph,
            fleet,
            *pair,
            *side,
            cycle.as_slice(),
            sides,
        ),
        Node::Cyclic { cycle } => judge_cyclic(graph, fleet, cycle.as_slice(), sides),
        Node::Bound { paths } => judge_bound(graph, fleet, sums, cost, paths.as_slice(), sides),
        Node::OpenLeaf { least } => judge_leaf(graph, fleet, kind, cost, *least, sides, ticks),
    }
}

fn judge_branch(
    graph: &PlanGraph,
    fleet: &Fleet,
    kind: Kind,
    cost: u64,
    pair: PairId,
    sides: &[Option<Side>],
    ticks: &mut Ticks,
) -> Option<NoWhy>
    requires state { IsFleetState graph.now fleet.now }
    requires sides { HasSides graph.now sides.now }
    requires ticks { AreRowsFor graph.now ticks.old }
    ensures word { IsJudged graph.now fleet.now cost kind sides.now (Branch pair) result }
    ensures rows { KeepsRows ticks.old ticks.new }
{
    if !is_free(graph, fleet, sides, pair) {
        return Some(NoWhy::Pair);
    }
    match kind {
        Kind::Spent { least } if !is_needed(graph, fleet, cost, least, pair, sides, ticks) => Some(
            NoWhy::Needed,
        ),
        _ => None,
    }
}

fn judge_force(
    graph: &PlanGraph,
    fleet: &Fleet,
    pair: PairId,
    side: Side,
    cycle: &[PairId],
    sides: &mut [Option<Side>],
) -> Option<NoWhy>
    requires state { IsFleetState graph.now fleet.now }
    requires sides { HasSides graph.now sides.old }
    ensures optimal { (cost : ℕ) → IsJudged graph.now fleet.now cost kind.Optimal sides.old (Force pair side cycle.now) result }
    ensures spent { (cost least : ℕ) → IsJudged graph.now fleet.now cost (kind.Spent least) sides.old (Force pair side cycle.now) result }
    ensures sides { sides.new ≡ sides.old }
{
    if !is_free(graph, fleet, sides, pair) {
        return Some(NoWhy::Pair);
    }
    let place = pair.0 as usize;
    sides[place] = Some(side.other());
    let refuted = is_cycle(graph, fleet, sides, cycle);
    sides[place] = None;
    if refuted { None } else { Some(NoWhy::Cycle) }
}

fn judge_cyclic(
    graph: &PlanGraph,
    fleet: &Fleet,
    cycle: &[PairId],
    sides: &[Option<Side>],
) -> Option<NoWhy>
    requires state { IsFleetState graph.now fleet.now }
    requires sides { HasSides graph.now sides.now }
    ensures optimal { (cost : ℕ) → IsJudged graph.now fleet.now cost kind.Optimal sides.now (Cyclic cycle.now) result }
    ensures spent { (cost least : ℕ) → IsJudged graph.now fleet.now cost (kind.Spent least) sides.now (Cyclic cycle.now) result }
{
    if is_cycle(graph, fleet, sides, cycle) {
        None
    } else {
        Some(NoWhy::Cycle)
    }
}

fn judge_bound(
    graph: &PlanGraph,
    fleet: &Fleet,
    sums: &Sums,
    cost: u64,
    paths: &[CertPath],
    sides: &[Option<Side>],
) -> Option<NoWhy>
    requires state { IsFleetState graph.now fleet.now }
    requires sides { HasSides graph.now sides.now }
    requires sums { AreSums graph.now fleet.now sums.now }
    requires ascending { IsStrictlyIncreasing (map (λ p. p.robot) paths.now) }
    ensures optimal { IsJudged graph.now fleet.now cost kind.Optimal sides.now (Bound paths.now) result }
    ensures spent { (least : ℕ) → IsJudged graph.now fleet.now cost (kind.Spent least) sides.now (Bound paths.now) result }
{
    let Some(total) = total_length(graph, fleet, sums, sides, paths) else {
        return Some(NoWhy::Path);
    };
    let cost = u128::from(cost);
    if total < cost { Some(NoWhy::Sum) } else { None }
}

fn judge_leaf(
    graph: &PlanGraph,
    fleet: &Fleet,
    kind: Kind,
    cost: u64,
    least: u64,
    sides: &[Option<Side>],
    ticks: &mut Ticks,
) -> Option<NoWhy>
    requires state { IsFleetState graph.now fleet.now }
    requires sides { HasSides graph.now sides.now }
    requires ticks { AreRowsFor graph.now ticks.old }
    ensures word { IsJudged graph.now fleet.now cost kind sides.now (OpenLeaf least) result }
    ensures rows { KeepsRows ticks.old ticks.new }
{
    match kind {
        Kind::Spent { .. } if is_left_open(graph, fleet, cost, least, sides, ticks) => None,
        _ => Some(NoWhy::Leaf),
    }
}

/// Whether a search had to branch here.
fn is_needed(
    graph: &PlanGraph,
    fleet: &Fleet,
    cost: u64,
    least: u64,
    q: PairId,
    sides: &[Option<Side>],
    ticks: &mut Ticks,
) -> bool
    requires state { IsFleetState graph.now fleet.now }
    requires sides { HasSides graph.now sides.now }
    requires ticks { AreRowsFor graph.now ticks.old }
    requires open { is_open graph.now fleet.now q.0 ≡ true }
    requires pair { q.0 < length graph.now.pairs }
    ensures needed { (way : List Decision) → Gives way sides.now → IsTrue result ↔ IsNeeded graph.now fleet.now cost least way q.0 }
    ensures rows { KeepsRows ticks.old ticks.new }
{
    if !relax(graph, fleet, sides, ticks) {
        return false;
    }
    let relaxed = end_sum(graph, ticks);
    let cost = u128::from(cost);
    let least = u128::from(least);
    if cost <= relaxed || least < relaxed {
        return false;
    }
    let _within = graph.robots();
    let pair = graph.pair(q);
    if obeys(graph, fleet, ticks, pair.edge(Side::Lower)) {
        return false;
    }
    !obeys(graph, fleet, ticks, pair.edge(Side::Higher))
}

/// Whether a leaf may be left open with this number.
fn is_left_open(
    graph: &PlanGraph,
    fleet: &Fleet,
    cost: u64,
    least: u64,
    sides: &[Option<Side>],
    ticks: &mut Ticks,
) -> bool
    requires state { IsFleetState graph.now fleet.now }
    requires sides { HasSides graph.now sides.now }
    requires ticks { AreRowsFor graph.now ticks.old }
    ensures left { (way : List Decision) → Gives way sides.now → IsTrue result ↔ IsLeftOpen graph.now fleet.now cost way least }
    ensures rows { KeepsRows ticks.old ticks.new }
{
    if cost <= least {
        return false;
    }
    if !relax(graph, fleet, sides, ticks) {
        return false;
    }
    let least = u128::from(least);
    if end_sum(graph, ticks) != least {
        return false;
    }
    has_free(graph, fleet, sides)
}

/// Whether some pair is open and undecided.
fn has_free(graph: &PlanGraph, fleet: &Fleet, sides: &[Option<Side>]) -> bool
    requires state { IsFleetState graph.now fleet.now }
    requires sides { HasSides graph.now sides.now }
    ensures { IsTrue result ↔ ((q : ℕ) × (is_open graph.now fleet.now q ≡ true) × (decided sides.now q ≡ None)) }
{
    for number in 0..graph.pair_count() {
        if is_free(graph, fleet, sides, PairId(number)) {
            return true;
        }
    }
    false
}

/// Whether ticks obey an edge.
fn obeys(graph: &PlanGraph, fleet: &Fleet, ticks: &Ticks, edge: Edge) -> bool
    requires state { IsFleetState graph.now fleet.now }
    requires ticks { AreRowsFor graph.now ticks.now }
    requires bound { IsBelow (2 ^ 62) (tick_in ticks.now) }
    requires tail { IsVisit graph.now edge.tail }
    requires head { IsVisit graph.now edge.head }
    ensures { IsTrue result ↔ ObeysEdge fleet.now (tick_in ticks.now) edge.tail edge.head }
{
    let Edge { tail, head } = edge;
    fleet.arrival_tick(head).is_some()
        || tick_of(graph, ticks, tail) + fleet.duration(head) <= tick_of(graph, ticks, head)
}
