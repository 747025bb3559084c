// Whether a candidate can be the best order: what it costs, if it has no cycle.
ghost use Rattle.std.specs.Prelude.{◌≡◌, ◌<◌, ◌↔◌, length, IsTrue, IfSome, IfNone};
ghost use Rattle.fleet_base.specs.Order.{other_side};
ghost use Rattle.fleet_base.specs.Rules.{IsFleetState};
ghost use Rattle.plan_graph.specs.Views.{order_in};
ghost use Rattle.edge_groups.specs.Mates.{AreAllMates};
ghost use Rattle.longest_path.specs.Ticks.{IsKeptFor};
ghost use Rattle.longest_path.specs.Deciding.{order_in_force};
ghost use Rattle.search_nodes.specs.Weighing.{IsDear, IsLeastSum, IsPartedAt};

use crate::candidate::candidate_side;
use edge_groups::GroupTable;
use fleet_base::{Fleet, PairId, Side};
use longest_path::{Live, Ticks, earliest};
use plan_graph::{Oriented, PlanGraph};

/// A pair that the candidate parts from a mate, if there is one: this pair, or else the least. The candidate has a cycle
/// then, and need not be written to see it.
pub(crate) fn parted_pair(
    graph: &PlanGraph,
    live: &Live<'_>,
    fleet: &Fleet,
    groups: &GroupTable,
    guess: PairId,
) -> Option<PairId>
    requires graph { graph.now ≡ live.now.graph }
    requires state { IsFleetState live.now.graph live.now.state }
    requires fleet { fleet.now ≡ live.now.state }
    requires mates { AreAllMates live.now.graph groups.now }
    ensures { IfSome result (λ q. IsPartedAt live.now.graph live.now.state (order_in_force live.now) q.0) }
{
    if guess.0 < graph.pair_count() && is_parted(graph, live, fleet, groups, guess) {
        return Some(guess);
    }
    for number in 0..graph.pair_count() {
        if is_parted(graph, live, fleet, groups, PairId(number)) {
            return Some(PairId(number));
        }
    }
    None
}

/// Whether a pair without a side has another one in the candidate than a mate of it.
fn is_parted(
    graph: &PlanGraph,
    live: &Live<'_>,
    fleet: &Fleet,
    groups: &GroupTable,
    q: PairId,
) -> bool
    requires graph { graph.now ≡ live.now.graph }
    requires state { IsFleetState live.now.graph live.now.state }
    requires fleet { fleet.now ≡ live.now.state }
    requires mates { AreAllMates live.now.graph groups.now }
    requires there { q.0 < length live.now.graph.pairs }
    ensures { IsTrue result → IsPartedAt live.now.graph live.now.state (order_in_force live.now) q.0 }
{
    if live.side(q).is_some() {
        return false;
    }
    let side = candidate_side(graph, live, fleet, q);
    for mate in groups.mates(q) {
        if is_other(candidate_side(graph, live, fleet, *mate), side) {
            return true;
        }
    }
    false
}

/// Whether a side is the other one.
fn is_other(side: Side, one: Side) -> bool
    ensures { IsTrue result ↔ (side ≡ other_side one) }
{
    side != one
}

/// What a view costs, if it has no cycle and that is below a bound.
pub(crate) fn cost_below(
    view: &Oriented<'_>,
    fleet: &Fleet,
    ticks: &mut Ticks,
    bound: u64,
) -> Option<u64>
    requires state { IsFleetState view.now.graph fleet.now }
    requires room { IsKeptFor view.now.graph ticks.old }
    ensures cost { IfSome result (IsLeastSum view.now.graph fleet.now (order_in view.now)) }
    ensures below { IfSome result (λ cost. cost < bound) }
    ensures dear { IfNone result (IsDear view.now.graph fleet.now (order_in view.now) bound) }
    ensures room { IsKeptFor view.now.graph ticks.new }
{
    if earliest(view, fleet, ticks).is_err() {
        return None;
    }
    let cost = ticks.end_sum();
    if cost < bound { Some(cost) } else { None }
}
