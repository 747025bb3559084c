// The candidate of a part decision: an order for every pair, made from its least schedule.
ghost use Rattle.std.specs.Prelude.{◌≡◌, ◌<◌, ◌↔◌, ◌∷◌, ℕ, length, slice_get, true, Some, None, IsTrue, IfOk};
ghost use Rattle.fleet_base.specs.declared.geometry.Visit.{Visit};
ghost use Rattle.fleet_base.specs.declared.order.Pair.{Pair};
ghost use Rattle.fleet_base.specs.Order.{IsCycle, IsCyclic, first_visit, second_visit};
ghost use Rattle.fleet_base.specs.Open.{is_open};
ghost use Rattle.fleet_base.specs.Rules.{IsFleetState};
ghost use Rattle.fleet_base.specs.Schedule.{IsLeastSchedule, ObeysSide};
ghost use Rattle.plan_graph.specs.Views.{order_in};
ghost use Rattle.longest_path.specs.Ticks.{IsKeptFor};
ghost use Rattle.longest_path.specs.Deciding.{order_in_force};
ghost use Rattle.longest_path.specs.Decisions.{order_on};
ghost use Rattle.search_nodes.specs.Forcing.{given_to};
ghost use Rattle.search_nodes.specs.Weighing.{IsCandidateSide, IsCandidateOrder, IsViewOf};

use fleet_base::{Fleet, Memory, Pair, PairId, PairList, Side, Visit};
use longest_path::{Live, Ticks, earliest};
use plan_graph::{Oriented, PlanGraph};
use std::alloc::Global;

/// The visit of a pair's robot that is first, and that of the one that waits.
fn visits_of(pair: Pair, side: Side) -> (Visit, Visit)
    ensures first { result.0 ≡ first_visit pair side }
    ensures second { result.1 ≡ second_visit pair side }
{
    match side {
        Side::Lower => (pair.lower, pair.higher),
        Side::Higher => (pair.higher, pair.lower),
    }
}

/// Whether the least schedule obeys the edge of an open pair at a side.
pub(crate) fn obeys(
    graph: &PlanGraph,
    live: &Live<'_>,
    fleet: &Fleet,
    q: PairId,
    side: Side,
) -> bool
    requires graph { graph.now ≡ live.now.graph }
    requires state { IsFleetState live.now.graph live.now.state }
    requires fleet { fleet.now ≡ live.now.state }
    requires open { is_open live.now.graph live.now.state q.0 ≡ true }
    ensures { (pair : Pair) (s : Visit → ℕ) → slice_get live.now.graph.pairs q.0 ≡ Some pair → IsLeastSchedule live.now.graph live.now.state (order_in_force live.now) s → (IsTrue result ↔ ObeysSide live.now.state s pair side) }
{
    let _within = graph.robots();
    let (first, head) = visits_of(graph.pair(q), side);
    let tail = Visit {
        robot: first.robot,
        index: first.index + 1,
    };
    let begins = live.at(tail);
    let ends = live.at(head);
    begins + 1 + fleet.delay(head) <= ends
}

/// The side that the least schedule suggests for an open pair: the state's if the schedule obeys its edge, else the other
/// one if it obeys that one's, else the state's.
fn suggested_side(graph: &PlanGraph, live: &Live<'_>, fleet: &Fleet, q: PairId) -> Side
    requires graph { graph.now ≡ live.now.graph }
    requires state { IsFleetState live.now.graph live.now.state }
    requires fleet { fleet.now ≡ live.now.state }
    requires there { q.0 < length live.now.graph.pairs }
    requires none { order_in_force live.now q.0 ≡ None }
    ensures { IsCandidateSide live.now.graph live.now.state (order_in_force live.now) q.0 result }
{
    let old = fleet.side(q);
    if obeys(graph, live, fleet, q, old) {
        return old;
    }
    if obeys(graph, live, fleet, q, old.other()) {
        return old.other();
    }
    old
}

/// The side of a pair in the candidate.
pub(crate) fn candidate_side(graph: &PlanGraph, live: &Live<'_>, fleet: &Fleet, q: PairId) -> Side
    requires graph { graph.now ≡ live.now.graph }
    requires state { IsFleetState live.now.graph live.now.state }
    requires fleet { fleet.now ≡ live.now.state }
    requires there { q.0 < length live.now.graph.pairs }
    ensures { IsCandidateSide live.now.graph live.now.state (order_in_force live.now) q.0 result }
{
    match live.side(q) {
        Some(side) => side,
        None => suggested_side(graph, live, fleet, q),
    }
}

/// Gives each pair its side in the candidate.
pub(crate) fn write_candidate(view: &mut Oriented<'_>, live: &Live<'_>, fleet: &Fleet)
    requires state { IsFleetState live.now.graph live.now.state }
    requires fleet { fleet.now ≡ live.now.state }
    requires view { IsViewOf live.now.graph view.old }
    ensures view { IsViewOf live.now.graph view.new }
    ensures candidate { IsCandidateOrder live.now.graph live.now.state (order_in_force live.now) (order_in view.new) }
{
    let graph = view.graph();
    for number in 0..graph.pair_count() {
        let q = PairId(number);
        let side = candidate_side(graph, live, fleet, q);
        view.set(q, Some(side));
    }
}

/// Gives each pair its side in the order in force, and takes that of the others away.
fn write_in_force(view: &mut Oriented<'_>, live: &Live<'_>)
    requires state { IsFleetState live.now.graph live.now.state }
    requires view { IsViewOf live.now.graph view.old }
    ensures view { IsViewOf live.now.graph view.new }
    ensures order { (q : ℕ) → order_in view.new q ≡ order_in_force live.now q }
{
    for number in 0..view.graph().pair_count() {
        view.set(PairId(number), live.side(PairId(number)));
    }
}

/// A cycle of the decisions in force with one more, which they have no room for.
pub(crate) fn cycle_with(
    alloc: Global,
    view: &mut Oriented<'_>,
    live: &Live<'_>,
    fleet: &Fleet,
    ticks: &mut Ticks,
    q: PairId,
    side: Side,
) -> Result<PairList, Memory>
    requires state { IsFleetState live.now.graph live.now.state }
    requires fleet { fleet.now ≡ live.now.state }
    requires view { IsViewOf live.now.graph view.old }
    requires room { IsKeptFor live.now.graph ticks.old }
    requires none { order_in_force live.now q.0 ≡ None }
    requires there { q.0 < length live.now.graph.pairs }
    requires cyclic { IsCyclic live.now.graph (order_on live.now.graph live.now.state (given_to q side ∷ live.now.decisions)) }
    ensures cycle { IfOk result (λ cycle. IsCycle live.now.graph (order_on live.now.graph live.now.state (given_to q side ∷ live.now.decisions)) cycle) }
    ensures view { IsViewOf live.now.graph view.new }
    ensures room { IsKeptFor live.now.graph ticks.new }
{
    write_in_force(view, live);
    view.set(q, Some(side));
    let _always_cyclic = earliest(view, fleet, ticks);
    PairList::from_slice(alloc, ticks.cycle())
}
