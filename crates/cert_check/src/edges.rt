ghost use Rattle.std.specs.Prelude.{◌≡◌, ◌<◌, ◌+◌, ◌^◌, ◌↔◌, None, length, true, IsTrue, IfSome};
ghost use Rattle.fleet_base.specs.Order.{IsVisit};
ghost use Rattle.fleet_base.specs.Open.{is_open};
ghost use Rattle.fleet_base.specs.Rules.{IsFleetState};
ghost use Rattle.fleet_base.specs.Paths.{edge_in, leads_on};
ghost use Rattle.cert_check.specs.Sides.{decided, order_by, HasSides};

use fleet_base::{Edge, Fleet, PairId, Side, Visit};
use plan_graph::{PlanGraph, is_open};

/// Whether a pair is there, open and undecided.
pub(crate) fn is_free(graph: &PlanGraph, fleet: &Fleet, sides: &[Option<Side>], q: PairId) -> bool
    requires state { IsFleetState graph.now fleet.now }
    requires sides { HasSides graph.now sides.now }
    ensures { IsTrue result ↔ (is_open graph.now fleet.now q.0 ≡ true) × (decided sides.now q.0 ≡ None) }
{
    q.0 < graph.pair_count() && sides[q.0 as usize].is_none() && is_open(graph, fleet, q)
}

/// The side of a pair, if it is closed or decided.
fn side(graph: &PlanGraph, fleet: &Fleet, sides: &[Option<Side>], q: PairId) -> Option<Side>
    requires state { IsFleetState graph.now fleet.now }
    requires sides { HasSides graph.now sides.now }
    requires pair { q.0 < length graph.now.pairs }
    ensures { result ≡ order_by graph.now fleet.now sides.now q.0 }
{
    if is_open(graph, fleet, q) {
        sides[q.0 as usize]
    } else {
        Some(fleet.side(q))
    }
}

/// The edge of a pair, if the pair is there and has a side.
pub(crate) fn find_edge(
    graph: &PlanGraph,
    fleet: &Fleet,
    sides: &[Option<Side>],
    q: PairId,
) -> Option<Edge>
    requires state { IsFleetState graph.now fleet.now }
    requires sides { HasSides graph.now sides.now }
    ensures value { result ≡ edge_in graph.now (order_by graph.now fleet.now sides.now) q.0 }
    ensures tail { IfSome result (λ e. IsVisit graph.now e.tail) }
    ensures head { IfSome result (λ e. IsVisit graph.now e.head) }
{
    if q.0 >= graph.pair_count() {
        return None;
    }
    let _within = graph.robots();
    match side(graph, fleet, sides, q) {
        Some(side) => Some(graph.pair(q).edge(side)),
        None => None,
    }
}

/// Whether a walk that is at a visit can go along its robot to the other visit.
pub(crate) fn leads_on(graph: &PlanGraph, at: Visit, to: Visit) -> bool
    requires { to.robot < length graph.now.lasts }
    ensures { result ≡ leads_on graph.now at to }
{
    at.robot == to.robot && at.index <= to.index && to.index <= graph.last(to.robot)
}
