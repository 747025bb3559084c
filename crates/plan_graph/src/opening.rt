// Which pairs may still change their side.
ghost use Rattle.std.specs.Prelude.{◌≡◌, ◌<◌, length};
ghost use Rattle.fleet_base.specs.Order.{IsVisit};
ghost use Rattle.fleet_base.specs.Open.{is_open, is_settled};
ghost use Rattle.fleet_base.specs.State.{IsFleetOf};

use crate::PlanGraph;
use fleet_base::{Fleet, PairId, Visit};

/// Whether a pair may still change its side: neither of its visits is released, and neither is its robot's last.
pub fn is_open(graph: &PlanGraph, fleet: &Fleet, q: PairId) -> bool
    requires fleet { IsFleetOf graph.now fleet.now }
    requires there { q.0 < length graph.now.pairs }
    ensures { result ≡ is_open graph.now fleet.now q.0 }
{
    let pair = graph.pair(q);
    !is_settled(graph, fleet, pair.lower) && !is_settled(graph, fleet, pair.higher)
}

/// Whether a visit is released, or its robot's last.
fn is_settled(graph: &PlanGraph, fleet: &Fleet, visit: Visit) -> bool
    requires fleet { IsFleetOf graph.now fleet.now }
    requires there { IsVisit graph.now visit }
    ensures { result ≡ is_settled graph.now fleet.now visit }
{
    fleet.release_tick(visit).is_some() || visit.index == graph.last(visit.robot)
}
