ghost use Rattle.std.specs.Prelude.{◌↔◌, IsTrue};
ghost use Rattle.fleet_base.specs.Order.{IsCycle};
ghost use Rattle.fleet_base.specs.Rules.{IsFleetState};
ghost use Rattle.cert_check.specs.Sides.{order_by, HasSides};

use crate::edges::{find_edge, leads_on};
use fleet_base::{Fleet, PairId, Side};
use plan_graph::PlanGraph;

/// Whether these pairs are a cycle: from the head of each one's edge its robot goes on to the tail of the next one's.
pub(crate) fn is_cycle(
    graph: &PlanGraph,
    fleet: &Fleet,
    sides: &[Option<Side>],
    cycle: &[PairId],
) -> bool
    requires state { IsFleetState graph.now fleet.now }
    requires sides { HasSides graph.now sides.now }
    ensures { IsTrue result ↔ IsCycle graph.now (order_by graph.now fleet.now sides.now) cycle.now }
{
    if cycle.is_empty() {
        return false;
    }
    let Some(first) = find_edge(graph, fleet, sides, cycle[0]) else {
        return false;
    };
    let mut last = first;
    for place in 1..cycle.len() {
        let Some(next) = find_edge(graph, fleet, sides, cycle[place]) else {
            return false;
        };
        if !leads_on(graph, last.head, next.tail) {
            return false;
        }
        last = next;
    }
    leads_on(graph, last.head, first.tail)
}
