ghost use Rattle.std.specs.Prelude.{◌≡◌, ◌<◌, ℕ, length, slice_get, Some, Contains, IfSome, IfNone};
ghost use Rattle.fleet_base.specs.declared.geometry.Visit.{Visit};
ghost use Rattle.fleet_base.specs.declared.order.Pair.{Pair};
ghost use Rattle.fleet_base.specs.declared.order.PairId.{PairId};
ghost use Rattle.fleet_base.specs.Order.{IsVisit, HasEdge, next_visit, first_visit, second_visit};
ghost use Rattle.plan_graph.specs.Views.{order_in};

use fleet_base::{Edge, PairId, Side, Visit};
use plan_graph::{Oriented, PlanGraph};

/// The edge that a pair has at a side.
pub(crate) fn edge_of(graph: &PlanGraph, q: PairId, side: Side) -> Edge
    requires { q.0 < length graph.now.pairs }
    ensures tail { (pair : Pair) → slice_get graph.now.pairs q.0 ≡ Some pair → result.tail ≡ next_visit (first_visit pair side) }
    ensures head { (pair : Pair) → slice_get graph.now.pairs q.0 ≡ Some pair → result.head ≡ second_visit pair side }
{
    let _within = graph.robots();
    graph.pair(q).edge(side)
}

/// The pairs that may have an edge from a visit: those of the visit in front of it.
pub(crate) fn pairs_out_of<'g>(view: &Oriented<'g>, v: Visit) -> &'g [PairId]
    ensures all { (q : ℕ) (w : Visit) → HasEdge view.now.graph (order_in view.now) q v w → Contains result.now (record { 0 = q }) }
    ensures there { (k : ℕ) (q : PairId) → slice_get result.now k ≡ Some q → q.0 < length view.now.graph.pairs }
{
    if v.index == 0 {
        return &[];
    }
    view.into_of(Visit {
        robot: v.robot,
        index: v.index - 1,
    })
}

/// Where the edge of a pair from a visit leads, if the pair has such an edge.
pub(crate) fn head_out_of(view: &Oriented<'_>, q: PairId, v: Visit) -> Option<Visit>
    requires { q.0 < length view.now.graph.pairs }
    ensures edge { IfSome result (λ w. HasEdge view.now.graph (order_in view.now) q.0 v w × IsVisit view.now.graph w) }
    ensures none { IfNone result ((w : Visit) → HasEdge view.now.graph (order_in view.now) q.0 v w → ⊥) }
{
    let side = view.side(q)?;
    let _within = view.graph().robots();
    let edge = edge_of(view.graph(), q, side);
    if edge.tail != v {
        return None;
    }
    Some(edge.head)
}
