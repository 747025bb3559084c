ghost use Rattle.std.specs.Prelude.{◌≡◌, ◌<◌, ◌↔◌, length, slice_set, IsTrue, IfOk, IfSome, IfNone};
ghost use Rattle.fleet_base.specs.declared.geometry.Visit.{Visit};
ghost use Rattle.fleet_base.specs.Pairs.{numbers_of};
ghost use Rattle.fleet_base.specs.Order.{HasEdge, Before, next_visit};
ghost use Rattle.plan_graph.specs.Views.{order_in, undecided};

use crate::PlanGraph;
use fleet_base::{Memory, PairId, Side, Visit};
use std::alloc::Global;
use std::marker::Model;

/// A graph, borrowed, with a side or none for each pair.
#[derive(Debug, Drop)]
pub struct Oriented<'g> {
    graph: &'g PlanGraph,
    sides: Vec<Option<Side>>,
}

impl<'g> Model for Oriented<'g> {
    ghost use Rattle.std.specs.Prelude.{◌≡◌, length};
    ghost use Rattle.plan_graph.specs.Views.{OrientedGraph};

    ghost Value = { OrientedGraph };

    ghost view = { λ o. record { graph = o.graph.now; sides = o.sides.items } };

    ghost invariant = { λ o. length o.sides.items ≡ length o.graph.now.pairs };
}

impl PlanGraph {
    /// A view that gives no pair a side.
    pub fn orient<'g>(&'g self, alloc: Global) -> Result<Oriented<'g>, Memory>
        ensures { IfOk result (λ view. view ≡ record { graph = self.now; sides = undecided self.now }) }
    {
        let sides = Vec::from_elem(alloc, None, self.pair_count() as usize)?;
        Ok(Oriented { graph: self, sides })
    }
}

impl<'g> Oriented<'g> {
    /// The graph, for as long as it lives.
    pub fn graph(&self) -> &'g PlanGraph
        ensures { result.now ≡ self.now.graph }
    {
        self.graph
    }

    /// Gives a pair a side, or takes it away.
    pub fn set(&mut self, q: PairId, side: Option<Side>)
        requires { q.0 < length self.old.graph.pairs }
        ensures { self.new ≡ record self.old { sides = slice_set self.old.sides q.0 side } }
    {
        self.sides[q.0 as usize] = side;
    }

    /// The side of a pair.
    pub fn side(&self, q: PairId) -> Option<Side>
        requires { q.0 < length self.now.graph.pairs }
        ensures { result ≡ order_in self.now q.0 }
    {
        self.sides[q.0 as usize]
    }

    /// Whether a visit is directly before another one: along its robot, or by the side of a pair.
    pub fn before(&self, u: Visit, v: Visit) -> bool
        ensures { IsTrue result ↔ Before self.now.graph (order_in self.now) u v }
    {
        if is_next(u, v) {
            return true;
        }
        for q in self.into_of(v) {
            if self.has_edge(*q, u, v) {
                return true;
            }
        }
        false
    }

    /// The pairs that may put a visit before this one: all pairs in which it stands, lent by the graph.
    pub fn into_of(&self, v: Visit) -> &'g [PairId]
        ensures { result.now ≡ numbers_of self.now.graph.pairs v }
    {
        self.graph.pairs_of(v)
    }

    /// Whether the edge of a pair leads from one visit to another.
    fn has_edge(&self, q: PairId, u: Visit, v: Visit) -> bool
        requires { q.0 < length self.now.graph.pairs }
        ensures { IsTrue result ↔ HasEdge self.now.graph (order_in self.now) q.0 u v }
    {
        match self.tail_into(q, v) {
            Some(tail) => tail == u,
            None => false,
        }
    }

    /// Where the edge of a pair into a visit begins, if the pair has such an edge.
    pub(crate) fn tail_into(&self, q: PairId, v: Visit) -> Option<Visit>
        requires { q.0 < length self.now.graph.pairs }
        ensures edge { IfSome result (λ u. HasEdge self.now.graph (order_in self.now) q.0 u v) }
        ensures none { IfNone result ((u : Visit) → HasEdge self.now.graph (order_in self.now) q.0 u v → ⊥) }
    {
        let side = self.side(q)?;
        let pair = self.graph.pair(q);
        let _within = self.graph.robots();
        let edge = pair.edge(side);
        (edge.head == v).then_some(edge.tail)
    }
}

/// Whether a visit is the next one of the same robot.
fn is_next(u: Visit, v: Visit) -> bool
    ensures { IsTrue result ↔ (v ≡ next_visit u) }
{
    v.robot == u.robot && v.index > u.index && v.index - u.index == 1
}
