ghost use Rattle.std.specs.Prelude.{◌≡◌, ◌↔◌, IfOk};
ghost use Rattle.fleet_base.specs.Order.{IsCyclic};
ghost use Rattle.plan_graph.specs.Views.{order_in, empty_ranking, IsRankingFor};
ghost use Rattle.plan_graph.specs.Ranks.{IsRanked};

use crate::work::Work;
use crate::{Oriented, PlanGraph};
use fleet_base::{Memory, PairId, Visit};
use std::alloc::Global;
use std::marker::Model;

/// What a ranking found: an order of all visits, or a cycle.
#[derive(Clone, Copy, Debug, PartialEq, Eq)]
pub enum Ranked {
    Order,
    Cycle,
}

/// Room for ranking the visits of a graph: an order of them, or the pairs of a cycle.
#[derive(Debug, Drop)]
pub struct RankRoom {
    work: Work,
}

impl Model for RankRoom {
    ghost use Rattle.std.specs.Prelude.{vec_len};
    ghost use Rattle.std.specs.Vec.{vec_capacity};
    ghost use Rattle.plan_graph.specs.Views.{Ranking};

    ghost Value = { Ranking };

    ghost use Rattle.plan_graph.specs.Rooms.{IsRoom};

    ghost view = { λ r. record { order = r.work.order.items; cycle = r.work.cycle.items; robots = vec_len r.work.listed; visits = vec_capacity r.work.order } };

    ghost invariant = { λ r. IsRoom r.work };
}

impl RankRoom {
    /// Room for ranking this graph.
    pub fn new(alloc: Global, graph: &PlanGraph) -> Result<RankRoom, Memory>
        ensures { IfOk result (λ room. room ≡ empty_ranking graph.now) }
    {
        Ok(RankRoom {
            work: Work::new(alloc, graph)?,
        })
    }

    /// The order that the last ranking found, if it found one.
    pub fn order(&self) -> &[Visit]
        ensures { result.now ≡ self.now.order }
    {
        &self.work.order
    }

    /// The pairs of the cycle that the last ranking found, if it found one.
    pub fn cycle(&self) -> &[PairId]
        ensures { result.now ≡ self.now.cycle }
    {
        &self.work.cycle
    }
}

/// Lists all visits with every edge of the view forward, or else the pairs of a cycle, in the room. It takes no memory.
pub fn rank(view: &Oriented<'_>, room: &mut RankRoom) -> Ranked
    requires { IsRankingFor view.now.graph room.old }
    ensures ranked { IsRanked view.now room.new result }
    ensures cyclic { (result ≡ Ranked.Cycle) ↔ IsCyclic view.now.graph (order_in view.now) }
    ensures room { IsRankingFor view.now.graph room.new }
{
    room.work.run(view)
}
