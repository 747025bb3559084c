ghost use Rattle.std.specs.Prelude.{◌≡◌, ◌<◌, ◌↔◌, length, slice_get, Some, IsTrue, IfOk};
ghost use Rattle.fleet_base.specs.Pairs.{pairs_of, numbers_of};
ghost use Rattle.fleet_base.specs.Order.{IsGraph, IsVisit, graph_of, last_in};
ghost use Rattle.fleet_base.specs.VisitRows.{zero_rows};
ghost use Rattle.plan_graph.specs.Limits.{IsPlanGraph, visit_count, IsGraphWithinLimits};

use fleet_base::{Items, Memory, Pair, PairId, PairTable, SoundPlan, Visit};
use std::alloc::Global;
use std::marker::Model;

/// The graph of a plan: how many visits each robot has, and the pairs. It keeps its own copy of both.
#[derive(Debug, Drop)]
pub struct PlanGraph {
    lasts: Vec<u32>,
    pairs: PairTable,
}

impl Model for PlanGraph {
    ghost use Rattle.fleet_base.specs.Order.{Graph};

    ghost Value = { Graph };

    ghost use Rattle.plan_graph.specs.Limits.{IsPlanGraph};

    ghost view = { λ g. record { lasts = g.lasts.items; pairs = g.pairs } };

    ghost invariant = { λ g. IsPlanGraph (record { lasts = g.lasts.items; pairs = g.pairs }) };
}

impl PlanGraph {
    /// The graph of a plan with its pairs.
    pub fn new(alloc: Global, plan: &SoundPlan, pairs: &PairTable) -> Result<PlanGraph, Memory>
        requires { pairs.now ≡ pairs_of plan.now }
        ensures { IfOk result (λ graph. graph ≡ graph_of plan.now) }
    {
        let _sound = plan.robots();
        let _few = pairs.len();
        let lasts = lasts_of(alloc, plan)?;
        Ok(PlanGraph {
            lasts,
            pairs: pairs.copy(alloc)?,
        })
    }

    /// The number of robots. Whoever asks for it learns that this is the graph of an accepted plan, within the limits.
    pub fn robots(&self) -> u32
        ensures count { result ≡ length self.now.lasts }
        ensures plan { IsPlanGraph self.now }
        ensures graph { IsGraph self.now }
        ensures limits { IsGraphWithinLimits self.now }
    {
        self.lasts.len() as u32
    }

    /// The number of a robot's last visit.
    pub fn last(&self, robot: u32) -> u32
        requires { robot < length self.now.lasts }
        ensures { result ≡ last_in self.now robot }
    {
        self.lasts[robot as usize]
    }

    /// Whether a visit is there.
    pub fn has(&self, v: Visit) -> bool
        ensures { IsTrue result ↔ IsVisit self.now v }
    {
        v.robot < self.robots() && v.index <= self.last(v.robot)
    }

    /// The number of visits.
    pub fn visit_count(&self) -> u32
        ensures { result ≡ visit_count self.now }
    {
        let _within = self.robots();
        let mut count = 0;
        for last in &self.lasts {
            count += last + 1;
        }
        count
    }

    /// A 0 for each visit.
    pub fn zeros(&self, alloc: Global) -> Result<Items<Items<u64>>, Memory>
        ensures { IfOk result (λ rows. rows ≡ zero_rows self.now.lasts) }
    {
        Items::zeros(alloc, &self.lasts)
    }

    /// The number of pairs.
    pub fn pair_count(&self) -> u32
        ensures { result ≡ length self.now.pairs }
    {
        self.pairs.len()
    }

    /// A pair, by its number.
    pub fn pair(&self, q: PairId) -> Pair
        requires { q.0 < length self.now.pairs }
        ensures { slice_get self.now.pairs q.0 ≡ Some result }
    {
        self.pairs.pair(q)
    }

    /// The numbers of the pairs of a visit, ascending; none for a visit that is in no pair.
    pub fn pairs_of(&self, v: Visit) -> &[PairId]
        ensures { result.now ≡ numbers_of self.now.pairs v }
    {
        self.pairs.of(v)
    }
}

/// The number of each robot's last visit.
fn lasts_of(alloc: Global, plan: &SoundPlan) -> Result<Vec<u32>, Memory>
    ensures { IfOk result (λ lasts. lasts.items ≡ (graph_of plan.now).lasts) }
{
    let mut lasts = Vec::new(alloc);
    for robot in 0..plan.robots() {
        lasts.push(plan.last(robot))?;
    }
    Ok(lasts)
}
