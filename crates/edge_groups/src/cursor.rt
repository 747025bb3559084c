// Pairs found by their ranks, in one way through the table.
ghost use Rattle.std.specs.Prelude.{ℕ, ◌≡◌, ◌+◌, ◌^◌, ◌<◌, ◌≤◌, length};
ghost use Rattle.edge_groups.specs.Ranks.{rank_in, rank_of, IsBehind, IsReached};
ghost use Rattle.fleet_base.specs.Limits.{robot_limit, visit_limit};

use fleet_base::{Pair, PairId, limits};
use plan_graph::PlanGraph;

/// The numbers of robots are below this.
const ROBOTS: u64 = limits::ROBOTS as u64;

/// The numbers of a robot's visits, also when raised by one, are below this.
const ROW: u64 = 2 * limits::VISITS as u64;

/// A way through the pairs, ascending, for one pair after another. It looks for the pair whose rank, raised by `raise`, is
/// `lead` more than the rank of each.
#[derive(Clone, Copy, Debug)]
pub(crate) struct Cursor {
    pub at: u32,
    pub raise: u64,
    pub lead: u64,
}

impl Cursor {
    /// A way that begins at the first pair.
    pub(crate) fn new(raise: u64, lead: u64) -> Cursor
        ensures { result ≡ record { at = 0; raise = raise; lead = lead } }
    {
        Cursor { at: 0, raise, lead }
    }

    /// The pair that is so far from a rank.
    pub(crate) fn find(&mut self, graph: &PlanGraph, rank: u64) -> Option<PairId>
        requires small { rank < 2 ^ 50 }
        requires raise { self.old.raise < 2 ^ 20 }
        requires lead { self.old.lead < 2 ^ 20 }
        requires behind { IsBehind graph.now self.old.at self.old.raise (rank + self.old.lead) }
        ensures raise { self.new.raise ≡ self.old.raise }
        ensures lead { self.new.lead ≡ self.old.lead }
        ensures behind { IsBehind graph.now self.new.at self.old.raise (rank + self.old.lead) }
        ensures found { IsReached graph.now self.old.raise (rank + self.old.lead) result }
    {
        let _plan = graph.robots();
        let wanted = rank + self.lead;
        let at = first_reaching(graph, self.at, self.raise, wanted);
        self.at = at;
        if at < graph.pair_count() && rank_at(graph, PairId(at)) + self.raise == wanted {
            Some(PairId(at))
        } else {
            None
        }
    }
}

/// The first pair from a place on whose rank, raised, reaches the wanted one.
fn first_reaching(graph: &PlanGraph, from: u32, raise: u64, wanted: u64) -> u32
    requires raise { raise < 2 ^ 20 }
    requires behind { IsBehind graph.now from raise wanted }
    ensures behind { IsBehind graph.now result raise wanted }
    ensures reached { result < length graph.now.pairs → wanted ≤ rank_in graph.now result + raise }
{
    let count = graph.pair_count();
    let mut at = from;
    while at < count && rank_at(graph, PairId(at)) + raise < wanted {
        at += 1;
    }
    at
}

/// The place of a pair in the order in which pairs stand, as a number.
pub(crate) fn rank_at(graph: &PlanGraph, q: PairId) -> u64
    requires { q.0 < length graph.now.pairs }
    ensures rank { result ≡ rank_in graph.now q.0 }
    ensures small { result < 2 ^ 50 }
{
    let _within = graph.robots();
    rank(graph.pair(q))
}

/// The place of a pair, by its robots and then by its visits.
fn rank(pair: Pair) -> u64
    requires lower { pair.lower.robot < robot_limit }
    requires higher { pair.higher.robot < robot_limit }
    requires early { pair.lower.index < visit_limit }
    requires late { pair.higher.index < visit_limit }
    ensures rank { result ≡ rank_of pair }
    ensures small { result < 2 ^ 50 }
{
    let robots = u64::from(pair.lower.robot) * ROBOTS + u64::from(pair.higher.robot);
    let lower = robots * ROW + u64::from(pair.lower.index);
    lower * ROW + u64::from(pair.higher.index)
}
