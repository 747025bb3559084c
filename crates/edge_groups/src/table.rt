ghost use Rattle.std.specs.Prelude.{ℕ, ◌≡◌, ◌<◌, [], ◌∷◌, length, Option, Some, IfOk};
ghost use Rattle.fleet_base.specs.declared.order.Side.{Side};
ghost use Rattle.fleet_base.specs.Lists.{row_of};
ghost use Rattle.fleet_base.specs.Groups.{AreMates, IsGroupOf, GoesOn};
ghost use Rattle.fleet_base.specs.Order.{Graph, IsCycle, other_side};
ghost use Rattle.edge_groups.specs.Mates.{AreAllMates};

use crate::listing::list_mates;
use crate::lists::MateLists;
use crate::naming::name_groups;
use crate::packing::pack;
use fleet_base::{Memory, PairId};
use plan_graph::PlanGraph;
use std::alloc::Global;
use std::marker::Model;

/// Which pairs are mates: two pairs of the same two robots whose visits are one apart for both robots. Pairs that chains of
/// mates join are a group. A table is seen as the mates of each pair.
#[derive(Debug, Drop)]
pub struct GroupTable {
    names: Vec<u32>,
    lists: MateLists,
}

impl Model for GroupTable {
    ghost use Rattle.std.specs.Prelude.{List};
    ghost use Rattle.fleet_base.specs.declared.order.PairId.{PairId};

    ghost Value = { List (List PairId) };

    ghost use Rattle.edge_groups.specs.Kept.{rows_in, IsGroupTable};

    ghost view = { λ t. rows_in t.lists };

    ghost invariant = { IsGroupTable };
}

/// The mates and the groups of a graph's pairs.
pub fn groups(alloc: Global, graph: &PlanGraph) -> Result<GroupTable, Memory>
    ensures { IfOk result (AreAllMates graph.now) }
{
    let found = list_mates(alloc, graph)?;
    let names = name_groups(alloc, &found)?;
    let lists = pack(alloc, graph, &found)?;
    Ok(GroupTable { names, lists })
}

impl GroupTable {
    /// The least pair of a pair's group, which names it.
    pub fn group_of(&self, q: PairId) -> PairId
        requires { q.0 < length self.now }
        ensures { (g : Graph) → AreAllMates g self.now → IsGroupOf g q.0 result.0 }
    {
        PairId(self.names[q.0 as usize])
    }

    /// The mates of a pair, ascending.
    pub fn mates(&self, q: PairId) -> &[PairId]
        requires { q.0 < length self.now }
        ensures { result.now ≡ row_of self.now q.0 }
    {
        self.lists.row(q.0)
    }
}

/// Two mates, as a list of pairs. It is a cycle of each order that gives them different sides, where neither side puts a robot
/// first at its last visit.
pub fn mate_cycle(graph: &PlanGraph, a: PairId, b: PairId) -> [PairId; 2]
    requires { AreMates graph.now a.0 b.0 }
    ensures list { result ≡ a ∷ b ∷ [] }
    ensures cycle { (order : ℕ → Option Side) (side : Side) → order a.0 ≡ Some side → order b.0 ≡ Some (other_side side) → GoesOn graph.now order a.0 → GoesOn graph.now order b.0 → IsCycle graph.now order result }
{
    [a, b]
}
