// The mates of each pair, found in one way through the table.
ghost use Rattle.std.specs.Prelude.{◌≡◌, ◌<◌, List, [], ◌∷◌, ◌++◌, length, IfOk, OnOk};
ghost use Rattle.fleet_base.specs.declared.order.PairId.{PairId};
ghost use Rattle.fleet_base.specs.Order.{Graph};
ghost use Rattle.edge_groups.specs.Kept.{rows_in, AreKept};
ghost use Rattle.edge_groups.specs.Finding.{IsReady};
ghost use Rattle.edge_groups.specs.Mates.{AreMatesOf, AreAllMates};

use crate::cursor::{Cursor, rank_at};
use crate::lists::MateLists;
use fleet_base::{Memory, PairId};
use plan_graph::PlanGraph;
use std::alloc::Global;

/// The mates of each pair. In the order of ranks they are just before and just behind the pairs of the lower robot's visit
/// before, and of the one behind, with the same visit of the higher robot.
pub(crate) fn list_mates(alloc: Global, graph: &PlanGraph) -> Result<MateLists, Memory>
    ensures kept { IfOk result AreKept }
    ensures mates { IfOk result (λ lists. AreAllMates graph.now (rows_in lists)) }
{
    let _plan = graph.robots();
    let mut lists = MateLists::new(alloc);
    let mut finder = Finder::new();
    for q in 0..graph.pair_count() {
        finder.list(graph, PairId(q), &mut lists)?;
    }
    Ok(lists)
}

/// The four ways to the mates of a pair.
#[derive(Debug, Drop)]
struct Finder {
    before_before: Cursor,
    before_behind: Cursor,
    behind_before: Cursor,
    behind_behind: Cursor,
}

impl Finder {
    /// Four ways that begin at the first pair.
    fn new() -> Finder
        ensures { (g : Graph) → IsReady g result 0 }
    {
        Finder {
            before_before: Cursor::new(131_073, 0),
            before_behind: Cursor::new(131_071, 0),
            behind_before: Cursor::new(0, 131_071),
            behind_behind: Cursor::new(0, 131_073),
        }
    }

    /// Appends the mates of a pair, which is the next one in the lists.
    fn list(&mut self, graph: &PlanGraph, q: PairId, lists: &mut MateLists) -> Result<(), Memory>
        requires there { q.0 < length graph.now.pairs }
        requires ready { IsReady graph.now self.old q.0 }
        requires kept { AreKept lists.old }
        requires next { length lists.old.places.items ≡ q.0 }
        ensures ready { OnOk result (IsReady graph.now self.new q.0) }
        ensures kept { OnOk result (AreKept lists.new) }
        ensures row { OnOk result ((row : List PairId) × (rows_in lists.new ≡ rows_in lists.old ++ row ∷ []) × AreMatesOf graph.now q.0 row) }
    {
        let _plan = graph.robots();
        let rank = rank_at(graph, q);
        let start = lists.mates.len() as u32;
        let first = self.before_before.find(graph, rank);
        let second = self.before_behind.find(graph, rank);
        let third = self.behind_before.find(graph, rank);
        let fourth = self.behind_behind.find(graph, rank);
        lists.push(first)?;
        lists.push(second)?;
        lists.push(third)?;
        lists.push(fourth)?;
        lists.close(start)
    }
}
