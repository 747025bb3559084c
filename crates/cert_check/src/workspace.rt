ghost use Rattle.std.specs.Prelude.{◌≡◌, ◌+◌, ◌≤◌, map, length, vec_len, IfOk};
ghost use Rattle.std.specs.Vec.{vec_capacity};
ghost use Rattle.cert_check.specs.Work.{IsWorkFor};

use crate::rounds::Ticks;
use crate::sums::Sums;
use crate::way::Way;
use edge_groups::{GroupTable, groups};
use fleet_base::Memory;
use plan_graph::PlanGraph;
use std::alloc::Global;

/// What the checkers work on: the way to the node at hand, relaxed ticks, the sums of the durations along each robot, the
/// groups of pairs, and for each pair that names a group whether the group has a pair that is closed or decided.
#[derive(Drop)]
pub(crate) struct Workspace {
    pub(crate) way: Way,
    pub(crate) ticks: Ticks,
    pub(crate) sums: Sums,
    pub(crate) groups: GroupTable,
    pub(crate) taken: Vec<bool>,
}

impl Workspace {
    pub(crate) fn new(alloc: Global, graph: &PlanGraph) -> Result<Workspace, Memory>
        ensures { IfOk result (IsWorkFor graph.now) }
    {
        let pairs = graph.pair_count() as usize;
        Ok(Workspace {
            way: Way::new(alloc, pairs)?,
            ticks: graph.zeros(alloc)?,
            sums: graph.zeros(alloc)?,
            groups: groups(alloc, graph)?,
            taken: Vec::from_elem(alloc, false, pairs)?,
        })
    }
}
