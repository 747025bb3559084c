ghost use Rattle.std.specs.Prelude.{IfOk};
ghost use Rattle.search_nodes.specs.Rooms.{IsRoomFor};

use edge_groups::{GroupTable, groups};
use fleet_base::Memory;
use longest_path::Ticks;
use plan_graph::PlanGraph;
use std::alloc::Global;
use std::marker::Model;

/// Room for searches on a graph: the mates of its pairs, and a schedule.
#[derive(Debug, Drop)]
pub struct Room {
    pub(crate) groups: GroupTable,
    pub(crate) ticks: Ticks,
}

impl Model for Room {
    ghost use Rattle.search_nodes.specs.Rooms.{SearchRoom};

    ghost Value = { SearchRoom };

    ghost view = { λ r. record { mates = r.groups; ticks = r.ticks } };
}

impl Room {
    /// Room for searches on this graph.
    pub fn new(alloc: Global, graph: &PlanGraph) -> Result<Room, Memory>
        ensures { IfOk result (IsRoomFor graph.now) }
    {
        let groups = groups(alloc, graph)?;
        let ticks = Ticks::new(alloc, graph)?;
        Ok(Room { groups, ticks })
    }
}
