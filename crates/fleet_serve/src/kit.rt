// What a session keeps beside the state.
ghost use Rattle.std.specs.Prelude.{IfOk};
ghost use Rattle.search_nodes.specs.Rooms.{IsRoomFor};

use bound_search::Room;
use fleet_base::Memory;
use plan_graph::PlanGraph;
use std::alloc::Global;
use std::marker::Model;

/// The room of a session's searches.
#[derive(Debug, Drop)]
pub struct Kit {
    pub(crate) room: Room,
}

impl Model for Kit {
    ghost use Rattle.fleet_serve.specs.Kits.{SessionKit};

    ghost Value = { SessionKit };

    ghost view = { λ kit. record { room = kit.room } };
}

impl Kit {
    /// What a session on this graph needs.
    pub fn new(alloc: Global, graph: &PlanGraph) -> Result<Kit, Memory>
        ensures { IfOk result (λ kit. IsRoomFor graph.now kit.room) }
    {
        let room = Room::new(alloc, graph)?;
        Ok(Kit { room })
    }
}
