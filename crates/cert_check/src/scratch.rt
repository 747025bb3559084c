ghost use Rattle.std.specs.Prelude.{IfOk};
ghost use Rattle.cert_check.specs.Rooms.{IsRoomFor};

use crate::workspace::Workspace;
use fleet_base::Memory;
use plan_graph::PlanGraph;
use std::alloc::Global;
use std::marker::Model;

/// Room for the checkers on a graph, seen as what it tells of the graph: how many visits each robot has, how many pairs there
/// are, and the mates of each pair.
#[derive(Drop)]
pub struct Scratch {
    pub(crate) work: Workspace,
}

impl Model for Scratch {
    ghost use Rattle.std.specs.Prelude.{◌≡◌, ◌≤◌, map, length, vec_len};
    ghost use Rattle.std.specs.Vec.{vec_capacity};
    ghost use Rattle.cert_check.specs.Rooms.{Room};

    ghost Value = { Room };

    ghost view = { λ s. record { visits = map length s.work.ticks; pairs = vec_len s.work.way.sides; mates = s.work.groups } };

    ghost invariant = { λ s. (vec_len s.work.way.sides ≤ vec_capacity s.work.way.steps) × (map length s.work.sums ≡ map length s.work.ticks) × (vec_len s.work.taken ≡ vec_len s.work.way.sides) };
}

impl Scratch {
    pub fn new(alloc: Global, graph: &PlanGraph) -> Result<Scratch, Memory>
        ensures { IfOk result (IsRoomFor graph.now) }
    {
        Ok(Scratch {
            work: Workspace::new(alloc, graph)?,
        })
    }
}
