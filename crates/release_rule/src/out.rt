ghost use Rattle.std.specs.Prelude.{◌≡◌, ◌<◌, ◌++◌, ◌∷◌, [], length, IfOk};
ghost use Rattle.plan_graph.specs.Limits.{visit_count};

use fleet_base::{Memory, Visit};
use plan_graph::PlanGraph;
use std::alloc::Global;
use std::marker::Model;

/// The visits that were found last, with room for all visits of a graph.
#[derive(Debug, Drop)]
pub struct Out {
    found: Vec<Visit>,
}

impl Model for Out {
    ghost use Rattle.std.specs.Vec.{vec_capacity};
    ghost use Rattle.release_rule.specs.Releasing.{ReleaseList};

    ghost Value = { ReleaseList };

    ghost view = { λ o. record { list = o.found.items; room = vec_capacity o.found } };
}

impl Out {
    /// Room for the releases of this graph.
    pub fn new(alloc: Global, graph: &PlanGraph) -> Result<Out, Memory>
        ensures { IfOk result (λ out. out ≡ record { list = []; room = visit_count graph.now }) }
    {
        let room = graph.visit_count() as usize;
        Ok(Out {
            found: Vec::with_capacity(alloc, room)?,
        })
    }

    /// The visits that were found last, by robot, then by index.
    pub fn list(&self) -> &[Visit]
        ensures { result.now ≡ self.now.list }
    {
        &self.found
    }

    /// Forgets what was found.
    pub(crate) fn clear(&mut self)
        ensures { self.new ≡ record self.old { list = [] } }
    {
        self.found.clear();
    }

    /// One visit more, for which there is room.
    pub(crate) fn push(&mut self, visit: Visit)
        requires { length self.old.list < self.old.room }
        ensures { self.new ≡ record self.old { list = self.old.list ++ visit ∷ [] } }
    {
        self.found.push_reserved(visit);
    }
}
