// States of a fleet: a plan, and what was reported so far.
ghost use Rattle.std.specs.Prelude.{IfOk};
ghost use Rattle.fleet_base.specs.Rules.{IsFleetState};

use fleet_base::Fleet;
use plan_graph::PlanGraph;
use plan_scenes::{CORRIDOR, CROSSING, Event, Texts, after};
use std::alloc::Global;
use std::test::Fail;

const TWO_MEETINGS: Texts<'static> = (
    b"type octile\nheight 5\nwidth 11\nmap\n.@@@.@@@.@@\n.@@@.@@@.@@\n.....@.....\n.@@@.@@@.@@\n.@@@.@@@.@@\n",
    b"Agent 0: (0,0)->(1,0)->(2,0)->(2,1)->(2,2)->(2,3)->(2,4)->(3,4)->(4,4)\nAgent 1: (0,4)->(0,4)->(0,4)->(0,4)->(0,4)->(0,4)->(1,4)->(2,4)->(2,3)->(2,2)->(2,1)->(2,0)->(3,0)->(4,0)\nAgent 2: (2,6)->(2,7)->(2,8)->(2,9)->(2,10)\nAgent 3: (1,8)->(1,8)->(1,8)->(2,8)->(3,8)\n",
);

/// A plan, and the events so far.
#[derive(Clone, Copy)]
pub struct Scene<'a> {
    texts: Texts<'static>,
    events: &'a [Event],
}

/// Two robots cross, and have one pair.
pub fn crossing(events: &[Event]) -> Scene<'_> {
    Scene {
        texts: CROSSING,
        events,
    }
}

/// Two robots go through a corridor in opposite directions, and have six pairs.
pub fn corridor(events: &[Event]) -> Scene<'_> {
    Scene {
        texts: CORRIDOR,
        events,
    }
}

/// Two robots go through a hall in opposite directions, and have the pairs 0 to 4, which are one group; two more cross, and
/// have pair 5, which is another.
pub fn meetings(events: &[Event]) -> Scene<'_> {
    Scene {
        texts: TWO_MEETINGS,
        events,
    }
}

/// The graph of the plan, and the state after the events.
pub fn state(alloc: Global, scene: &Scene<'_>) -> Result<(PlanGraph, Fleet), Fail>
    ensures { IfOk result (λ made. IsFleetState made.0 made.1) }
{
    after(alloc, scene.texts, 1, scene.events)
}
