// What an entry changes in the fleet.
ghost use Rattle.std.specs.Prelude.{ℕ, ◌≡◌, ◌<◌, List, All, length};
ghost use Rattle.fleet_base.specs.Order.{Graph, turned};
ghost use Rattle.fleet_base.specs.State.{FleetState};
ghost use Rattle.fleet_base.specs.Rules.{IsFleetState};
ghost use Rattle.fleet_core.specs.Step.{Step};
ghost use Rattle.fleet_core.specs.Preparing.{IsPrepared};
ghost use Rattle.fleet_core.specs.Pushing.{HaveRoom, pushed};

use crate::Entry;
use crate::hearing::hear;
use fleet_base::{Fleet, PairId, Visit};

/// Makes the step of an entry that was prepared for this fleet: its report, its switches and its releases. It takes no
/// memory.
pub fn apply(fleet: &mut Fleet, entry: &Entry)
    requires { IsPrepared fleet.old entry.now }
    ensures { (g : Graph) (x' : FleetState) → IsFleetState g fleet.old → Step g fleet.old entry.now.report entry.now.switched entry.now.releases x' → fleet.new ≡ x' }
{
    hear(fleet, &entry.report);
    turn(fleet, entry.switched.as_slice());
    let tick = fleet.now();
    release(fleet, entry.releases.as_slice(), tick);
}

/// Gives each of these pairs its other side.
pub(crate) fn turn(fleet: &mut Fleet, switched: &[PairId])
    requires { All (λ q. q.0 < length fleet.old.sides) switched.now }
    ensures { fleet.new ≡ record fleet.old { sides = turned fleet.old.sides switched.now } }
{
    for q in switched {
        let side = fleet.side(*q).other();
        fleet.set_side(*q, side);
    }
}

/// Releases each of these visits, which follows the last released one of its robot, at this tick.
pub(crate) fn release(fleet: &mut Fleet, visits: &[Visit], tick: u64)
    requires { HaveRoom fleet.old.lasts fleet.old.releases visits.now tick }
    ensures { fleet.new ≡ record fleet.old { releases = pushed fleet.old.releases visits.now tick } }
{
    for visit in visits {
        fleet.push_release(visit.robot, tick);
    }
}
