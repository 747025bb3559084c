// The crossing: two robots whose ways cross in one cell.
ghost use Rattle.std.specs.Prelude.{◌≡◌, IfOk};
ghost use Rattle.fleet_base.specs.Pairs.{pairs_of};

use fleet_base::{PairTable, SoundPlan};
use plan_scenes::planned;
use std::alloc::Global;
use std::test::Fail;

pub const MAP: &[u8] = b"type octile\nheight 3\nwidth 5\nmap\n@@.@@\n.....\n@@.@@\n";

pub const PLAN: &[u8] =
    b"Agent 0: (1,0)->(1,1)->(1,2)->(1,3)->(1,4)\nAgent 1: (0,2)->(0,2)->(0,2)->(1,2)->(2,2)\n";

/// Its plan, with its pairs.
pub fn crossing(alloc: Global) -> Result<(SoundPlan, PairTable), Fail>
    ensures { IfOk result (λ made. made.1 ≡ pairs_of made.0) }
{
    planned(alloc, (MAP, PLAN))
}
