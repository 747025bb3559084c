// The texts of generated fleets and of plans.
ghost use Rattle.std.specs.Prelude.{◌≡◌, ◌<◌, ◌^◌, IfOk, length};
ghost use Rattle.std.specs.List.{AllByRecursion};
ghost use Rattle.plan_text.specs.PlanText.{IsWritable, plan_text_of};
ghost use Rattle.fleet_cli.specs.Generating.{IsFleetText};

use fleet_base::{Memory, RawPlan, Text};
use fleet_gen::gen_fleet;
use map_text::write_map;
use plan_text::{WritePlanError, write_plan};
use std::alloc::Global;

/// The canonical text of the generated fleet of a seed: of its plan, if that is asked for, and else of its map.
pub fn fleet_text(alloc: Global, seed: u64, plan: bool) -> Result<Text, Memory>
    ensures { IfOk result (IsFleetText seed plan) }
{
    let (grid, paths) = gen_fleet(alloc, seed)?;
    if plan {
        path_text(alloc, &paths)
    } else {
        write_map(alloc, &grid)
    }
}

/// The canonical text of a plan, each path of which has a text.
pub fn path_text(alloc: Global, plan: &RawPlan) -> Result<Text, Memory>
    requires few { length plan.now < 2 ^ 32 }
    requires writable { AllByRecursion IsWritable plan.now }
    ensures { IfOk result (λ text. text ≡ plan_text_of plan.now) }
{
    match write_plan(alloc, plan) {
        Ok(text) => Ok(text),
        Err(WritePlanError::Wide { .. }) => unreachable!(),
        Err(WritePlanError::Memory) => Err(Memory),
    }
}
