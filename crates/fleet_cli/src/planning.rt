// A plan for the tasks of a scenario.
ghost use Rattle.std.specs.Prelude.{◌≡◌, ◌≤◌, IfOk, IfErr, take};
ghost use Rattle.station_api.specs.Causes.{Counted};
ghost use Rattle.fleet_cli.specs.Runs.{HasFailed};
ghost use Rattle.fleet_cli.specs.Papers.{files_of, failed_at};
ghost use Rattle.fleet_cli.specs.Planning.{IsPlanFor};
ghost use Rattle.fleet_cli.specs.Fetching.{HasTaskReason};
ghost use Rattle.fleet_base.specs.Limits.{robot_limit, tick_limit};

use crate::fault::{Paper, Refusal};
use crate::generating::path_text;
use crate::papers::fetch;
use fleet_base::{Memory, Text};
use map_text::{TaskList, read_map, read_scen};
use path_planner::plan_in_turn;
use station_api::Shelf;
use std::alloc::Global;

/// The canonical text of the plan for the first so many tasks of a scenario on a map, or for all where there are fewer.
pub fn plan_for<H: Shelf>(
    alloc: Global,
    shelf: &mut H,
    map_name: &str,
    scen_name: &str,
    robots: u64,
    horizon: u64,
) -> Result<Text, Refusal>
    requires robots { (1 ≤ robots) × (robots ≤ robot_limit) }
    requires horizon { (1 ≤ horizon) × (horizon ≤ tick_limit) }
    ensures planned { IfOk result (IsPlanFor (files_of H.tells (H.file shelf.old)) map_name.now scen_name.now robots horizon) }
    ensures refused { IfErr result (HasTaskReason (files_of H.tells (H.file shelf.old)) (failed_at H.tells (H.asked shelf.new) (HasFailed (H.counts shelf.old) (H.counts shelf.new))) map_name.now scen_name.now robots horizon) }
    ensures counted { Counted (H.counts shelf.old) (H.counts shelf.new) }
{
    let map = fetch(alloc, shelf, map_name, Paper::Map)?;
    let grid = read_map(alloc, &map)?;
    let scen = fetch(alloc, shelf, scen_name, Paper::Scen)?;
    let all = read_scen(alloc, &scen)?;
    let tasks = first_of(alloc, &all, robots as usize)?;
    let plan = plan_in_turn(alloc, &grid, &tasks, horizon as u32)?;
    let text = path_text(alloc, &plan)?;
    Ok(text)
}

/// The first so many tasks, or all where there are fewer.
fn first_of(alloc: Global, tasks: &TaskList, count: usize) -> Result<TaskList, Memory>
    ensures { IfOk result (λ first. first ≡ take count tasks.now) }
{
    let tasks = tasks.as_slice();
    TaskList::from_slice(alloc, &tasks[..count.min(tasks.len())])
}
