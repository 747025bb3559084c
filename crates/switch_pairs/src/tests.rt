ghost use Rattle.std.specs.Prelude.{◌≡◌, map, IfOk, IfSome};
ghost use Rattle.fleet_base.specs.Plan.{visits_of};
ghost use Rattle.fleet_base.specs.Examples.{crossing_map, crossing_plan};

use crate::pairs;
use fleet_base::{Cell, Grid, Memory, Pair, PairId, RawPlan, Side, SoundPlan, Visit};
use std::alloc::{AllocError, Global};
use std::test::Fail;

/// The map of the crossing.
fn crossing_grid(alloc: Global) -> Result<Option<Grid>, AllocError>
    ensures { IfOk result (λ grid. IfSome grid (λ g. g ≡ crossing_map)) }
{
    let mut free = vec![in alloc; false, false, true, false, false]?;
    free.extend_from_slice(&[true, true, true, true, true])?;
    free.extend_from_slice(&[false, false, true, false, false])?;
    Ok(Grid::new(3, 5, free))
}

/// Its plan.
fn crossing_raw(alloc: Global) -> Result<RawPlan, Memory>
    ensures { IfOk result (λ plan. plan ≡ crossing_plan) }
{
    let mut plan = RawPlan::new(alloc);
    plan.push_path(path(alloc, &[(1, 0), (1, 1), (1, 2), (1, 3), (1, 4)])?)?;
    plan.push_path(path(alloc, &[(0, 2), (0, 2), (0, 2), (1, 2), (2, 2)])?)?;
    Ok(plan)
}

fn path(alloc: Global, cells: &[(u32, u32)]) -> Result<Vec<Cell>, Memory>
    ensures { IfOk result (λ path. path.items ≡ map (λ c. record { row = c.0; col = c.1 }) cells.now) }
{
    match cells
        .iter()
        .map(|c| Cell { row: c.0, col: c.1 })
        .collect(alloc)
    {
        Ok(path) => Ok(path),
        Err(_) => Err(Memory),
    }
}

/// The visits of the crossing's plan.
fn crossing(alloc: Global) -> Result<Option<SoundPlan>, Memory>
    ensures { IfOk result (λ plan. IfSome plan (λ p. p ≡ visits_of crossing_plan)) }
{
    let raw = crossing_raw(alloc)?;
    match crossing_grid(alloc) {
        Ok(Some(grid)) => Ok(Some(SoundPlan::from_raw(alloc, &grid, &raw)?)),
        Ok(None) => Ok(None),
        Err(_) => Err(Memory),
    }
}

#[test]
fn the_crossing_has_one_pair(rt: HostRuntime) -> Result<(), Fail> {
    let plan = crossing(rt.alloc())?.ok_or("a map")?;
    let table = pairs(rt.alloc(), &plan)?;
    assert_eq!(rt; table.len(), 1);
    let want = Pair {
        lower: Visit { robot: 0, index: 2 },
        higher: Visit { robot: 1, index: 1 },
        first: Side::Lower,
    };
    assert_eq!(rt; table.pair(PairId(0)), want);
    for (robot, index, count) in [(0, 2, 1), (1, 1, 1), (0, 1, 0), (1, 2, 0)] {
        assert_eq!(rt; table.of(Visit { robot, index }).len(), count);
    }
    Ok(())
}
