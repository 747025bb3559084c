ghost use Rattle.std.specs.Prelude.{◌≡◌, ℕ, ◌<◌, ◌≤◌, IfOk, length};
ghost use Rattle.fleet_base.specs.Lists.{row_of};
ghost use Rattle.fleet_base.specs.Plan.{IsAccepted};
ghost use Rattle.fleet_gen.specs.Draws.{roads_of};
ghost use Rattle.fleet_gen.specs.Fleets.{IsGeneratedPlan, generated_grid, words_of};

use crate::Road;
use crate::departures::depart_in_turn;
use crate::draws::{SIDE, draw_marks, draw_roads};
use fleet_base::{Grid, Memory, RawPlan};
use rand_core::SeedableRng;
use rand_pcg::Lcg64Xsh32;
use std::alloc::Global;

/// The map and the plan of the generated fleet of a seed: 32 robots on 32 rows and 32 columns. The plan is accepted on
/// the map, and the last robot has arrived at tick 1,984 at the latest. Want of memory is the only other answer.
pub fn gen_fleet(alloc: Global, seed: u64) -> Result<(Grid, RawPlan), Memory>
    ensures grid { IfOk result (λ fleet. fleet.0 ≡ generated_grid seed) }
    ensures plan { IfOk result (λ fleet. IsGeneratedPlan seed fleet.1) }
    ensures accepted { IfOk result (λ fleet. IsAccepted fleet.0 fleet.1) }
    ensures in_time { IfOk result (λ fleet. (i : ℕ) → i < 32 → length (row_of fleet.1 i) ≤ 1985) }
{
    let (grid, roads) = draw(alloc, seed)?;
    let plan = depart_in_turn(alloc, &grid, &roads)?;
    Ok((grid, plan))
}

/// The map and the roads of a seed.
fn draw(alloc: Global, seed: u64) -> Result<(Grid, Vec<Road>), Memory>
    ensures grid { IfOk result (λ drawn. drawn.0 ≡ generated_grid seed) }
    ensures roads { IfOk result (λ drawn. drawn.1.items ≡ roads_of (words_of seed) 32) }
{
    let mut words = Lcg64Xsh32::seed_from_u64(seed);
    let roads = draw_roads(alloc, &mut words)?;
    let free = draw_marks(alloc, &roads, &mut words)?;
    let grid = Grid::new(SIDE, SIDE, free).unwrap();
    Ok((grid, roads))
}
