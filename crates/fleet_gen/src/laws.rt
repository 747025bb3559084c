// Laws over the definitions. Each function does nothing: its contract is the law.
ghost use Rattle.std.specs.Prelude.{ℕ, ◌≡◌, ◌+◌, ◌-◌, ◌*◌, ◌<◌, ◌≤◌, ◌↔◌, IsTrue, List, [], ◌∷◌, ◌++◌, length, min, max};
ghost use Rattle.fleet_base.specs.declared.geometry.Cell.{Cell};
ghost use Rattle.fleet_base.specs.Lists.{row_of};
ghost use Rattle.fleet_base.specs.Grid.{OccupancyGrid, distance};
ghost use Rattle.fleet_base.specs.Plan.{IsAccepted, IsSound};
ghost use Rattle.fleet_gen.specs.declared.road.Road.{Road};
ghost use Rattle.fleet_gen.specs.Roads.{IsRoad, cell_after, is_on_road, moves_of, path_of, rows_of};
ghost use Rattle.fleet_gen.specs.Departures.{AreEarliest, AreRoads, road_at};
ghost use Rattle.fleet_gen.specs.Draws.{roads_of};
ghost use Rattle.fleet_gen.specs.Fleets.{IsGeneratedPlan, generated_grid, words_of};

/// The plan of a seed is accepted on its map.
pub fn generated_plans_are_accepted()
    ensures { (seed : ℕ) (plan : List (List Cell)) → IsGeneratedPlan seed plan → IsAccepted (generated_grid seed) plan }
{}

/// In the plan of a seed each robot has arrived at tick 1,984 at the latest.
pub fn generated_plans_arrive()
    ensures { (seed i : ℕ) (plan : List (List Cell)) → IsGeneratedPlan seed plan → i < 32 → length (row_of plan i) ≤ 1985 }
{}

/// A seed has one plan at most.
pub fn a_seed_has_one_plan()
    ensures { (seed : ℕ) (plan other : List (List Cell)) → IsGeneratedPlan seed plan → IsGeneratedPlan seed other → plan ≡ other }
{}

/// Beside robots that departed in turn the next one may wait 62 ticks for each of them: so a least waiting exists.
pub fn waiting_for_all_before_is_sound()
    ensures { (seed : ℕ) (plan : List (List Cell)) → length plan < 32
        → AreEarliest (generated_grid seed) (roads_of (words_of seed) 32) plan
        → IsSound (generated_grid seed)
        (plan ++ path_of (road_at (roads_of (words_of seed) 32) (length plan)) (62 * length plan) ∷ []) }
{}

/// A road has three stretches: along its first row to its column, along the column to the goal's row, along that row to
/// column 31. Each move is one step, and the road goes through the cells after its moves and through no other.
pub fn roads_have_three_stretches()
    ensures first { (road : Road) (n : ℕ) → IsRoad road → n ≤ road.column
        → cell_after road n ≡ record { row = road.row; col = n } }
    ensures across { (road : Road) (n : ℕ) → IsRoad road → n ≤ rows_of road
        → cell_after road (road.column + n) ≡ record {
          row = max (road.row - n) (min road.goal (road.row + n));
          col = road.column;
        } }
    ensures last { (road : Road) (n : ℕ) → IsRoad road → road.column ≤ n → n ≤ 31
        → cell_after road (n + rows_of road) ≡ record { row = road.goal; col = n } }
    ensures step { (road : Road) (n : ℕ) → IsRoad road → n < moves_of road
        → distance (cell_after road n) (cell_after road (n + 1)) ≡ 1 }
    ensures cells { (road : Road) (at : Cell) → IsRoad road
        → IsTrue (is_on_road road at) ↔ ((n : ℕ) × (n ≤ moves_of road) × (cell_after road n ≡ at)) }
{}

/// The roads of a seed lie on its map, are free, and each begins and ends in a row of its own.
pub fn drawn_roads_are_roads()
    ensures { (seed : ℕ) → AreRoads (generated_grid seed) (roads_of (words_of seed) 32) }
{}

/// No road has a cell twice.
pub fn roads_have_no_cell_twice()
    ensures { (road : Road) (m n : ℕ) → IsRoad road → m ≤ moves_of road → n ≤ moves_of road
        → cell_after road m ≡ cell_after road n → m ≡ n }
{}
