// Laws over the definitions. Each function does nothing: its contract is the law.
ghost use Rattle.std.specs.Prelude.{ℕ, ◌≡◌, ◌≤◌, ◌↔◌, [], ◌∷◌, ◌++◌, List, length};
ghost use Rattle.fleet_base.specs.declared.geometry.Cell.{Cell};
ghost use Rattle.fleet_base.specs.Grid.{OccupancyGrid};
ghost use Rattle.fleet_base.specs.Plan.{IsSound, IsCollisionFree};
ghost use Rattle.plan_steps.specs.Steps.{IsClear, IsClosed, IsStepwise};
ghost use Rattle.plan_steps.specs.Traffic.{EndsIn};

/// Beside a sound plan one more path is sound exactly where each of its steps is one that it may take.
pub fn sound_step_by_step()
    ensures { (grid : OccupancyGrid) (fixed : List (List Cell)) (path : List Cell)
        → IsSound grid fixed → 1 ≤ length path
        → IsSound grid (fixed ++ path ∷ []) ↔ IsStepwise grid fixed path }
{}

/// A step into a cell that no fixed robot leaves closes nothing. One into a cell from which moves lead closes a swap or
/// a rotation exactly where it comes from the end of these moves.
pub fn a_step_closes_where_the_moves_end()
    ensures none { (fixed : List (List Cell)) (t : ℕ) (a b : Cell)
        → IsCollisionFree fixed → IsClear fixed t b → ¬ IsClosed fixed t b a }
    ensures end { (fixed : List (List Cell)) (t : ℕ) (a b end : Cell)
        → IsCollisionFree fixed → IsClear fixed t a → EndsIn fixed t b end → IsClosed fixed t b a ↔ (a ≡ end) }
{}
