// Laws over the definitions. Each function does nothing: its contract is the law.
ghost use Rattle.std.specs.Prelude.{ℕ, ◌≡◌, ◌≤◌, ◌↔◌, All, List, slice_index};
ghost use Rattle.fleet_base.specs.declared.geometry.Cell.{Cell};
ghost use Rattle.fleet_base.specs.Grid.{OccupancyGrid};
ghost use Rattle.fleet_base.specs.Plan.{HasRobots, IsAccepted};
ghost use Rattle.plan_check.specs.declared.fault.Unsound.{Unsound};
ghost use Rattle.plan_check.specs.declared.fault.Unsound.TheVariants.{Rotation};
ghost use Rattle.plan_check.specs.Faults.{IsFaultless, IsFirstFault};

/// A plan with robots is sound and within the limits exactly where it has no fault.
pub fn accepted_where_faultless()
    ensures { (grid : OccupancyGrid) (plan : List (List Cell)) → HasRobots plan
        → IsAccepted grid plan ↔ IsFaultless grid plan }
{}

/// A plan has one first fault at most.
pub fn first_fault_is_one()
    ensures { (grid : OccupancyGrid) (plan : List (List Cell)) (one other : Unsound)
        → IsFirstFault grid plan one → IsFirstFault grid plan other → one ≡ other }
{}

/// A rotation that is the first fault is listed from its least robot.
pub fn rotation_leads_with_least()
    ensures { (grid : OccupancyGrid) (plan : List (List Cell)) (robots : List ℕ) (tick : ℕ)
        → IsFirstFault grid plan (Rotation robots tick) → All (λ robot. slice_index robots 0 ≤ robot) robots }
{}
