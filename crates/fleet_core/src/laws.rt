// Laws over the definitions. Each function does nothing: its contract is the law.
ghost use Rattle.std.specs.Prelude.{ℕ, ◌≡◌, ◌+◌, ◌<◌, ◌^◌, List};
ghost use Rattle.fleet_base.specs.declared.geometry.Visit.{Visit};
ghost use Rattle.fleet_base.specs.declared.order.PairId.{PairId};
ghost use Rattle.fleet_base.specs.declared.report.Report.{Report};
ghost use Rattle.fleet_base.specs.declared.report.Report.TheVariants.{Arrive, Delay};
ghost use Rattle.fleet_base.specs.Order.{Graph};
ghost use Rattle.fleet_base.specs.State.{FleetState, arrived};
ghost use Rattle.fleet_base.specs.Rules.{IsFleetState};
ghost use Rattle.fleet_base.specs.Limits.{report_limit};
ghost use Rattle.fleet_core.specs.declared.judging.Judged.TheVariants.{Accept};
ghost use Rattle.fleet_core.specs.Judgement.{judgement_of};
ghost use Rattle.fleet_core.specs.Step.{Step, heard_of};

/// An accepted arrival is that of the robot's next visit, however many releases the robot holds.
pub fn an_accepted_arrival_is_the_next()
    ensures { (x : FleetState) (i k tick : ℕ) → judgement_of x (Arrive i k tick) ≡ Accept → k ≡ arrived x i + 1 }
{}

/// A step keeps the rules of a fleet state, with the pairs that it switches.
pub fn a_step_keeps_the_rules()
    ensures { (g : Graph) (x : FleetState) (report : Report) (switched : List PairId) (releases : List Visit) (x' : FleetState) →
        IsFleetState g x → Step g x report switched releases x' → IsFleetState g x' }
{}

/// A state with an accepted delay applied keeps the rules of a fleet state, before any switch and release.
pub fn a_heard_delay_keeps_the_rules()
    ensures { (g : Graph) (x : FleetState) (i k extra tick : ℕ) →
        IsFleetState g x → judgement_of x (Delay i k extra tick) ≡ Accept → x.count < report_limit → IsFleetState g (heard_of x (Delay i k extra tick)) }
{}

/// No event changes the window.
pub fn a_step_keeps_the_window()
    ensures { (g : Graph) (x : FleetState) (report : Report) (switched : List PairId) (releases : List Visit) (x' : FleetState) → Step g x report switched releases x' → x'.window ≡ x.window }
{}
