//! Laws of the grammar of plans. Each function does nothing: its contract is the law.
ghost use Rattle.std.specs.Prelude.{◌≡◌, ◌≤◌, ℕ, List, length, codes};
ghost use Rattle.std.specs.List.{AllByRecursion};
ghost use Rattle.fleet_base.specs.declared.geometry.Cell.{Cell};
ghost use Rattle.plan_text.specs.declared.fault.PlanKind.{PlanKind};
ghost use Rattle.plan_text.specs.declared.fault.PlanKind.TheVariants.{Path};
ghost use Rattle.plan_text.specs.PlanText.{IsPlanText, IsWritable, plan_text_of, robot_lines};
ghost use Rattle.plan_text.specs.PlanFaults.{IsPlanFault};

/// The canonical text of a plan means that plan, so a plan that is written is read again.
pub fn a_canonical_text_means_its_plan()
    ensures { (plan : List (List Cell)) → 1 ≤ length plan → AllByRecursion IsWritable plan → IsPlanText (plan_text_of plan) plan }
{}

/// A text means one plan at most.
pub fn a_text_means_one_plan()
    ensures { (text : List ℕ) (plan other : List (List Cell)) → IsPlanText text plan → IsPlanText text other → plan ≡ other }
{}

/// A text with a fault means no plan.
pub fn a_text_with_a_fault_means_no_plan()
    ensures { (text : List ℕ) (line column : ℕ) (kind : PlanKind) (plan : List (List Cell)) → IsPlanFault (robot_lines text) line column kind → IsPlanText text plan → ⊥ }
{}

/// A text has one fault at most.
pub fn a_text_has_one_fault()
    ensures { (text : List ℕ) (line column line2 column2 : ℕ) (kind kind2 : PlanKind) → IsPlanFault (robot_lines text) line column kind → IsPlanFault (robot_lines text) line2 column2 kind2 → (line ≡ line2) × (column ≡ column2) × (kind ≡ kind2) }
{}

/// A letter in place of a column: the longest good front of `Agent 0: (1,x)` is `Agent 0: (1,`, of 12 bytes.
pub fn a_letter_stands_at_column_13()
    ensures { IsPlanFault (robot_lines (codes "Agent 0: (1,x)")) 1 13 Path }
{}
