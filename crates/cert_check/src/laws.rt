//! Laws of certificates. Each function does nothing: its contract is the law.
ghost use Rattle.std.specs.Prelude.{◌≡◌, ◌+◌, ◌^◌, ◌<◌, ◌≤◌, true, ℕ, List, Option, Some, IsSome, length};
ghost use Rattle.fleet_base.specs.declared.geometry.Visit.{Visit};
ghost use Rattle.fleet_base.specs.declared.order.PairId.{PairId};
ghost use Rattle.fleet_base.specs.declared.order.Side.{Side};
ghost use Rattle.fleet_base.specs.Order.{Graph, IsCycle, IsSorted, IsSoundOrder, last_in};
ghost use Rattle.fleet_base.specs.State.{FleetState};
ghost use Rattle.fleet_base.specs.Open.{is_open, KeepsClosed};
ghost use Rattle.fleet_base.specs.Rules.{IsFleetState};
ghost use Rattle.fleet_base.specs.Schedule.{IsCost, IsLawful, end_sum_of};
ghost use Rattle.cert_tree.specs.declared.node.Node.{Node};
ghost use Rattle.cert_check.specs.declared.verdict.Verdict.{Verdict};
ghost use Rattle.cert_tree.specs.Orders.{ObeysPairs};
ghost use Rattle.fleet_base.specs.Paths.{path_length};
ghost use Rattle.fleet_base.specs.Groups.{AreOpenGroups};
ghost use Rattle.cert_tree.specs.GroupRules.{IsGroupedTree};
ghost use Rattle.cert_tree.specs.Trees.{Tree, IsOptimalTree, IsSpentTree};
ghost use Rattle.cert_check.specs.Verdicts.{OptimalVerdict, SpentVerdict};

/// A lawful schedule does not obey all edges of a cycle.
pub fn no_lawful_schedule_goes_round()
    ensures { (g : Graph) (x : FleetState) (order : ℕ → Option Side) (s : Visit → ℕ) (cycle : List PairId) → IsFleetState g x → KeepsClosed g x order → IsLawful g x s → ObeysPairs g x order s → ¬ IsCycle g order cycle }
{}

/// The length of a path is at most the last tick of its robot, in every lawful schedule that obeys the order.
pub fn no_path_is_longer_than_its_robot()
    ensures { (g : Graph) (x : FleetState) (order : ℕ → Option Side) (s : Visit → ℕ) (pairs : List PairId) (i end : ℕ) → IsFleetState g x → KeepsClosed g x order → IsLawful g x s → ObeysPairs g x order s
        → i < length g.lasts → path_length g x order i pairs ≡ Some end → end ≤ s (record { robot = i; index = last_in g i }) }
{}

/// Where a tree is an optimal tree for a cost, no lawful schedule has a smaller sum.
pub fn optimal_trees_bound_schedules()
    ensures { (g : Graph) (x : FleetState) (cost : ℕ) (tree : Tree) (s : Visit → ℕ) → IsFleetState g x → IsOptimalTree g x cost tree → IsLawful g x s → cost ≤ end_sum_of g s }
{}

/// An order without a cycle that gives each open pair a side and keeps the closed ones is sound.
pub fn acyclic_orders_are_sound()
    ensures { (g : Graph) (x : FleetState) (order : ℕ → Option Side) (list : List Visit) → IsFleetState g x → KeepsClosed g x order → ((q : ℕ) → is_open g x q ≡ true → IsSome (order q)) → IsSorted g order list → IsSoundOrder g order }
{}

/// No such order costs less than an optimal tree says.
pub fn optimal_trees_bound_orders()
    ensures { (g : Graph) (x : FleetState) (cost c : ℕ) (tree : Tree) (order : ℕ → Option Side) (list : List Visit) → IsFleetState g x → IsOptimalTree g x cost tree → KeepsClosed g x order → ((q : ℕ) → is_open g x q ≡ true → IsSome (order q)) → IsSorted g order list → IsCost g x order c → cost ≤ c }
{}

/// Where a tree is a spent tree, no lawful schedule has a sum below what is left.
pub fn spent_trees_bound_schedules()
    ensures { (g : Graph) (x : FleetState) (cost least budget : ℕ) (tree : Tree) (s : Visit → ℕ) → IsFleetState g x → IsSpentTree g x cost least budget tree → IsLawful g x s → least ≤ end_sum_of g s }
{}

/// A list of nodes has one verdict as an optimal tree.
pub fn optimal_verdicts_are_one()
    ensures { (g : Graph) (x : FleetState) (cost : ℕ) (nodes : List Node) (v w : Verdict) → OptimalVerdict g x cost nodes v → OptimalVerdict g x cost nodes w → v ≡ w }
{}

/// And one as a spent tree.
pub fn spent_verdicts_are_one()
    ensures { (g : Graph) (x : FleetState) (cost least budget : ℕ) (nodes : List Node) (v w : Verdict) → SpentVerdict g x cost least budget nodes v → SpentVerdict g x cost least budget nodes w → v ≡ w }
{}

/// A spent tree with n open groups has fewer than 2^n - 1 branches.
pub fn spent_trees_are_small()
    ensures { (g : Graph) (x : FleetState) (groups : List ℕ) (cost least budget : ℕ) (tree : Tree) → AreOpenGroups g x groups → IsSpentTree g x cost least budget tree → IsGroupedTree g x tree → budget + 1 < 2 ^ length groups }
{}
