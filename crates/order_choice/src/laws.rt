//! Laws of candidates, choices and searches. Each function does nothing: its contract is the law.
ghost use Rattle.std.specs.Prelude.{◌≡◌, ◌⊎◌, ◌+◌, ◌<◌, ◌≤◌, ◌^◌, ℕ, List, [], ◌∷◌, ◌++◌, map, length, Option, Some, IsSome, true, All, Contains};
ghost use Rattle.fleet_base.specs.declared.geometry.Visit.{Visit};
ghost use Rattle.fleet_base.specs.declared.order.PairId.{PairId};
ghost use Rattle.fleet_base.specs.declared.order.Side.{Side};
ghost use Rattle.fleet_base.specs.declared.order.Side.TheVariants.{Lower, Higher};
ghost use Rattle.fleet_base.specs.Order.{Graph, last_in, IsGraph, IsCycle, IsSorted, IsSoundOrder, other_side, order_of, turned};
ghost use Rattle.fleet_base.specs.State.{FleetState, order_at};
ghost use Rattle.fleet_base.specs.Open.{is_open, KeepsClosed};
ghost use Rattle.fleet_base.specs.Rules.{IsFleetState};
ghost use Rattle.fleet_base.specs.Schedule.{IsCost, IsLawful, IsLeastSchedule, end_sum_of};
ghost use Rattle.fleet_base.specs.Paths.{path_length};
ghost use Rattle.fleet_base.specs.Groups.{AreMates, AreOpenGroups};
ghost use Rattle.cert_tree.specs.declared.node.Node.{Node};
ghost use Rattle.cert_tree.specs.declared.node.Node.TheVariants.{Bound};
ghost use Rattle.cert_tree.specs.CertText.{IsWritten};
ghost use Rattle.cert_tree.specs.Decisions.{Decision, IsFree, order_on};
ghost use Rattle.cert_tree.specs.Trees.{Tree, IsSpentTree, IsBound, branch_to, force_to};
ghost use Rattle.cert_tree.specs.GroupRules.{HasGroupLeft, IsNewGroup};
ghost use Rattle.order_choice.specs.declared.outcome.Outcome.{Outcome};
ghost use Rattle.order_choice.specs.declared.outcome.Outcome.TheVariants.{Optimal, Spent};
ghost use Rattle.order_choice.specs.Candidates.{IsCandidate, IsNoCheaper, IsInConflict};
ghost use Rattle.order_choice.specs.Choices.{IsChosen, Choice, AreSwitches};
ghost use Rattle.order_choice.specs.declared.made.Forcing.{Forcing};
ghost use Rattle.order_choice.specs.declared.made.MadeNode.{MadeNode};
ghost use Rattle.order_choice.specs.Searching.{IsForcedOut, IsSearched, IsMade, IsBest, AreAbove, forced_on, ways_past};
ghost use Rattle.order_choice.specs.declared.made.Stand.TheVariants.{Waiting, Expanded};
ghost use Rattle.order_choice.specs.Writing.{IsWrittenOf, paths_from};

/// The side of a mate that has one is forced: with the other side the mate, then the pair, are a cycle.
pub fn mates_force_sides()
    ensures { (g : Graph) (x : FleetState) (way : List Decision) (m q : PairId) (side : Side) → IsFleetState g x → IsFree g x way q.0 → AreMates g m.0 q.0 → order_on g x way m.0 ≡ Some side
        → IsCycle g (order_on g x (force_to q (other_side side) ∷ way)) (m ∷ q ∷ []) }
{}

/// When forcing is at its end, each free pair lies in an open group without a decided pair.
pub fn forcing_leaves_whole_groups()
    ensures { (g : Graph) (x : FleetState) (way : List Decision) (q : ℕ) → IsForcedOut g x way → IsFree g x way q → HasGroupLeft g x way × IsNewGroup g x way q }
{}

/// With n open pairs any spent tree has fewer than 2^n - 1 branches.
pub fn spent_trees_are_small_by_pairs()
    ensures { (g : Graph) (x : FleetState) (pairs : List ℕ) (cost least budget : ℕ) (tree : Tree) → ((q : ℕ) → is_open g x q ≡ true → Contains pairs q) → IsSpentTree g x cost least budget tree → budget + 1 < 2 ^ length pairs }
{}

/// A further decision costs no less.
pub fn decisions_cost_no_less()
    ensures { (g : Graph) (x : FleetState) (way : List Decision) (d : Decision) (c e : ℕ) → IsFree g x way d.pair → IsCost g x (order_on g x way) c → IsCost g x (order_on g x (d ∷ way)) e → c ≤ e }
{}

/// A part decision has a candidate with each schedule, and no two differ.
pub fn part_decisions_have_one_candidate()
    ensures some { (g : Graph) (x : FleetState) (way : List Decision) (s : Visit → ℕ) → (order : ℕ → Option Side) × IsCandidate g x way s order }
    ensures one { (g : Graph) (x : FleetState) (way : List Decision) (s : Visit → ℕ) (a b : ℕ → Option Side) → IsFleetState g x → IsCandidate g x way s a → IsCandidate g x way s b → (q : ℕ) → a q ≡ b q }
{}

/// A node has a pair in conflict, or its candidate is sound and costs as little as the node.
pub fn a_node_without_conflict_has_a_sound_candidate()
    ensures { (g : Graph) (x : FleetState) (way : List Decision) (s : Visit → ℕ) (order : ℕ → Option Side) → IsFleetState g x → IsLeastSchedule g x (order_on g x way) s → IsCandidate g x way s order
        → ((q : ℕ) × IsInConflict g x way s q) ⊎ (IsSoundOrder g order × IsCost g x order (end_sum_of g s)) }
{}

/// So a node below a cost that its candidate does not beat has a pair in conflict.
pub fn a_node_below_the_best_has_a_conflict()
    ensures { (g : Graph) (x : FleetState) (way : List Decision) (s : Visit → ℕ) (cost : ℕ) → IsFleetState g x → IsLeastSchedule g x (order_on g x way) s → IsNoCheaper g x cost way → end_sum_of g s < cost
        → (q : ℕ) × IsInConflict g x way s q }
{}

/// What is said of the one candidate of one least schedule says it of all: where it costs no less than a cost, or is not
/// sound, the part decision's candidate is no cheaper.
pub fn one_candidate_weighs()
    ensures { (g : Graph) (x : FleetState) (way : List Decision) (s : Visit → ℕ) (order : ℕ → Option Side) (cost : ℕ) → IsFleetState g x → IsLeastSchedule g x (order_on g x way) s → IsCandidate g x way s order
        → (IsSoundOrder g order → (c : ℕ) → IsCost g x order c → cost ≤ c) → IsNoCheaper g x cost way }
{}

/// An order that keeps the closed pairs is that of the state after the pairs are switched whose sides differ. These are open,
/// the order after them is sound, and what is chosen as an order is a choice of these pairs.
pub fn chosen_orders_are_switches()
    ensures are_open { (g : Graph) (x : FleetState) (order : ℕ → Option Side) (switched : List PairId) → IsFleetState g x → IsSoundOrder g order → KeepsClosed g x order → AreSwitches g x order switched → (q : PairId) → Contains switched q → is_open g x q.0 ≡ true }
    ensures sound { (g : Graph) (x : FleetState) (order : ℕ → Option Side) (switched : List PairId) → IsFleetState g x → IsSoundOrder g order → KeepsClosed g x order → AreSwitches g x order switched → IsSoundOrder g (order_of (turned x.sides switched)) }
    ensures choice { (g : Graph) (x : FleetState) (order : ℕ → Option Side) (switched : List PairId) (budget cost : ℕ) (outcome : Outcome) → IsFleetState g x → IsSoundOrder g order → KeepsClosed g x order → AreSwitches g x order switched
        → IsChosen g x budget order cost outcome → Choice g x budget switched cost outcome }
{}

/// No order without a cycle that gives each open pair a side, and the closed ones their own, costs less than an optimal choice.
pub fn optimal_choices_are_cheapest()
    ensures { (g : Graph) (x : FleetState) (budget cost c : ℕ) (order other : ℕ → Option Side) (cert : List Node) (list : List Visit) → IsFleetState g x → IsChosen g x budget order cost (Optimal cert)
        → KeepsClosed g x other → ((q : ℕ) → is_open g x q ≡ true → IsSome (other q)) → IsSorted g other list → IsCost g x other c → cost ≤ c }
{}

/// What is left of a spent choice is below its cost, and no lawful schedule costs less than that.
pub fn spent_choices_bound_schedules()
    ensures below { (g : Graph) (x : FleetState) (budget cost least : ℕ) (order : ℕ → Option Side) (cert : List Node) → IsChosen g x budget order cost (Spent cert least) → least < cost }
    ensures bound { (g : Graph) (x : FleetState) (budget cost least : ℕ) (order : ℕ → Option Side) (cert : List Node) (s : Visit → ℕ) → IsFleetState g x → IsChosen g x budget order cost (Spent cert least) → IsLawful g x s → least ≤ end_sum_of g s }
{}

/// With n open groups a choice is spent only for a budget below 2^n - 1.
pub fn large_budgets_end_optimal()
    ensures { (g : Graph) (x : FleetState) (budget cost least : ℕ) (order : ℕ → Option Side) (cert : List Node) (groups : List ℕ) → AreOpenGroups g x groups → IsChosen g x budget order cost (Spent cert least) → budget + 1 < 2 ^ length groups }
{}

/// The state's order is the best one at first.
pub fn the_kept_order_is_best_at_first()
    ensures { (g : Graph) (x : FleetState) (c : ℕ) → IsFleetState g x → IsCost g x (order_at g x) c → IsBest g x (order_at g x) c }
{}

/// A candidate that is sound and costs no more than the best order may take its place, and is then no cheaper than it.
pub fn a_candidate_becomes_the_best()
    ensures { (g : Graph) (x : FleetState) (way : List Decision) (s : Visit → ℕ) (order old : ℕ → Option Side) (c best : ℕ) → IsFleetState g x → IsLeastSchedule g x (order_on g x way) s → IsCandidate g x way s order → IsSoundOrder g order → IsCost g x order c
        → IsBest g x old best → c ≤ best → IsBest g x order c × IsNoCheaper g x c way }
{}

/// Where the root is made and the best order is sound and no dearer than the state's, the search has begun.
pub fn searches_begin()
    ensures { (g : Graph) (x : FleetState) (root : MadeNode) (order : ℕ → Option Side) (best : ℕ) → IsMade g x best [] root → IsBest g x order best → IsSearched g x (root ∷ []) order best 0 0 }
{}

/// A node with the least cost that is left is expanded on a pair in conflict, and its two children are made, with a best order
/// that is no dearer than before: so the search has come one node further.
pub fn searches_go_on()
    ensures { (g : Graph) (x : FleetState) (front back : List MadeNode) (forced : List Forcing) (cost : ℕ) (q : PairId) (lower higher : MadeNode) (way : List Decision) (more : List (List Decision)) (order next : ℕ → Option Side) (best less level expanded : ℕ)
        → IsSearched g x (front ++ record { forced = forced; stand = Waiting cost } ∷ back) order best level expanded
        → AreAbove cost (front ++ record { forced = forced; stand = Waiting cost } ∷ back)
        → ways_past front ([] ∷ []) ≡ way ∷ more
        → ((s : Visit → ℕ) → IsLeastSchedule g x (order_on g x (forced_on forced way)) s → IsInConflict g x (forced_on forced way) s q.0)
        → IsMade g x less (branch_to q Lower ∷ forced_on forced way) lower → IsMade g x less (branch_to q Higher ∷ forced_on forced way) higher
        → less ≤ best → IsBest g x next less
        → IsSearched g x (front ++ record { forced = forced; stand = Expanded cost q } ∷ lower ∷ higher ∷ back) next less cost (expanded + 1) }
{}

/// Where nothing that was written of the nodes made is left open, the best order is an optimal choice.
pub fn searches_end_optimal()
    ensures { (g : Graph) (x : FleetState) (line : List MadeNode) (order : ℕ → Option Side) (best level expanded budget : ℕ) (nodes : List Node) → IsFleetState g x → IsSearched g x line order best level expanded → expanded ≤ budget
        → IsWrittenOf g x best (λ c. ⊥) (λ c. Unit {0}) line ([] ∷ []) nodes → IsChosen g x budget order best (Optimal nodes) }
{}

/// Where the budget is spent and a node waits with the least cost that is left, below the best, the best order is a spent choice.
pub fn searches_end_spent()
    ensures { (g : Graph) (x : FleetState) (line : List MadeNode) (order : ℕ → Option Side) (best level least budget : ℕ) (nodes : List Node) → IsFleetState g x → IsSearched g x line order best level budget → level ≤ least → least < best
        → Contains (map (λ n. n.stand) line) (Waiting least) → IsWrittenOf g x best (λ c. least ≤ c) (λ c. c ≤ least) line ([] ∷ []) nodes → IsChosen g x budget order best (Spent nodes least) }
{}

/// Paths that are as long as the last ticks of a schedule are a Bound for a cost that its sum reaches, and can be written.
pub fn tight_paths_are_a_bound()
    ensures right { (g : Graph) (x : FleetState) (way : List Decision) (s : Visit → ℕ) (cost : ℕ) (pairs_for : ℕ → List PairId) → cost ≤ end_sum_of g s
        → ((i : ℕ) → i < length g.lasts → path_length g x (order_on g x way) i (pairs_for i) ≡ Some (s (record { robot = i; index = last_in g i }))) → IsBound g x way cost (paths_from pairs_for 0 (length g.lasts)) }
    ensures written { (n : ℕ) (pairs_for : ℕ → List PairId) → IsWritten (Bound (paths_from pairs_for 0 n)) }
{}

/// What is written of the nodes made can be printed.
pub fn written_certificates_can_be_printed()
    ensures optimal { (g : Graph) (x : FleetState) (line : List MadeNode) (order : ℕ → Option Side) (best level expanded : ℕ) (nodes : List Node) → IsGraph g → IsSearched g x line order best level expanded
        → IsWrittenOf g x best (λ c. ⊥) (λ c. Unit {0}) line ([] ∷ []) nodes → All IsWritten nodes }
    ensures spent { (g : Graph) (x : FleetState) (line : List MadeNode) (order : ℕ → Option Side) (best level least expanded : ℕ) (nodes : List Node) → IsGraph g → IsSearched g x line order best level expanded
        → IsWrittenOf g x best (λ c. least ≤ c) (λ c. c ≤ least) line ([] ∷ []) nodes → All IsWritten nodes }
{}
