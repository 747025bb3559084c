ghost use Rattle.std.specs.Prelude.{◌≡◌, ◌<◌, ◌↔◌, ℕ, List, IsTrue, Contains, length, vec_len, reverse};
ghost use Rattle.fleet_base.specs.Order.{Graph};
ghost use Rattle.fleet_base.specs.Rules.{IsFleetState};
ghost use Rattle.fleet_base.specs.Groups.{AreGrouped, IsInOpenGroup};
ghost use Rattle.edge_groups.specs.Mates.{AreAllMates};
ghost use Rattle.cert_tree.specs.Decisions.{Decision};
ghost use Rattle.cert_tree.specs.GroupRules.{branch_pairs, IsNewGroup, HasGroupLeft};
ghost use Rattle.cert_check.specs.Judging.{Gives, JudgesGroup};
ghost use Rattle.cert_check.specs.Sides.{HasSides};
ghost use Rattle.cert_check.specs.Taken.{AreTaken};
ghost use Rattle.cert_check.specs.Ways.{HasWay, DecidesFree, AreWithin, way_of};

use crate::NoWhy;
use crate::edges::is_free;
use crate::way::Step;
use crate::workspace::Workspace;
use cert_tree::Node;
use edge_groups::GroupTable;
use fleet_base::{Fleet, PairId, Side};
use plan_graph::{PlanGraph, is_open};

/// The word on groups that fits a node of a spent tree, given the way to it.
pub(crate) fn judge_group(
    graph: &PlanGraph,
    fleet: &Fleet,
    node: &Node,
    work: &mut Workspace,
) -> Option<NoWhy>
    requires state { IsFleetState graph.now fleet.now }
    requires sides { HasSides graph.now work.old.way.sides.items }
    requires way { HasWay work.old.way (reverse work.old.way.steps.items) }
    requires free { DecidesFree work.old.way node.now }
    requires groups { AreAllMates graph.now work.old.groups }
    requires taken { vec_len work.old.taken ≡ length graph.now.pairs }
    ensures word { JudgesGroup graph.now fleet.now (way_of (reverse work.old.way.steps.items)) node.now result }
    ensures way { work.new.way ≡ work.old.way }
    ensures ticks { work.new.ticks ≡ work.old.ticks }
    ensures sums { work.new.sums ≡ work.old.sums }
    ensures groups { work.new.groups ≡ work.old.groups }
    ensures taken { vec_len work.new.taken ≡ vec_len work.old.taken }
{
    match node {
        Node::Branch { pair } => {
            if is_new_group(graph, fleet, &work.groups, &work.way.steps, *pair) {
                None
            } else {
                Some(NoWhy::Group)
            }
        }
        Node::OpenLeaf { .. } => {
            let groups = &work.groups;
            if has_group_left(graph, fleet, groups, &work.way.sides, &mut work.taken) {
                None
            } else {
                Some(NoWhy::Leaf)
            }
        }
        _ => None,
    }
}

/// Whether the group of a pair is open and was not branched on.
fn is_new_group(
    graph: &PlanGraph,
    fleet: &Fleet,
    groups: &GroupTable,
    steps: &[Step],
    q: PairId,
) -> bool
    requires state { IsFleetState graph.now fleet.now }
    requires groups { AreAllMates graph.now groups.now }
    requires steps { AreWithin (length graph.now.pairs) (reverse steps.now) }
    requires pair { q.0 < length graph.now.pairs }
    ensures { IsTrue result ↔ IsNewGroup graph.now fleet.now (way_of (reverse steps.now)) q.0 }
{
    is_in_open_group(graph, fleet, groups, q) && !is_branched_on(groups, steps, q)
}

/// Whether the group of a pair has no closed pair.
fn is_in_open_group(graph: &PlanGraph, fleet: &Fleet, groups: &GroupTable, q: PairId) -> bool
    requires state { IsFleetState graph.now fleet.now }
    requires groups { AreAllMates graph.now groups.now }
    requires pair { q.0 < length graph.now.pairs }
    ensures { IsTrue result ↔ IsInOpenGroup graph.now fleet.now q.0 }
{
    let group = groups.group_of(q);
    for number in 0..graph.pair_count() {
        let other = PairId(number);
        if groups.group_of(other) == group && !is_open(graph, fleet, other) {
            return false;
        }
    }
    true
}

/// Whether one of these steps branched on the group of a pair.
fn is_branched_on(groups: &GroupTable, steps: &[Step], q: PairId) -> bool
    requires steps { AreWithin (length groups.now) (reverse steps.now) }
    requires pair { q.0 < length groups.now }
    ensures { (g : Graph) → AreAllMates g groups.now → IsTrue result ↔ ((r : ℕ) × Contains (branch_pairs (way_of (reverse steps.now))) r × AreGrouped g q.0 r) }
{
    let group = groups.group_of(q);
    for step in steps {
        if let Some(pair) = step.branched_on() {
            if groups.group_of(pair) == group {
                return true;
            }
        }
    }
    false
}

/// Whether some group has no pair that is closed or decided.
fn has_group_left(
    graph: &PlanGraph,
    fleet: &Fleet,
    groups: &GroupTable,
    sides: &[Option<Side>],
    taken: &mut [bool],
) -> bool
    requires state { IsFleetState graph.now fleet.now }
    requires groups { AreAllMates graph.now groups.now }
    requires sides { HasSides graph.now sides.now }
    requires taken { length taken.old ≡ length graph.now.pairs }
    ensures left { (way : List Decision) → Gives way sides.now → IsTrue result ↔ HasGroupLeft graph.now fleet.now way }
    ensures taken { length taken.new ≡ length taken.old }
{
    take_groups(graph, fleet, groups, sides, taken);
    for number in 0..graph.pair_count() {
        let group = groups.group_of(PairId(number));
        if !taken[group.0 as usize] {
            return true;
        }
    }
    false
}

/// Notes for each group whether it has a pair that is closed or decided.
fn take_groups(
    graph: &PlanGraph,
    fleet: &Fleet,
    groups: &GroupTable,
    sides: &[Option<Side>],
    taken: &mut [bool],
)
    requires state { IsFleetState graph.now fleet.now }
    requires groups { AreAllMates graph.now groups.now }
    requires sides { HasSides graph.now sides.now }
    requires taken { length taken.old ≡ length graph.now.pairs }
    ensures groups { AreTaken graph.now fleet.now sides.now (length graph.now.pairs) taken.new }
    ensures taken { length taken.new ≡ length taken.old }
{
    taken.fill(false);
    for number in 0..graph.pair_count() {
        let q = PairId(number);
        if !is_free(graph, fleet, sides, q) {
            let group = groups.group_of(q);
            taken[group.0 as usize] = true;
        }
    }
}
