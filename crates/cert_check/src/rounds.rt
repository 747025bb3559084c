ghost use Rattle.std.specs.Prelude.{◌≡◌, ◌<◌, ◌≤◌, ◌+◌, ◌*◌, ◌^◌, ◌↔◌, true, false, ℕ, List, length, map, IsTrue, slice_index};
ghost use Rattle.fleet_base.specs.declared.geometry.Visit.{Visit};
ghost use Rattle.fleet_base.specs.Lists.{row_of};
ghost use Rattle.fleet_base.specs.Order.{IsVisit, IsSorted, IsCyclic, last_in};
ghost use Rattle.fleet_base.specs.State.{duration_of, arrived_count};
ghost use Rattle.fleet_base.specs.Rules.{IsFleetState};
ghost use Rattle.fleet_base.specs.Schedule.{IsLeastSchedule, end_sum_of, own_tick, IsBelowAll};
ghost use Rattle.fleet_base.specs.Paths.{edge_in};
ghost use Rattle.fleet_base.specs.VisitRows.{tick_in, AreRowsFor, KeepsRows};
ghost use Rattle.cert_check.specs.Sides.{order_by, HasSides};
ghost use Rattle.cert_check.specs.Rounds.{edge_bound, raised, IsPast, IsBelow, HasRounds, IsSettled, Raises, RaisesAll};

use crate::edges::find_edge;
use fleet_base::{Fleet, Items, PairId, Side, Visit};
use plan_graph::PlanGraph;

/// For each robot a tick for each of its visits.
pub(crate) type Ticks = Items<Items<u64>>;

/// Raises all ticks to the least schedule that obeys the closed pairs and the decided ones, if there is one. Else these
/// pairs have a cycle.
pub(crate) fn relax(
    graph: &PlanGraph,
    fleet: &Fleet,
    sides: &[Option<Side>],
    ticks: &mut Ticks,
) -> bool
    requires state { IsFleetState graph.now fleet.now }
    requires sides { HasSides graph.now sides.now }
    requires ticks { AreRowsFor graph.now ticks.old }
    ensures least { result ≡ true → IsLeastSchedule graph.now fleet.now (order_by graph.now fleet.now sides.now) (tick_in ticks.new) }
    ensures cyclic { result ≡ false → IsCyclic graph.now (order_by graph.now fleet.now sides.now) }
    ensures bound { IsBelow (2 ^ 62) (tick_in ticks.new) }
    ensures rows { KeepsRows ticks.old ticks.new }
{
    let _within = graph.robots();
    forget(ticks);
    for _round in 0..graph.visit_count() + 1 {
        if !raise_all(graph, fleet, sides, ticks) {
            return true;
        }
    }
    false
}

/// Sets all ticks to 0.
fn forget(ticks: &mut Ticks)
    ensures zero { (v : Visit) → tick_in ticks.new v ≡ 0 }
    ensures rows { KeepsRows ticks.old ticks.new }
{
    for robot in 0..ticks.as_slice().len() {
        for index in 0..ticks.row(robot).len() {
            ticks.set_in(robot, index, 0);
        }
    }
}

/// One round over all visits: whether a tick was raised.
fn raise_all(graph: &PlanGraph, fleet: &Fleet, sides: &[Option<Side>], ticks: &mut Ticks) -> bool
    requires state { IsFleetState graph.now fleet.now }
    requires sides { HasSides graph.now sides.now }
    requires ticks { AreRowsFor graph.now ticks.old }
    requires bound { IsBelow (2 ^ 61) (tick_in ticks.old) }
    ensures raises { RaisesAll graph.now fleet.now (order_by graph.now fleet.now sides.now) (tick_in ticks.old) (tick_in ticks.new) result }
    ensures rows { KeepsRows ticks.old ticks.new }
{
    let _within = graph.robots();
    let mut raised = false;
    for robot in 0..graph.robots() {
        for index in 0..graph.last(robot) + 1 {
            if raise(graph, fleet, sides, ticks, Visit { robot, index }) {
                raised = true;
            }
        }
    }
    raised
}

/// Raises the tick of one visit to what is asked of it: whether it was below.
fn raise(
    graph: &PlanGraph,
    fleet: &Fleet,
    sides: &[Option<Side>],
    ticks: &mut Ticks,
    v: Visit,
) -> bool
    requires state { IsFleetState graph.now fleet.now }
    requires sides { HasSides graph.now sides.now }
    requires ticks { AreRowsFor graph.now ticks.old }
    requires there { IsVisit graph.now v }
    requires bound { IsBelow (2 ^ 62) (tick_in ticks.old) }
    ensures raises { Raises graph.now fleet.now (order_by graph.now fleet.now sides.now) (tick_in ticks.old) (tick_in ticks.new) v result }
    ensures rows { KeepsRows ticks.old ticks.new }
{
    let tick = asked_of(graph, fleet, sides, ticks, v);
    let robot = v.robot as usize;
    let index = v.index as usize;
    if tick <= ticks.row(robot)[index] {
        return false;
    }
    ticks.set_in(robot, index, tick);
    true
}

/// The least tick that is asked of a visit.
fn asked_of(
    graph: &PlanGraph,
    fleet: &Fleet,
    sides: &[Option<Side>],
    ticks: &Ticks,
    v: Visit,
) -> u64
    requires state { IsFleetState graph.now fleet.now }
    requires sides { HasSides graph.now sides.now }
    requires ticks { AreRowsFor graph.now ticks.now }
    requires there { IsVisit graph.now v }
    requires bound { IsBelow (2 ^ 62) (tick_in ticks.now) }
    ensures { result ≡ raised graph.now fleet.now (order_by graph.now fleet.now sides.now) (tick_in ticks.now) v }
{
    if let Some(tick) = fleet.arrival_tick(v) {
        return tick;
    }
    let mut tick = fleet.own_tick(v);
    if v.index > 0 {
        let duration = fleet.duration(v);
        tick = tick.max(ticks.row(v.robot as usize)[v.index as usize - 1] + duration);
    }
    for q in graph.pairs_of(v) {
        tick = tick.max(asked_by(graph, fleet, sides, ticks, v, *q));
    }
    tick
}

/// What the edge of a pair asks of a visit.
fn asked_by(
    graph: &PlanGraph,
    fleet: &Fleet,
    sides: &[Option<Side>],
    ticks: &Ticks,
    v: Visit,
    q: PairId,
) -> u64
    requires state { IsFleetState graph.now fleet.now }
    requires sides { HasSides graph.now sides.now }
    requires ticks { AreRowsFor graph.now ticks.now }
    requires there { IsVisit graph.now v }
    requires bound { IsBelow (2 ^ 62) (tick_in ticks.now) }
    ensures { result ≡ edge_bound fleet.now (tick_in ticks.now) v (edge_in graph.now (order_by graph.now fleet.now sides.now) q.0) }
{
    match find_edge(graph, fleet, sides, q) {
        Some(edge) if edge.head == v => tick_of(graph, ticks, edge.tail) + fleet.duration(v),
        _ => 0,
    }
}

/// The tick of a visit.
pub(crate) fn tick_of(graph: &PlanGraph, ticks: &Ticks, v: Visit) -> u64
    requires ticks { AreRowsFor graph.now ticks.now }
    requires there { IsVisit graph.now v }
    ensures { result ≡ tick_in ticks.now v }
{
    ticks.row(v.robot as usize)[v.index as usize]
}

/// The sum of the ticks of the robots' last visits.
pub(crate) fn end_sum(graph: &PlanGraph, ticks: &Ticks) -> u128
    requires ticks { AreRowsFor graph.now ticks.now }
    requires bound { IsBelow (2 ^ 62) (tick_in ticks.now) }
    ensures { result ≡ end_sum_of graph.now (tick_in ticks.now) }
{
    let _within = graph.robots();
    let mut sum = 0_u128;
    for robot in 0..graph.robots() {
        let index = graph.last(robot);
        sum += u128::from(tick_of(graph, ticks, Visit { robot, index }));
    }
    sum
}
