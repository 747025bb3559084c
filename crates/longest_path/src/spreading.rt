ghost use Rattle.std.specs.Prelude.{◌≡◌, ◌⊎◌, ◌+◌, ◌*◌, ◌^◌, ◌<◌, ◌≤◌, ℕ, true, false};
ghost use Rattle.fleet_base.specs.declared.geometry.Visit.{Visit};
ghost use Rattle.fleet_base.specs.Order.{IsVisit, HasEdge, IsCyclic, next_visit};
ghost use Rattle.fleet_base.specs.State.{duration_of};
ghost use Rattle.fleet_base.specs.Rules.{IsFleetState};
ghost use Rattle.fleet_base.specs.Schedule.{IsLeastSchedule};
ghost use Rattle.fleet_base.specs.VisitRows.{tick_in, AreRowsFor};
ghost use Rattle.plan_graph.specs.Views.{order_in};
ghost use Rattle.longest_path.specs.Closed.{AgreesOnClosed};
ghost use Rattle.longest_path.specs.Ticks.{schedule_in, IsKeptFor};
ghost use Rattle.longest_path.specs.Kept.{AreSmall};
ghost use Rattle.longest_path.specs.Cells.{mark_count};
ghost use Rattle.longest_path.specs.Working.{IsWorkFor, IsIdle, IsKeptBy};
ghost use Rattle.longest_path.specs.Rising.{IsUnderWay, IsHanding, IsAdded, Marked, headroom};

use crate::Ticks;
use crate::heads::{head_out_of, pairs_out_of};
use crate::ticks::tick_at;
use crate::work::Work;
use fleet_base::{Edge, Fleet, Items, Visit};
use plan_graph::Oriented;

impl Ticks {
    /// Makes of the least schedule of an order that of the order with one edge more, and says whether there is one. It stays
    /// where the edge closes a cycle. It takes no memory.
    pub(crate) fn obey(
        &mut self,
        view: &Oriented<'_>,
        fleet: &Fleet,
        edge: Edge,
        work: &mut Work,
    ) -> bool
        requires state { IsFleetState view.now.graph fleet.now }
        requires closed { AgreesOnClosed view.now.graph fleet.now (order_in view.now) }
        requires rows { IsKeptFor view.now.graph self.old }
        requires room { IsWorkFor self.old.ticks work.old }
        requires idle { IsIdle work.old }
        requires added { IsAdded view.now.graph fleet.now (order_in view.now) edge (schedule_in self.old) }
        ensures least { result ≡ true → IsLeastSchedule view.now.graph fleet.now (order_in view.now) (schedule_in self.new) }
        ensures stays { result ≡ false → (v : Visit) → schedule_in self.new v ≡ schedule_in self.old v }
        ensures cyclic { result ≡ false → IsCyclic view.now.graph (order_in view.now) }
        ensures rows { IsKeptFor view.now.graph self.new }
        ensures room { IsWorkFor self.new.ticks work.new }
        ensures idle { IsIdle work.new }
    {
        obey(view, fleet, edge, &mut self.rows, work)
    }
}

/// Raises the ticks that an edge asks for which was just given. Where that closes a cycle the ticks stay, and it says so.
fn obey(
    view: &Oriented<'_>,
    fleet: &Fleet,
    edge: Edge,
    rows: &mut Items<Items<u64>>,
    work: &mut Work,
) -> bool
    requires state { IsFleetState view.now.graph fleet.now }
    requires closed { AgreesOnClosed view.now.graph fleet.now (order_in view.now) }
    requires rows { AreRowsFor view.now.graph rows.old }
    requires small { AreSmall rows.old }
    requires room { IsWorkFor rows.old work.old }
    requires idle { IsIdle work.old }
    requires added { IsAdded view.now.graph fleet.now (order_in view.now) edge (tick_in rows.old) }
    ensures least { result ≡ true → IsLeastSchedule view.now.graph fleet.now (order_in view.now) (tick_in rows.new) }
    ensures stays { result ≡ false → (v : Visit) → tick_in rows.new v ≡ tick_in rows.old v }
    ensures cyclic { result ≡ false → IsCyclic view.now.graph (order_in view.now) }
    ensures rows { AreRowsFor view.now.graph rows.new }
    ensures small { AreSmall rows.new }
    ensures room { IsWorkFor rows.new work.new }
    ensures idle { IsIdle work.new }
{
    let _within = view.graph().robots();
    let given = tick_at(rows, edge.tail);
    work.raise(rows, edge.head, given + 1 + fleet.delay(edge.head));
    let obeyed = spread(view, fleet, edge.tail, given, rows, work);
    if obeyed {
        work.keep();
    } else {
        work.take_back(rows);
    }
    obeyed
}

/// Lets each visit that waits hand its tick on, until none waits or this one no longer has its tick. Says whether none waits.
fn spread(
    view: &Oriented<'_>,
    fleet: &Fleet,
    tail: Visit,
    given: u64,
    rows: &mut Items<Items<u64>>,
    work: &mut Work,
) -> bool
    requires state { IsFleetState view.now.graph fleet.now }
    requires closed { AgreesOnClosed view.now.graph fleet.now (order_in view.now) }
    requires rows { AreRowsFor view.now.graph rows.old }
    requires room { IsWorkFor rows.old work.old }
    requires tail { IsVisit view.now.graph tail }
    requires under_way { IsUnderWay view.now.graph fleet.now (order_in view.now) tail given (tick_in rows.old) (Marked work.old.waiting) }
    ensures least { result ≡ true → IsLeastSchedule view.now.graph fleet.now (order_in view.now) (tick_in rows.new) }
    ensures cyclic { result ≡ false → IsCyclic view.now.graph (order_in view.now) }
    ensures rows { AreRowsFor view.now.graph rows.new }
    ensures room { IsWorkFor rows.new work.new }
    ensures kept { (base : Visit → ℕ) → IsKeptBy base rows.old work.old → IsKeptBy base rows.new work.new }
{
    while tick_at(rows, tail) == given {
        match work.waiting.take() {
            Some(v) => hand_on(view, fleet, v, rows, work),
            None => return true,
        }
    }
    false
}

/// Raises what the edges out of a visit lead to.
fn hand_on(
    view: &Oriented<'_>,
    fleet: &Fleet,
    v: Visit,
    rows: &mut Items<Items<u64>>,
    work: &mut Work,
)
    requires state { IsFleetState view.now.graph fleet.now }
    requires closed { AgreesOnClosed view.now.graph fleet.now (order_in view.now) }
    requires rows { AreRowsFor view.now.graph rows.old }
    requires room { IsWorkFor rows.old work.old }
    requires there { IsVisit view.now.graph v }
    requires low { tick_in rows.old v < 2 ^ 43 }
    ensures rows { AreRowsFor view.now.graph rows.new }
    ensures room { IsWorkFor rows.new work.new }
    ensures kept { (base : Visit → ℕ) → IsKeptBy base rows.old work.old → IsKeptBy base rows.new work.new }
    ensures less { mark_count work.new.waiting + headroom rows.new ≤ mark_count work.old.waiting + headroom rows.old }
    ensures under_way { (tail : Visit) (given : ℕ) → (tail ≡ v → ⊥) → IsUnderWay view.now.graph fleet.now (order_in view.now) tail given (tick_in rows.old) (λ w. Marked work.old.waiting w ⊎ (w ≡ v)) → IsUnderWay view.now.graph fleet.now (order_in view.now) tail given (tick_in rows.new) (Marked work.new.waiting) }
{
    let tick = tick_at(rows, v);
    hand_along(view, fleet, v, tick, rows, work);
    hand_across(view, fleet, v, tick, rows, work);
}

/// Raises the next visit of the robot, if there is one.
fn hand_along(
    view: &Oriented<'_>,
    fleet: &Fleet,
    v: Visit,
    tick: u64,
    rows: &mut Items<Items<u64>>,
    work: &mut Work,
)
    requires state { IsFleetState view.now.graph fleet.now }
    requires closed { AgreesOnClosed view.now.graph fleet.now (order_in view.now) }
    requires rows { AreRowsFor view.now.graph rows.old }
    requires room { IsWorkFor rows.old work.old }
    requires there { IsVisit view.now.graph v }
    requires here { tick_in rows.old v ≡ tick }
    requires low { tick < 2 ^ 43 }
    ensures handing { IsHanding view.now.graph fleet.now (order_in view.now) v tick rows.old work.old rows.new work.new }
    ensures obeyed { IsVisit view.now.graph (next_visit v) → tick + duration_of fleet.now (next_visit v) ≤ tick_in rows.new (next_visit v) }
{
    let _within = view.graph().robots();
    if v.index >= view.graph().last(v.robot) {
        return;
    }
    let next = Visit {
        robot: v.robot,
        index: v.index + 1,
    };
    work.raise(rows, next, tick + 1 + fleet.delay(next));
}

/// Raises what the edges of pairs out of a visit lead to.
fn hand_across(
    view: &Oriented<'_>,
    fleet: &Fleet,
    v: Visit,
    tick: u64,
    rows: &mut Items<Items<u64>>,
    work: &mut Work,
)
    requires state { IsFleetState view.now.graph fleet.now }
    requires closed { AgreesOnClosed view.now.graph fleet.now (order_in view.now) }
    requires rows { AreRowsFor view.now.graph rows.old }
    requires room { IsWorkFor rows.old work.old }
    requires here { tick_in rows.old v ≡ tick }
    requires low { tick < 2 ^ 43 }
    ensures handing { IsHanding view.now.graph fleet.now (order_in view.now) v tick rows.old work.old rows.new work.new }
    ensures obeyed { (q : ℕ) (w : Visit) → HasEdge view.now.graph (order_in view.now) q v w → tick + duration_of fleet.now w ≤ tick_in rows.new w }
{
    for q in pairs_out_of(view, v) {
        if let Some(head) = head_out_of(view, *q, v) {
            work.raise(rows, head, tick + 1 + fleet.delay(head));
        }
    }
}
