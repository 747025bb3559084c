ghost use Rattle.std.specs.Prelude.{◌≡◌, ◌⊎◌, ◌+◌, ◌*◌, ◌^◌, ◌<◌, ◌≤◌, ℕ, true, false, length, slice_index};
ghost use Rattle.fleet_base.specs.declared.geometry.Visit.{Visit};
ghost use Rattle.fleet_base.specs.Order.{IsVisit, HasEdge, Before, next_visit};
ghost use Rattle.fleet_base.specs.State.{arrived_count, duration_of};
ghost use Rattle.fleet_base.specs.Rules.{IsFleetState};
ghost use Rattle.fleet_base.specs.Schedule.{IsLeastSchedule};
ghost use Rattle.fleet_base.specs.VisitRows.{tick_in, AreRowsFor};
ghost use Rattle.fleet_base.specs.Limits.{moment_limit};
ghost use Rattle.plan_graph.specs.Views.{order_in};
ghost use Rattle.longest_path.specs.Closed.{AgreesOnClosed};
ghost use Rattle.longest_path.specs.Ticks.{schedule_in, IsKeptFor};
ghost use Rattle.longest_path.specs.Kept.{AreSmall};
ghost use Rattle.longest_path.specs.Cells.{HasCell, AreAlike, put, is_marked, mark_count};
ghost use Rattle.longest_path.specs.Rising.{Marked};
ghost use Rattle.longest_path.specs.Falling.{WasAdded, IsFalling, IsWaking, tick_total};

use crate::Ticks;
use crate::agenda::Agenda;
use crate::heads::{head_out_of, pairs_out_of};
use crate::scheduling::earliest_tick;
use crate::ticks::tick_at;
use fleet_base::{Fleet, Items, Visit};
use plan_graph::Oriented;

impl Ticks {
    /// Makes of the least schedule of an order that of the order without one edge, which leads to this visit. It takes no
    /// memory.
    pub(crate) fn settle(
        &mut self,
        view: &Oriented<'_>,
        fleet: &Fleet,
        head: Visit,
        waiting: &mut Agenda,
    )
        requires state { IsFleetState view.now.graph fleet.now }
        requires closed { AgreesOnClosed view.now.graph fleet.now (order_in view.now) }
        requires rows { IsKeptFor view.now.graph self.old }
        requires alike { AreAlike self.old.ticks waiting.old }
        requires none { (v : Visit) → is_marked waiting.old v ≡ false }
        requires there { IsVisit view.now.graph head }
        requires ahead { arrived_count fleet.now head.robot ≤ head.index }
        requires added { WasAdded view.now.graph fleet.now (order_in view.now) head (schedule_in self.old) }
        ensures least { IsLeastSchedule view.now.graph fleet.now (order_in view.now) (schedule_in self.new) }
        ensures rows { IsKeptFor view.now.graph self.new }
        ensures alike { AreAlike self.new.ticks waiting.new }
        ensures none { (v : Visit) → is_marked waiting.new v ≡ false }
    {
        settle(view, fleet, head, &mut self.rows, waiting);
    }
}

/// Lowers the ticks that an edge to a visit held up which was just taken away.
fn settle(
    view: &Oriented<'_>,
    fleet: &Fleet,
    head: Visit,
    rows: &mut Items<Items<u64>>,
    waiting: &mut Agenda,
)
    requires state { IsFleetState view.now.graph fleet.now }
    requires closed { AgreesOnClosed view.now.graph fleet.now (order_in view.now) }
    requires rows { AreRowsFor view.now.graph rows.old }
    requires small { AreSmall rows.old }
    requires alike { AreAlike rows.old waiting.old }
    requires none { (v : Visit) → is_marked waiting.old v ≡ false }
    requires there { IsVisit view.now.graph head }
    requires ahead { arrived_count fleet.now head.robot ≤ head.index }
    requires added { WasAdded view.now.graph fleet.now (order_in view.now) head (tick_in rows.old) }
    ensures least { IsLeastSchedule view.now.graph fleet.now (order_in view.now) (tick_in rows.new) }
    ensures rows { AreRowsFor view.now.graph rows.new }
    ensures small { AreSmall rows.new }
    ensures alike { AreAlike rows.new waiting.new }
    ensures none { (v : Visit) → is_marked waiting.new v ≡ false }
{
    waiting.add(head, tick_at(rows, head));
    while let Some(v) = waiting.take() {
        look_again(view, fleet, v, rows, waiting);
    }
}

/// Lowers a visit to its earliest tick. If it was later, those that rested on it wait.
fn look_again(
    view: &Oriented<'_>,
    fleet: &Fleet,
    v: Visit,
    rows: &mut Items<Items<u64>>,
    waiting: &mut Agenda,
)
    requires state { IsFleetState view.now.graph fleet.now }
    requires closed { AgreesOnClosed view.now.graph fleet.now (order_in view.now) }
    requires there { IsVisit view.now.graph v }
    requires falling { IsFalling view.now.graph fleet.now (order_in view.now) rows.old waiting.old (λ w. Marked waiting.old w ⊎ (w ≡ v)) }
    ensures falling { IsFalling view.now.graph fleet.now (order_in view.now) rows.new waiting.new (Marked waiting.new) }
    ensures less { mark_count waiting.new + 65537 * tick_total rows.new ≤ mark_count waiting.old + 65537 * tick_total rows.old }
{
    let _within = view.graph().robots();
    let before = tick_at(rows, v);
    let tick = earliest_tick(view, fleet, rows, v);
    if tick == before {
        return;
    }
    wake_along(view, fleet, v, before, rows, waiting);
    wake_across(view, fleet, v, before, rows, waiting);
    rows.set_in(v.robot as usize, v.index as usize, tick);
}

/// Adds the next visit of the robot, if it rests on this one.
fn wake_along(
    view: &Oriented<'_>,
    fleet: &Fleet,
    v: Visit,
    tick: u64,
    rows: &Items<Items<u64>>,
    waiting: &mut Agenda,
)
    requires state { IsFleetState view.now.graph fleet.now }
    requires rows { AreRowsFor view.now.graph rows.now }
    requires alike { AreAlike rows.now waiting.old }
    requires there { IsVisit view.now.graph v }
    requires low { tick < 2 * moment_limit }
    ensures waking { IsWaking view.now.graph (order_in view.now) v rows.now waiting.old waiting.new }
    ensures woken { IsVisit view.now.graph (next_visit v) → tick_in rows.now (next_visit v) ≡ tick + duration_of fleet.now (next_visit v) → Marked waiting.new (next_visit v) }
{
    let _within = view.graph().robots();
    if v.index >= view.graph().last(v.robot) {
        return;
    }
    let next = Visit {
        robot: v.robot,
        index: v.index + 1,
    };
    wake_one(fleet, next, tick, rows, waiting);
}

/// Adds the visits that rest on this one by an edge of a pair.
fn wake_across(
    view: &Oriented<'_>,
    fleet: &Fleet,
    v: Visit,
    tick: u64,
    rows: &Items<Items<u64>>,
    waiting: &mut Agenda,
)
    requires state { IsFleetState view.now.graph fleet.now }
    requires rows { AreRowsFor view.now.graph rows.now }
    requires alike { AreAlike rows.now waiting.old }
    requires low { tick < 2 * moment_limit }
    ensures waking { IsWaking view.now.graph (order_in view.now) v rows.now waiting.old waiting.new }
    ensures woken { (q : ℕ) (w : Visit) → HasEdge view.now.graph (order_in view.now) q v w → tick_in rows.now w ≡ tick + duration_of fleet.now w → Marked waiting.new w }
{
    for q in pairs_out_of(view, v) {
        if let Some(head) = head_out_of(view, *q, v) {
            wake_one(fleet, head, tick, rows, waiting);
        }
    }
}

/// Adds a visit, if its move can end no sooner than after one that ends at this tick, and does end then.
fn wake_one(fleet: &Fleet, v: Visit, tick: u64, rows: &Items<Items<u64>>, waiting: &mut Agenda)
    requires there { HasCell rows.now v }
    requires mark { HasCell waiting.old v }
    requires robot { v.robot < length fleet.now.lasts }
    requires index { v.index ≤ slice_index fleet.now.lasts v.robot }
    requires low { tick + duration_of fleet.now v < 2 ^ 64 }
    ensures rests { tick_in rows.now v ≡ tick + duration_of fleet.now v → waiting.new ≡ put waiting.old v true }
    ensures others { (tick_in rows.now v ≡ tick + duration_of fleet.now v → ⊥) → waiting.new ≡ waiting.old }
{
    let here = tick_at(rows, v);
    if here == tick + 1 + fleet.delay(v) {
        waiting.add(v, here);
    }
}
