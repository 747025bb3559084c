// Least schedules by their definition: ticks are raised round by round until no visit asks for more.
use fleet_base::{Fleet, PairId, Side, Visit};
use plan_graph::{Oriented, PlanGraph};
use std::alloc::Global;
use std::test::Fail;

/// The ticks of the least schedule that obeys a view; none if they never come to rest.
pub fn slow_ticks(
    alloc: Global,
    view: &Oriented<'_>,
    fleet: &Fleet,
) -> Result<Option<Vec<Vec<u64>>>, Fail> {
    let mut ticks = zeros(alloc, view.graph())?;
    for _ in 0..=view.graph().visit_count() {
        if !raise(view, fleet, &mut ticks) {
            return Ok(Some(ticks));
        }
    }
    Ok(None)
}

fn zeros(alloc: Global, graph: &PlanGraph) -> Result<Vec<Vec<u64>>, Fail> {
    let mut ticks = Vec::new(alloc);
    for robot in 0..graph.robots() {
        ticks.push(vec![in alloc; 0; graph.last(robot) as usize + 1]?)?;
    }
    Ok(ticks)
}

/// One round over all visits. Says whether it raised a tick.
fn raise(view: &Oriented<'_>, fleet: &Fleet, ticks: &mut [Vec<u64>]) -> bool {
    let mut raised = false;
    for robot in 0..view.graph().robots() {
        for index in 0..=view.graph().last(robot) {
            raised |= raise_one(view, fleet, ticks, Visit { robot, index });
        }
    }
    raised
}

fn raise_one(view: &Oriented<'_>, fleet: &Fleet, ticks: &mut [Vec<u64>], v: Visit) -> bool {
    let tick = asked(view, fleet, ticks, v);
    let raised = tick != read(ticks, v);
    if let Some(row) = ticks.get_mut(v.robot as usize) {
        if let Some(kept) = row.get_mut(v.index as usize) {
            *kept = tick;
        }
    }
    raised
}

/// What a visit and all visits before it ask for.
fn asked(view: &Oriented<'_>, fleet: &Fleet, ticks: &[Vec<u64>], v: Visit) -> u64 {
    if let Some(arrived) = fleet.arrival_tick(v) {
        return arrived;
    }
    let duration = duration_of(fleet, v);
    let mut tick = match fleet.release_tick(v) {
        Some(released) => fleet.now().max(released.saturating_add(duration)),
        None => fleet.now().saturating_add(duration),
    };
    if let Some(index) = v.index.checked_sub(1) {
        let before = Visit {
            robot: v.robot,
            index,
        };
        tick = tick.max(read(ticks, before).saturating_add(duration));
    }
    for number in 0..view.graph().pair_count() {
        tick = tick.max(asked_by(view, ticks, PairId(number), v, duration));
    }
    tick
}

fn duration_of(fleet: &Fleet, v: Visit) -> u64 {
    if v.robot < fleet.robots() && v.index <= fleet.last(v.robot) {
        fleet.delay(v).saturating_add(1)
    } else {
        1
    }
}

/// What the edge of a pair asks of a visit.
fn asked_by(view: &Oriented<'_>, ticks: &[Vec<u64>], q: PairId, v: Visit, duration: u64) -> u64 {
    if q.0 >= view.graph().pair_count() {
        return 0;
    }
    let pair = view.graph().pair(q);
    let (first, second) = match view.side(q) {
        None => return 0,
        Some(Side::Lower) => (pair.lower, pair.higher),
        Some(Side::Higher) => (pair.higher, pair.lower),
    };
    let tail = Visit {
        robot: first.robot,
        index: first.index.saturating_add(1),
    };
    if second == v && view.graph().has(tail) {
        read(ticks, tail).saturating_add(duration)
    } else {
        0
    }
}

/// The tick of a visit so far.
pub fn read(ticks: &[Vec<u64>], v: Visit) -> u64 {
    match ticks.get(v.robot as usize) {
        Some(row) => row.get(v.index as usize).copied().unwrap_or(0),
        None => 0,
    }
}
