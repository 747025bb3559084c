// What orders cost, by the checkers' rounds and by schedules.
ghost use Rattle.fleet_base.specs.Rules.{IsFleetState};
ghost use Rattle.release_rule.specs.Releasing.{HasSidesOf};
ghost use Rattle.cert_check.specs.Rooms.{IsRoomFor};
ghost use Rattle.longest_path.specs.Ticks.{IsKeptFor};

use crate::scenes::{Scene, corridor, crossing, meetings, state};
use cert_check::{Scratch, order_cost};
use fleet_base::Fleet;
use longest_path::{Ticks, earliest};
use plan_graph::Oriented;
use plan_scenes::{Event, delay, switching, view_of};
use std::alloc::Global;
use std::test::Fail;

/// What the state's own order costs, by rounds and by its least schedule.
fn costs(alloc: Global, scene: &Scene<'_>) -> Result<(u64, u64), Fail> {
    let (graph, fleet) = state(alloc, scene)?;
    let view = view_of(alloc, &graph, &fleet)?;
    let mut scratch = Scratch::new(alloc, &graph)?;
    let mut ticks = Ticks::new(alloc, &graph)?;
    both_costs(&view, &fleet, &mut scratch, &mut ticks)
}

fn both_costs(
    view: &Oriented<'_>,
    fleet: &Fleet,
    scratch: &mut Scratch,
    ticks: &mut Ticks,
) -> Result<(u64, u64), Fail>
    requires state { IsFleetState view.now.graph fleet.now }
    requires sides { HasSidesOf view.now fleet.now }
    requires room { IsRoomFor view.now.graph scratch.old }
    requires ticks { IsKeptFor view.now.graph ticks.old }
{
    let cost = order_cost(view, fleet, scratch);
    match earliest(view, fleet, ticks) {
        Ok(()) => Ok((cost, ticks.end_sum())),
        Err(_) => Err(Fail::from("a schedule")),
    }
}

#[test]
fn orders_have_these_costs(rt: HostRuntime) -> Result<(), Fail> {
    let rows: [([Event; 1], u64); 4] = [
        ([delay(1, 1, 1, 0)], 10),
        ([switching(delay(1, 1, 1, 0), 0)], 9),
        ([delay(0, 1, 5, 0)], 19),
        ([switching(delay(0, 1, 5, 0), 0)], 11),
    ];
    for (number, (steps, want)) in rows.iter().enumerate() {
        let found = costs(rt.alloc(), &crossing(steps))?;
        assert_eq!(rt; found, (*want, *want), "row {number}");
    }
    Ok(())
}

#[test]
fn orders_of_groups_have_these_costs(rt: HostRuntime) -> Result<(), Fail> {
    let steps = [delay(0, 1, 5, 0)];
    let late = costs(rt.alloc(), &corridor(&steps))?;
    assert_eq!(rt; late, (31, 31));
    let first = costs(rt.alloc(), &meetings(&[]))?;
    assert_eq!(rt; first, (31, 31));
    Ok(())
}

#[test]
fn drawn_orders_cost_what_their_schedules_do(rt: HostRuntime) -> Result<(), Fail> {
    for number in 0..120_u64 {
        let draw = number * 2_654_435_761;
        let report = delay(draw % 4, 1 + draw / 4 % 2, 1 + draw / 16 % 40, 0);
        let steps = [match draw / 1024 % 3 {
            0 => switching(report, 5),
            _ => report,
        }];
        let (cost, sum) = costs(rt.alloc(), &meetings(&steps))?;
        assert_eq!(rt; cost, sum, "draw {number}");
    }
    Ok(())
}
