// The entry of an accepted report.
ghost use Rattle.std.specs.Prelude.{ℕ, ◌≡◌, ◌<◌, List, All, true, length, IfOk, IfSome, IfNone};
ghost use Rattle.fleet_base.specs.declared.geometry.Visit.{Visit};
ghost use Rattle.fleet_base.specs.Order.{IsSorted, IsCyclic, IsSoundOrder};
ghost use Rattle.fleet_base.specs.Open.{is_open};
ghost use Rattle.fleet_base.specs.State.{FleetState, order_at, IsFleetOf};
ghost use Rattle.fleet_base.specs.Rules.{IsFleetState};
ghost use Rattle.release_rule.specs.Releasing.{HasSidesOf};
ghost use Rattle.fleet_core.specs.declared.entry.PrepareError.TheVariants.{ChoiceRefused};
ghost use Rattle.fleet_core.specs.Step.{Step, IsProposal};
ghost use Rattle.fleet_core.specs.Preparing.{PrepareIs, IsFirstClosed};
ghost use Rattle.fleet_core.specs.Switching.{SwitchIs, OrderIs};

use crate::applying::turn;
use crate::{ChoiceWhy, Entry, PrepareError, heard};
use fleet_base::{Fleet, Items, Memory, PairId, PairList, Report};
use plan_graph::{Oriented, PlanGraph, RankRoom, Ranked, is_open, rank};
use release_rule::{Out, kept_order_releases};
use std::alloc::Global;

/// The entry of an accepted report with the pairs that it is to switch: the step that it makes. The pairs are refused where
/// one of them is not open once the report is applied, the first such named, and where all are open and the order that they
/// lead to is cyclic, the first of them named.
pub fn prepare(
    alloc: Global,
    graph: &PlanGraph,
    fleet: &Fleet,
    report: &Report,
    switched: &PairList,
) -> Result<Entry, PrepareError>
    requires state { IsFleetState graph.now fleet.now }
    requires proposal { IsProposal graph.now fleet.now report.now switched.now }
    ensures report { IfOk result (λ e. e.report ≡ report.now) }
    ensures switched { IfOk result (λ e. e.switched ≡ switched.now) }
    ensures step { IfOk result (λ e. (x' : FleetState) × Step graph.now fleet.now e.report e.switched e.releases x') }
    ensures refused { PrepareIs graph.now fleet.now report.now switched.now result }
{
    let mut next = heard(alloc, fleet, report)?;
    switch(alloc, graph, &mut next, switched.as_slice())?;
    let mut out = Out::new(alloc, graph)?;
    kept_order_releases(graph, &next, &mut out);
    Ok(Entry {
        report: *report,
        switched: Items::from_slice(alloc, switched.as_slice())?,
        releases: Items::from_slice(alloc, out.list())?,
    })
}

/// Turns pairs that are all open, where the order that they lead to has no cycle.
fn switch(
    alloc: Global,
    graph: &PlanGraph,
    fleet: &mut Fleet,
    switched: &[PairId],
) -> Result<(), PrepareError>
    requires fleet { IsFleetOf graph.now fleet.old }
    requires sound { IsSoundOrder graph.now (order_at graph.now fleet.old) }
    requires there { All (λ q. q.0 < length graph.now.pairs) switched.now }
    ensures { SwitchIs graph.now fleet.old fleet.new switched.now result }
{
    let Some(first) = switched.first() else {
        return Ok(());
    };
    if let Some(pair) = first_closed(graph, fleet, switched) {
        return Err(refused(pair, ChoiceWhy::Closed));
    }
    turn(fleet, switched);
    match order_of(alloc, graph, fleet)? {
        Ranked::Order => Ok(()),
        Ranked::Cycle => Err(refused(*first, ChoiceWhy::Cyclic)),
    }
}

fn refused(pair: PairId, why: ChoiceWhy) -> PrepareError
    ensures { result ≡ ChoiceRefused pair why }
{
    PrepareError::ChoiceRefused { pair, why }
}

/// The first of these pairs that is not open.
fn first_closed(graph: &PlanGraph, fleet: &Fleet, switched: &[PairId]) -> Option<PairId>
    requires fleet { IsFleetOf graph.now fleet.now }
    requires there { All (λ q. q.0 < length graph.now.pairs) switched.now }
    ensures closed { IfSome result (IsFirstClosed graph.now fleet.now switched.now) }
    ensures open { IfNone result (All (λ q. is_open graph.now fleet.now q.0 ≡ true) switched.now) }
{
    for q in switched {
        if !is_open(graph, fleet, *q) {
            return Some(*q);
        }
    }
    None
}

/// Whether the fleet's order can be kept: whether all visits can be listed so that each edge goes forward.
fn order_of(alloc: Global, graph: &PlanGraph, fleet: &Fleet) -> Result<Ranked, Memory>
    requires { IsFleetOf graph.now fleet.now }
    ensures { IfOk result (OrderIs graph.now (order_at graph.now fleet.now)) }
{
    let view = view_of(alloc, graph, fleet)?;
    let mut room = RankRoom::new(alloc, graph)?;
    Ok(rank(&view, &mut room))
}

/// The view that gives each pair the side that it has in the fleet.
fn view_of<'g>(alloc: Global, graph: &'g PlanGraph, fleet: &Fleet) -> Result<Oriented<'g>, Memory>
    requires { IsFleetOf graph.now fleet.now }
    ensures graph { IfOk result (λ view. view.graph ≡ graph.now) }
    ensures sides { IfOk result (λ view. HasSidesOf view fleet.now) }
{
    let mut view = graph.orient(alloc)?;
    for number in 0..graph.pair_count() {
        let q = PairId(number);
        view.set(q, Some(fleet.side(q)));
    }
    Ok(view)
}
