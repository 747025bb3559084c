// The search for a cheaper order.
ghost use Rattle.std.specs.Prelude.{ℕ, ◌≡◌, ◌+◌, ◌*◌, ◌<◌, ◌≤◌, ◌^◌, List, All, length, IfOk};
ghost use Rattle.fleet_base.specs.Groups.{AreOpenGroups};
ghost use Rattle.fleet_base.specs.Order.{IsSoundOrder};
ghost use Rattle.fleet_base.specs.Rules.{IsFleetState};
ghost use Rattle.fleet_base.specs.Open.{KeepsClosed};
ghost use Rattle.plan_graph.specs.Views.{order_in};
ghost use Rattle.cert_tree.specs.declared.node.Node.{Node};
ghost use Rattle.cert_tree.specs.CertText.{IsWritten};
ghost use Rattle.cert_tree.specs.Preorder.{branches_in};
ghost use Rattle.order_choice.specs.declared.outcome.Outcome.TheVariants.{Spent};
ghost use Rattle.order_choice.specs.Choices.{IsChosen, cert_of};
ghost use Rattle.search_nodes.specs.Rooms.{IsRoomFor};
ghost use Rattle.bound_search.specs.UnderWay.{outcome_of};

use crate::under_way::Search;
use crate::{Found, Outcome, Room};
use cert_tree::Cert;
use fleet_base::{Fleet, Memory};
use plan_graph::PlanGraph;
use std::alloc::Global;

/// Searches for an order that costs less than the fleet's, and expands at most `budget` nodes. The order found is sound,
/// differs from the fleet's in open pairs alone, and with its cost and outcome is a choice. For want of memory there is
/// none, and the room stays one for the graph. A certificate of 2^32 nodes counts as want of memory.
pub fn search<'g>(
    alloc: Global,
    graph: &'g PlanGraph,
    fleet: &Fleet,
    budget: u64,
    room: &mut Room,
) -> Result<Found<'g>, Memory>
    requires state { IsFleetState graph.now fleet.now }
    requires room { IsRoomFor graph.now room.old }
    ensures graph { IfOk result (λ found. found.view.graph ≡ graph.now) }
    ensures sound { IfOk result (λ found. IsSoundOrder graph.now (order_in found.view)) }
    ensures closed { IfOk result (λ found. KeepsClosed graph.now fleet.now (order_in found.view)) }
    ensures choice { IfOk result (λ found. IsChosen graph.now fleet.now budget (order_in found.view) found.cost found.outcome) }
    ensures written { IfOk result (λ found. All IsWritten (cert_of found.outcome)) }
    ensures few { IfOk result (λ found. length (cert_of found.outcome) < 2 ^ 32) }
    ensures within { IfOk result (λ found. (cert : List Node) (least : ℕ) (groups : List ℕ) → found.outcome ≡ Spent cert least → AreOpenGroups graph.now fleet.now groups → budget + 1 < 2 ^ length groups) }
    ensures asked { IfOk result (λ found. 2 * branches_in (cert_of found.outcome) ≤ found.live.asked) }
    ensures room { IsRoomFor graph.now room.new }
{
    let mut search = Search::begin(alloc, graph, fleet, room)?;
    let left = search.run(alloc, room, budget)?;
    let cert = search.certificate(alloc)?;
    let cost = search.maker.cost();
    let (view, live) = search.maker.finish();
    Ok(Found {
        view,
        cost,
        outcome: outcome(cert, left),
        live,
    })
}

/// What a search found out of the best order's cost: nothing is left that might be cheaper, or so much is.
fn outcome(cert: Cert, left: Option<u64>) -> Outcome
    ensures { result ≡ outcome_of cert left }
{
    match left {
        None => Outcome::Optimal { cert },
        Some(least) => Outcome::Spent { cert, least },
    }
}
