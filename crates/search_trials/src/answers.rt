// What the search answers, led through the checkers.
ghost use Rattle.std.specs.Prelude.{◌≡◌, ◌<◌, ◌^◌, All, length, IfOk};
ghost use Rattle.fleet_base.specs.Rules.{IsFleetState};
ghost use Rattle.cert_tree.specs.CertText.{IsWritten};
ghost use Rattle.cert_check.specs.Rooms.{IsRoomFor};
ghost use Rattle.order_choice.specs.Choices.{cert_of};

use crate::shapes::{Shape, shapes_of};
use bound_search::{Found, Outcome, Room, search};
use cert_check::{Scratch, Verdict, check_optimal, check_spent};
use cert_tree::{Cert, Node, write_cert};
use fleet_base::{Fleet, Items, PairId, Text};
use plan_graph::{Oriented, PlanGraph};
use std::alloc::Global;
use std::test::Fail;

/// What was found, in numbers and text.
#[derive(Debug, Drop)]
pub struct Answer {
    pub cost: u64,
    /// What is left, if the budget was spent.
    pub least: Option<u64>,
    /// The pairs whose sides are not the fleet's.
    pub switched: Vec<u32>,
    /// The certificate: its text, its shape, and how many branches it has.
    pub text: Text,
    pub shapes: Vec<Shape>,
    pub branches: u64,
}

/// The answer of a search with this budget. Its certificate has to pass its checker, and at least two decisions were asked for
/// at each of its branches.
pub fn ask(alloc: Global, graph: &PlanGraph, fleet: &Fleet, budget: u64) -> Result<Answer, Fail>
    requires { IsFleetState graph.now fleet.now }
{
    let found = found(alloc, graph, fleet, budget)?;
    if !passes(alloc, graph, fleet, budget, &found)? {
        return Err(Fail::from("a certificate that passes"));
    }
    told(alloc, graph, fleet, &found)
}

fn found<'g>(
    alloc: Global,
    graph: &'g PlanGraph,
    fleet: &Fleet,
    budget: u64,
) -> Result<Found<'g>, Fail>
    requires { IsFleetState graph.now fleet.now }
    ensures graph { IfOk result (λ found. found.view.graph ≡ graph.now) }
    ensures written { IfOk result (λ found. All IsWritten (cert_of found.outcome)) }
    ensures few { IfOk result (λ found. length (cert_of found.outcome) < 2 ^ 32) }
{
    let mut room = Room::new(alloc, graph)?;
    Ok(search(alloc, graph, fleet, budget, &mut room)?)
}

/// Whether the certificate passes its checker, and two decisions were asked for at each branch.
fn passes(
    alloc: Global,
    graph: &PlanGraph,
    fleet: &Fleet,
    budget: u64,
    found: &Found<'_>,
) -> Result<bool, Fail>
    requires state { IsFleetState graph.now fleet.now }
    requires nodes { All IsWritten (cert_of found.now.outcome) }
    requires few { length (cert_of found.now.outcome) < 2 ^ 32 }
{
    let mut scratch = Scratch::new(alloc, graph)?;
    let verdict = judge(
        graph,
        fleet,
        found.cost,
        budget,
        &found.outcome,
        &mut scratch,
    );
    let branches = branches_in(cert_in(&found.outcome).as_slice());
    Ok(verdict == Verdict::Yes && found.live.asked() >= branches.saturating_mul(2))
}

/// What was found, in numbers and text.
fn told(alloc: Global, graph: &PlanGraph, fleet: &Fleet, found: &Found<'_>) -> Result<Answer, Fail>
    requires state { IsFleetState graph.now fleet.now }
    requires graph { found.now.view.graph ≡ graph.now }
    requires nodes { All IsWritten (cert_of found.now.outcome) }
{
    Ok(Answer {
        cost: found.cost,
        least: least_in(&found.outcome),
        switched: switched_in(alloc, graph, fleet, &found.view)?,
        text: text_of(alloc, &found.outcome)?,
        shapes: shapes_of(alloc, cert_in(&found.outcome).as_slice())?,
        branches: branches_in(cert_in(&found.outcome).as_slice()),
    })
}

fn text_of(alloc: Global, outcome: &Outcome) -> Result<Text, Fail>
    requires { All IsWritten (cert_of outcome.now) }
{
    let mut text = Items::new(alloc);
    write_cert(cert_in(outcome), &mut text)?;
    Ok(text)
}

/// What the checker of an outcome says of its certificate.
fn judge(
    graph: &PlanGraph,
    fleet: &Fleet,
    cost: u64,
    budget: u64,
    outcome: &Outcome,
    scratch: &mut Scratch,
) -> Verdict
    requires state { IsFleetState graph.now fleet.now }
    requires nodes { All IsWritten (cert_of outcome.now) }
    requires few { length (cert_of outcome.now) < 2 ^ 32 }
    requires room { IsRoomFor graph.now scratch.old }
{
    match outcome {
        Outcome::Optimal { cert } => check_optimal(graph, fleet, cost, cert, scratch),
        Outcome::Spent { cert, least } => {
            check_spent(graph, fleet, cost, *least, budget, cert, scratch)
        }
    }
}

fn cert_in(outcome: &Outcome) -> &Cert
    ensures { result.now ≡ cert_of outcome.now }
{
    match outcome {
        Outcome::Optimal { cert } => cert,
        Outcome::Spent { cert, .. } => cert,
    }
}

fn least_in(outcome: &Outcome) -> Option<u64> {
    match outcome {
        Outcome::Optimal { .. } => None,
        Outcome::Spent { least, .. } => Some(*least),
    }
}

/// The pairs to which the view gives another side than the fleet.
fn switched_in(
    alloc: Global,
    graph: &PlanGraph,
    fleet: &Fleet,
    view: &Oriented<'_>,
) -> Result<Vec<u32>, Fail>
    requires state { IsFleetState graph.now fleet.now }
    requires graph { view.now.graph ≡ graph.now }
{
    let mut switched = Vec::new(alloc);
    for number in 0..graph.pair_count() {
        if view.side(PairId(number)) != Some(fleet.side(PairId(number))) {
            switched.push(number)?;
        }
    }
    Ok(switched)
}

fn branches_in(nodes: &[Node]) -> u64 {
    nodes
        .iter()
        .filter(|node| matches!(node, Node::Branch { .. }))
        .count() as u64
}
