// The order that is chosen for a report.
ghost use Rattle.std.specs.Prelude.{ℕ, List, ◌≡◌, ◌↔◌, ◌<◌, ◌≤◌, ◌^◌, ◌∷◌, [], All, map, length, true, IsTrue, IfOk};
ghost use Rattle.std.specs.List.Sorted.{IsStrictlyIncreasing};
ghost use Rattle.fleet_base.specs.Order.{IsSoundOrder, order_of, turned};
ghost use Rattle.fleet_base.specs.Open.{is_open, KeepsClosed};
ghost use Rattle.fleet_base.specs.Rules.{IsFleetState};
ghost use Rattle.fleet_base.specs.Limits.{report_limit, pair_limit};
ghost use Rattle.fleet_base.specs.Bytes.{text_of_lines};
ghost use Rattle.plan_graph.specs.Views.{order_in};
ghost use Rattle.cert_tree.specs.CertText.{IsWritten};
ghost use Rattle.order_choice.specs.Choices.{AreSwitches, cert_of};
ghost use Rattle.search_nodes.specs.Rooms.{IsRoomFor};
ghost use Rattle.fleet_core.specs.declared.judging.Judged.TheVariants.{Accept};
ghost use Rattle.fleet_core.specs.Judgement.{judgement_of};
ghost use Rattle.fleet_core.specs.Step.{IsProposal, IsChoice};
ghost use Rattle.report_text.specs.AnswerLine.{answer_line};
ghost use Rattle.fleet_serve.specs.Chosen.{Chooses, TellsChoice, order_answer, choice_lines};

use crate::answer_text::line_text;
use crate::session::Session;
use bound_search::{Found, Outcome, Room, search};
use cert_tree::{Cert, write_cert};
use fleet_base::{Fleet, Memory, PairId, PairList, Report, Text};
use fleet_core::heard;
use plan_graph::{Oriented, PlanGraph};
use report_text::{Answer, push_answer};
use std::alloc::Global;

/// What is chosen for a report: the pairs that are switched, and the text that tells the choice.
#[derive(Drop)]
pub struct Chosen {
    pub switched: PairList,
    pub text: Text,
}

/// Chooses an order for an accepted report: nothing for an arrival, and for a delay what a search finds on the state with the
/// delay applied.
pub fn choose(
    session: &Session<'_>,
    fleet: &Fleet,
    report: &Report,
    room: &mut Room,
) -> Result<Chosen, Memory>
    requires state { IsFleetState session.now.graph.now fleet.now }
    requires accepted { judgement_of fleet.now report.now ≡ Accept }
    requires count { fleet.now.count < report_limit }
    requires room { IsRoomFor session.now.graph.now room.old }
    ensures proposal { IfOk result (λ c. IsProposal session.now.graph.now fleet.now report.now c.switched) }
    ensures choice { IfOk result (λ c. IsChoice session.now.graph.now fleet.now report.now c.switched) }
    ensures few { IfOk result (λ c. length c.switched ≤ pair_limit) }
    ensures tells { IfOk result (λ c. (told : List (List ℕ)) × Chooses session.now.graph.now session.now.settings.now fleet.now report.now c.switched told × (c.text ≡ text_of_lines told)) }
    ensures room { IsRoomFor session.now.graph.now room.new }
{
    match report {
        Report::Arrive { .. } => Ok(Chosen {
            switched: PairList::new(session.alloc),
            text: Text::new(session.alloc),
        }),
        Report::Delay { .. } => {
            let heard = heard(session.alloc, fleet, report)?;
            choose_order(session, &heard, room)
        }
    }
}

/// Chooses an order for a state: the pairs whose sides differ in what a search finds, and the text that tells it.
fn choose_order(session: &Session<'_>, fleet: &Fleet, room: &mut Room) -> Result<Chosen, Memory>
    requires state { IsFleetState session.now.graph.now fleet.now }
    requires room { IsRoomFor session.now.graph.now room.old }
    ensures ascending { IfOk result (λ c. IsStrictlyIncreasing (map (λ q. q.0) c.switched)) }
    ensures there { IfOk result (λ c. All (λ q. q.0 < length session.now.graph.now.pairs) c.switched) }
    ensures open { IfOk result (λ c. All (λ q. is_open session.now.graph.now fleet.now q.0 ≡ true) c.switched) }
    ensures sound { IfOk result (λ c. IsSoundOrder session.now.graph.now (order_of (turned fleet.now.sides c.switched))) }
    ensures few { IfOk result (λ c. length c.switched ≤ pair_limit) }
    ensures tells { IfOk result (λ c. (told : List (List ℕ)) × TellsChoice session.now.graph.now session.now.settings.now fleet.now c.switched told × (c.text ≡ text_of_lines told)) }
    ensures room { IsRoomFor session.now.graph.now room.new }
{
    let &Session {
        alloc,
        graph,
        settings,
        ..
    } = session;
    // A graph has at most 1,048,576 pairs.
    let _robots = graph.robots();
    let found = search(alloc, graph, fleet, settings.budget, room)?;
    let switched = switches(alloc, graph, fleet, &found.view)?;
    let text = choice_text(alloc, &found, switched.as_slice(), settings.quiet)?;
    Ok(Chosen { switched, text })
}

/// The pairs whose sides in a view are not those of the fleet, ascending. They may be switched.
fn switches(
    alloc: Global,
    graph: &PlanGraph,
    fleet: &Fleet,
    view: &Oriented<'_>,
) -> Result<PairList, Memory>
    requires graph { view.now.graph ≡ graph.now }
    requires state { IsFleetState graph.now fleet.now }
    requires sound { IsSoundOrder graph.now (order_in view.now) }
    requires closed { KeepsClosed graph.now fleet.now (order_in view.now) }
    ensures differ { IfOk result (AreSwitches graph.now fleet.now (order_in view.now)) }
    ensures open { IfOk result (All (λ q. is_open graph.now fleet.now q.0 ≡ true)) }
    ensures sound { IfOk result (λ switched. IsSoundOrder graph.now (order_of (turned fleet.now.sides switched))) }
    ensures few { IfOk result (λ switched. length switched ≤ length graph.now.pairs) }
{
    let mut switched = PairList::new(alloc);
    for number in 0..graph.pair_count() {
        let q = PairId(number);
        if !keeps_side(fleet, view, q) {
            switched.push(q)?;
        }
    }
    Ok(switched)
}

/// Whether a pair has the same side in a view as in the fleet.
fn keeps_side(fleet: &Fleet, view: &Oriented<'_>, q: PairId) -> bool
    requires view { q.0 < length view.now.graph.pairs }
    requires fleet { q.0 < length fleet.now.sides }
    ensures { IsTrue result ↔ (order_in view.now q.0 ≡ order_of fleet.now.sides q.0) }
{
    view.side(q) == Some(fleet.side(q))
}

/// The text that tells what was found: the line of the order, those of the switched pairs, and unless it is quiet those of the
/// certificate.
fn choice_text(
    alloc: Global,
    found: &Found<'_>,
    switched: &[PairId],
    quiet: bool,
) -> Result<Text, Memory>
    requires { All IsWritten (cert_of found.now.outcome) }
    ensures { IfOk result (λ text. text ≡ text_of_lines (choice_lines quiet switched.now found.now.cost found.now.outcome)) }
{
    let mut text = order_text(alloc, found)?;
    for pair in switched {
        push_answer(&mut text, &Answer::Switch { pair: *pair })?;
    }
    if !quiet {
        write_cert(certificate(&found.outcome), &mut text)?;
    }
    Ok(text)
}

/// The line that says what the order costs.
fn order_text(alloc: Global, found: &Found<'_>) -> Result<Text, Memory>
    ensures { IfOk result (λ text. text ≡ text_of_lines (answer_line (order_answer found.now.cost found.now.outcome) ∷ [])) }
{
    let cost = found.cost;
    match found.outcome {
        Outcome::Optimal { .. } => line_text(alloc, Answer::Optimal { cost }),
        Outcome::Spent { least, .. } => line_text(alloc, Answer::Spent { cost, least }),
    }
}

/// The certificate of an outcome.
fn certificate(outcome: &Outcome) -> &Cert
    ensures { result.now ≡ cert_of outcome.now }
{
    match outcome {
        Outcome::Optimal { cert } => cert,
        Outcome::Spent { cert, .. } => cert,
    }
}
