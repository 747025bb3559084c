ghost use Rattle.std.specs.Prelude.{ℕ, ◌≡◌, ◌<◌, ◌≤◌, ◌∷◌, ◌++◌, [], List, None, OnOk, length, drop, IfOk, IfSome, IfNone, IsTrue, ◌↔◌, Some};
ghost use Rattle.fleet_base.specs.declared.geometry.Visit.{Visit};
ghost use Rattle.fleet_base.specs.Order.{IsCyclic};
ghost use Rattle.fleet_base.specs.Rules.{IsFleetState};
ghost use Rattle.fleet_base.specs.Schedule.{IsCost, IsLeastSchedule};
ghost use Rattle.plan_graph.specs.Views.{order_in};
ghost use Rattle.fleet_base.specs.State.{order_at};
ghost use Rattle.longest_path.specs.Deciding.{order_in_force};
ghost use Rattle.longest_path.specs.Decisions.{IsFree, order_on};
ghost use Rattle.cert_tree.specs.Decisions.{Decision};
ghost use Rattle.cert_tree.specs.Decisions.{order_on as order_on_way};
ghost use Rattle.cert_tree.specs.Trees.{IsBound};
ghost use Rattle.cert_tree.specs.declared.node.Node.TheVariants.{Bound};
ghost use Rattle.cert_tree.specs.CertText.{IsWritten};
ghost use Rattle.order_choice.specs.Candidates.{IsInConflict};
ghost use Rattle.order_choice.specs.Searching.{IsBest};
ghost use Rattle.order_choice.specs.Writing.{add_path};
ghost use Rattle.search_nodes.specs.Rooms.{IsRoomFor};
ghost use Rattle.search_nodes.specs.Making.{given_on, best_order};
ghost use Rattle.search_nodes.specs.Weighing.{IsUndecidable, IsViewOf};

use crate::Room;
use crate::candidate::obeys;
use cert_tree::{CertPath, PathList};
use fleet_base::{Fleet, Memory, PairId, PairList, Side};
use longest_path::{Live, earliest};
use plan_graph::{Oriented, PlanGraph};
use std::alloc::Global;
use std::marker::Model;

/// What a search makes its nodes with: the state, the least schedule that follows the decisions in force, and the best
/// order so far with its cost. It is seen as these.
#[derive(Drop)]
pub struct Maker<'g, 'f> {
    pub(crate) graph: &'g PlanGraph,
    pub(crate) fleet: &'f Fleet,
    pub(crate) live: Live<'g>,
    pub(crate) candidate: Oriented<'g>,
    pub(crate) best: Oriented<'g>,
    pub(crate) cost: u64,
    /// The pair that the last candidate parted from a mate, if any did.
    pub(crate) parted: PairId,
}

impl<'g, 'f> Model for Maker<'g, 'f> {
    ghost use Rattle.search_nodes.specs.Making.{Making};

    ghost Value = { Making };

    ghost use Rattle.search_nodes.specs.Kept.{making_of, IsMaker};

    ghost view = { making_of };

    ghost invariant = { IsMaker };
}

impl<'g, 'f> Maker<'g, 'f> {
    /// Nothing is decided, and the best order is the state's.
    pub fn new(
        alloc: Global,
        graph: &'g PlanGraph,
        fleet: &'f Fleet,
        room: &mut Room,
    ) -> Result<Maker<'g, 'f>, Memory>
        requires state { IsFleetState graph.now fleet.now }
        requires room { IsRoomFor graph.now room.old }
        ensures graph { IfOk result (λ maker. maker.graph ≡ graph.now) }
        ensures state { IfOk result (λ maker. maker.state ≡ fleet.now) }
        ensures none { IfOk result (λ maker. maker.decisions ≡ []) }
        ensures unasked { IfOk result (λ maker. maker.asked ≡ 0) }
        ensures room { IsRoomFor graph.now room.new }
    {
        let live = Live::new(alloc, graph, fleet)?;
        let candidate = graph.orient(alloc)?;
        let best = state_view(alloc, graph, fleet)?;
        let _never_cyclic = earliest(&best, fleet, &mut room.ticks);
        let cost = room.ticks.end_sum();
        Ok(Maker {
            graph,
            fleet,
            live,
            candidate,
            best,
            cost,
            parted: PairId(0),
        })
    }

    /// The graph.
    pub fn graph(&self) -> &'g PlanGraph
        ensures { result.now ≡ self.now.graph }
    {
        self.graph
    }

    /// What the best order costs, in ticks.
    pub fn cost(&self) -> u64
        ensures cost { result ≡ self.now.cost }
        ensures best { IsBest self.now.graph self.now.state (best_order self.now) result }
    {
        self.cost
    }

    /// The least open pair without a decision of which the least schedule obeys neither edge.
    pub fn conflict(&self) -> Option<PairId>
        ensures there { IfSome result (λ q. q.0 < length self.now.graph.pairs) }
        ensures free { IfSome result (λ q. IsFree self.now.graph self.now.state self.now.decisions q.0) }
        ensures conflict { IfSome result (λ q. (way : List Decision) (s : Visit → ℕ) → self.now.decisions ≡ given_on way → IsLeastSchedule self.now.graph self.now.state (order_on_way self.now.graph self.now.state way) s → IsInConflict self.now.graph self.now.state way s q.0) }
        ensures none { IfNone result ((way : List Decision) (s : Visit → ℕ) (q : ℕ) → self.now.decisions ≡ given_on way → IsLeastSchedule self.now.graph self.now.state (order_on_way self.now.graph self.now.state way) s → IsInConflict self.now.graph self.now.state way s q → ⊥) }
    {
        for number in 0..self.graph.pair_count() {
            if in_conflict(self.graph, &self.live, self.fleet, PairId(number)) {
                return Some(PairId(number));
            }
        }
        None
    }

    /// Goes down to a node that was made: gives an open pair a side. The edges in force have no cycle then.
    pub fn descend(&mut self, q: PairId, side: Side)
        requires free { IsFree self.old.graph self.old.state self.old.decisions q.0 }
        requires acyclic { IsCyclic self.old.graph (order_on self.old.graph self.old.state (record { pair = q; side = side } ∷ self.old.decisions)) → ⊥ }
        ensures graph { self.new.graph ≡ self.old.graph }
        ensures state { self.new.state ≡ self.old.state }
        ensures decisions { self.new.decisions ≡ record { pair = q; side = side } ∷ self.old.decisions }
        ensures best { self.new.best ≡ self.old.best }
        ensures cost { self.new.cost ≡ self.old.cost }
        ensures asked { self.old.asked ≤ self.new.asked }
    {
        let _always = self.decide(q, side);
    }

    /// Goes up again: takes the last decision back.
    pub fn ascend(&mut self)
        requires { 0 < length self.old.decisions }
        ensures { self.new ≡ record self.old { decisions = drop 1 self.old.decisions } }
    {
        self.live.undo();
    }

    /// Paths, one for each robot, that are together as long as the relaxed cost of the decisions in force.
    pub fn paths(&self, alloc: Global) -> Result<PathList, Memory>
        ensures bound { IfOk result (λ paths. (way : List Decision) (relaxed cost : ℕ) → self.now.decisions ≡ given_on way → IsCost self.now.graph self.now.state (order_on_way self.now.graph self.now.state way) relaxed → cost ≤ relaxed → IsBound self.now.graph self.now.state way cost paths) }
        ensures written { IfOk result (λ paths. IsWritten (Bound paths)) }
    {
        let mut paths = PathList::new(alloc);
        for robot in 0..self.graph.robots() {
            let pairs = self.live.tight_path(alloc, robot)?;
            add_path(&mut paths, robot, pairs)?;
        }
        Ok(paths)
    }

    /// The best order, and the schedule that every decision was asked of.
    pub fn finish(self) -> (Oriented<'g>, Live<'g>)
        ensures graph { result.0.graph ≡ self.entry.graph }
        ensures order { result.0.sides ≡ self.entry.best }
        ensures asked { result.1.asked ≡ self.entry.asked }
    {
        (self.best, self.live)
    }
}

/// The view that gives each pair the state's side.
fn state_view<'g>(
    alloc: Global,
    graph: &'g PlanGraph,
    fleet: &Fleet,
) -> Result<Oriented<'g>, Memory>
    requires state { IsFleetState graph.now fleet.now }
    ensures view { IfOk result (IsViewOf graph.now) }
    ensures order { IfOk result (λ view. (q : ℕ) → order_in view q ≡ order_at graph.now fleet.now q) }
{
    let mut view = graph.orient(alloc)?;
    for number in 0..graph.pair_count() {
        view.set(PairId(number), Some(fleet.side(PairId(number))));
    }
    Ok(view)
}

/// Whether a pair has no side in the order in force, and the least schedule obeys neither of its edges.
fn in_conflict(graph: &PlanGraph, live: &Live<'_>, fleet: &Fleet, q: PairId) -> bool
    requires graph { graph.now ≡ live.now.graph }
    requires state { IsFleetState live.now.graph live.now.state }
    requires fleet { fleet.now ≡ live.now.state }
    requires there { q.0 < length live.now.graph.pairs }
    ensures none { IsTrue result → order_in_force live.now q.0 ≡ None }
    ensures conflict { (s : Visit → ℕ) → IsLeastSchedule live.now.graph live.now.state (order_in_force live.now) s → (IsTrue result ↔ IsUndecidable live.now.graph live.now.state (order_in_force live.now) s q.0) }
{
    if live.side(q).is_some() {
        return false;
    }
    if obeys(graph, live, fleet, q, Side::Lower) {
        return false;
    }
    !obeys(graph, live, fleet, q, Side::Higher)
}

/// Puts a robot's path behind others, if it is not empty.
fn add_path(paths: &mut PathList, robot: u32, pairs: PairList) -> Result<(), Memory>
    ensures { OnOk result (paths.new ≡ paths.old ++ add_path robot pairs []) }
{
    if pairs.as_slice().is_empty() {
        return Ok(());
    }
    paths.push(CertPath { robot, pairs })
}
