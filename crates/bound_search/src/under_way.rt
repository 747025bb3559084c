ghost use Rattle.std.specs.Prelude.{◌≡◌, ◌+◌, ◌<◌, ◌≤◌, List, IfOk, OnOk, IfSome, IfNone, Some, ℕ};
ghost use Rattle.fleet_base.specs.declared.geometry.Visit.{Visit};
ghost use Rattle.fleet_base.specs.Rules.{IsFleetState};
ghost use Rattle.fleet_base.specs.Schedule.{IsLeastSchedule};
ghost use Rattle.longest_path.specs.Decisions.{IsFree};
ghost use Rattle.cert_tree.specs.Decisions.{Decision, order_on};
ghost use Rattle.order_choice.specs.declared.made.MadeNode.{MadeNode};
ghost use Rattle.order_choice.specs.Candidates.{IsInConflict};
ghost use Rattle.order_choice.specs.Searching.{AreAbove, forced_on};
ghost use Rattle.search_nodes.specs.Rooms.{IsRoomFor};
ghost use Rattle.search_nodes.specs.Making.{given_on, KeepsBest};
ghost use Rattle.search_line.specs.Lines.{nodes_on, IsAt, HasCostAt};
ghost use Rattle.bound_search.specs.UnderWay.{IsUnderWay, IsNext, IsOver, OfSameState};

use fleet_base::{Fleet, Memory, PairId, Side};
use plan_graph::PlanGraph;
use search_line::{Line, Waiting};
use search_nodes::{Maker, Room};
use std::alloc::Global;

/// A search: what its nodes are made with, the nodes, the node whose decisions are in force, and how many were expanded.
#[derive(Drop)]
pub(crate) struct Search<'g, 'f> {
    pub maker: Maker<'g, 'f>,
    pub line: Line,
    pub place: Option<u32>,
    pub expanded: u64,
}

impl<'g, 'f> Search<'g, 'f> {
    /// A search that made its root.
    pub(crate) fn begin(
        alloc: Global,
        graph: &'g PlanGraph,
        fleet: &'f Fleet,
        room: &mut Room,
    ) -> Result<Search<'g, 'f>, Memory>
        requires state { IsFleetState graph.now fleet.now }
        requires room { IsRoomFor graph.now room.old }
        ensures begun { IfOk result (λ search. IsUnderWay search.maker search.line search.place search.expanded) }
        ensures none { IfOk result (λ search. search.expanded ≡ 0) }
        ensures graph { IfOk result (λ search. search.maker.graph ≡ graph.now) }
        ensures state { IfOk result (λ search. search.maker.state ≡ fleet.now) }
        ensures room { IsRoomFor graph.now room.new }
    {
        let mut maker = Maker::new(alloc, graph, fleet, room)?;
        let root = maker.make_root(alloc, room)?;
        let _best = maker.cost();
        let line = Line::begin(alloc, root)?;
        Ok(Search {
            maker,
            line,
            place: None,
            expanded: 0,
        })
    }

    /// Expands nodes until none is left below the best order, or so many were expanded. Then it answers the least relaxed
    /// cost that is left.
    pub(crate) fn run(
        &mut self,
        alloc: Global,
        room: &mut Room,
        budget: u64,
    ) -> Result<Option<u64>, Memory>
        requires under_way { IsUnderWay self.old.maker self.old.line self.old.place self.old.expanded }
        requires within { self.old.expanded ≤ budget }
        requires room { IsRoomFor self.old.maker.graph room.old }
        ensures under_way { IfOk result (λ left. IsUnderWay self.new.maker self.new.line self.new.place self.new.expanded) }
        ensures over { IfOk result (λ left. IsOver self.new.maker self.new.line self.new.expanded budget left) }
        ensures same { IfOk result (λ left. OfSameState self.old.maker self.new.maker) }
        ensures room { IsRoomFor self.old.maker.graph room.new }
    {
        while let Some(next) = self.next() {
            if self.expanded == budget {
                return Ok(Some(next.cost));
            }
            self.expand(alloc, room, next)?;
        }
        Ok(None)
    }

    /// The node to expand next: of those that wait the one with the least relaxed cost, if that is below the best order's.
    fn next(&self) -> Option<Waiting>
        ensures some { IfSome result (λ next. IsNext self.now.maker self.now.line next.number next.cost) }
        ensures none { IfNone result (AreAbove self.now.maker.cost (nodes_on self.now.line)) }
    {
        let next = self.line.least()?;
        if next.cost < self.maker.cost() {
            Some(next)
        } else {
            None
        }
    }

    /// Makes the children of a node, with the lower side and then with the higher one of its pair.
    fn expand(&mut self, alloc: Global, room: &mut Room, next: Waiting) -> Result<(), Memory>
        requires under_way { IsUnderWay self.old.maker self.old.line self.old.place self.old.expanded }
        requires next { IsNext self.old.maker self.old.line next.number next.cost }
        requires room { IsRoomFor self.old.maker.graph room.old }
        ensures under_way { OnOk result (IsUnderWay self.new.maker self.new.line self.new.place self.new.expanded) }
        ensures more { OnOk result (self.new.expanded ≡ self.old.expanded + 1) }
        ensures same { OnOk result (OfSameState self.old.maker self.new.maker) }
        ensures room { IsRoomFor self.old.maker.graph room.new }
    {
        self.go_to(alloc, next.number)?;
        let q = self.pair_of(next);
        let _few = self.line.count();
        let lower = self.maker.make_child(alloc, room, q, Side::Lower)?;
        let higher = self.maker.make_child(alloc, room, q, Side::Higher)?;
        let _best = self.maker.cost();
        self.line.expand(next, q, lower, higher)?;
        self.expanded += 1;
        Ok(())
    }

    /// Goes to a node without a cycle, whose decisions are then in force.
    pub(crate) fn go_to(&mut self, alloc: Global, number: u32) -> Result<(), Memory>
        requires under_way { IsUnderWay self.old.maker self.old.line self.old.place self.old.expanded }
        requires there { HasCostAt self.old.line number }
        ensures under_way { OnOk result (IsUnderWay self.new.maker self.new.line self.new.place self.new.expanded) }
        ensures place { OnOk result (self.new.place ≡ Some number) }
        ensures decisions { OnOk result ((node : MadeNode) (way : List Decision) → IsAt self.new.line number node way → self.new.maker.decisions ≡ given_on (forced_on node.forced way)) }
        ensures best { OnOk result (KeepsBest self.old.maker self.new.maker) }
        ensures line { OnOk result (self.new.line ≡ self.old.line) }
        ensures expanded { OnOk result (self.new.expanded ≡ self.old.expanded) }
    {
        self.line.go(alloc, &mut self.maker, self.place, number)?;
        self.place = Some(number);
        Ok(())
    }

    /// The pair on which the node is expanded whose decisions are in force: the least one in conflict. There is one, since
    /// the node costs less than the best order.
    fn pair_of(&self, next: Waiting) -> PairId
        requires under_way { IsUnderWay self.now.maker self.now.line self.now.place self.now.expanded }
        requires next { IsNext self.now.maker self.now.line next.number next.cost }
        requires decisions { (node : MadeNode) (way : List Decision) → IsAt self.now.line next.number node way → self.now.maker.decisions ≡ given_on (forced_on node.forced way) }
        ensures free { IsFree self.now.maker.graph self.now.maker.state self.now.maker.decisions result.0 }
        ensures conflict { (way : List Decision) (s : Visit → ℕ) → self.now.maker.decisions ≡ given_on way → IsLeastSchedule self.now.maker.graph self.now.maker.state (order_on self.now.maker.graph self.now.maker.state way) s → IsInConflict self.now.maker.graph self.now.maker.state way s result.0 }
    {
        match self.maker.conflict() {
            Some(q) => q,
            None => unreachable!(),
        }
    }
}
