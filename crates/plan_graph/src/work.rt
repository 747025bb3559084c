ghost use Rattle.std.specs.Prelude.{◌≡◌, ◌<◌, ◌≤◌, ◌+◌, ◌^◌, ◌↔◌, ◌∷◌, ◌++◌, [], length, reverse, slice_set, slice_index, vec_len, ℕ, Contains, IsTrue, IfOk, IfSome, IfNone, MatchOption};
ghost use Rattle.std.specs.Vec.{vec_capacity};
ghost use Rattle.fleet_base.specs.Order.{IsVisit, last_in};
ghost use Rattle.plan_graph.specs.Views.{order_in};
ghost use Rattle.plan_graph.specs.Listing.{front, IsPassed, ArePassed, IsFree, IsBlocked, robots_of};
ghost use Rattle.plan_graph.specs.Working.{HasRoom, KeepsRoom, KnowPlaces, IsAtWork, HasCycle, StepsTo, RobotEnds, WorkEnds, PopsTo, pairs_back};

use crate::{Oriented, PlanGraph, Ranked};
use fleet_base::{Memory, PairId, Visit};
use std::alloc::Global;

/// A robot whose next visit waits for a visit of another one, and the pair that says so.
#[derive(Clone, Copy, Debug)]
pub(crate) struct Waiting {
    robot: u32,
    pair: PairId,
}

/// What holds a visit back: a pair, its place among those of the visit, and the robot that is waited for.
#[derive(Clone, Copy, Debug)]
struct Held {
    place: usize,
    pair: PairId,
    robot: u32,
}

/// The state of a ranking. One robot is at work on its next visit; where a visit of another robot is before it and is
/// not listed, the one at work waits, and that other robot is at work until this visit is listed.
#[derive(Debug, Drop)]
pub(crate) struct Work {
    /// The visits listed so far.
    pub(crate) order: Vec<Visit>,
    /// The pairs of a cycle.
    pub(crate) cycle: Vec<PairId>,
    /// For each robot how many of its visits are listed.
    pub(crate) listed: Vec<u32>,
    /// For each robot how many pairs of its next visit were seen not to hold it back.
    passed: Vec<usize>,
    /// The robots that wait, each for the next, the last for the robot at work.
    waiting: Vec<Waiting>,
    /// For each robot that waits its place among them.
    place: Vec<usize>,
}

impl Work {
    /// The room for a graph.
    pub(crate) fn new(alloc: Global, graph: &PlanGraph) -> Result<Work, Memory>
        ensures room { IfOk result (HasRoom graph.now) }
        ensures order { IfOk result (λ work. work.order.items ≡ []) }
        ensures cycle { IfOk result (λ work. work.cycle.items ≡ []) }
    {
        let robots = graph.robots() as usize;
        let visits = graph.visit_count() as usize;
        Ok(Work {
            order: Vec::with_capacity(alloc, visits)?,
            cycle: Vec::with_capacity(alloc, robots)?,
            listed: Vec::from_elem(alloc, 0, robots)?,
            passed: Vec::from_elem(alloc, 0, robots)?,
            waiting: Vec::with_capacity(alloc, robots)?,
            place: Vec::from_elem(alloc, 0, robots)?,
        })
    }

    /// Lists all visits with every edge of the view forward, or else the pairs of a cycle.
    pub(crate) fn run(&mut self, view: &Oriented<'_>) -> Ranked
        requires { HasRoom view.now.graph self.old }
        ensures { WorkEnds view.now self.new result }
    {
        self.clear();
        for robot in 0..view.graph().robots() {
            match self.list_robot(view, robot) {
                Ranked::Order => {}
                Ranked::Cycle => return Ranked::Cycle,
            }
        }
        Ranked::Order
    }

    /// Forgets what was listed.
    fn clear(&mut self)
        ensures order { self.new.order.items ≡ [] }
        ensures cycle { self.new.cycle.items ≡ [] }
        ensures waiting { self.new.waiting.items ≡ [] }
        ensures listed { (i : ℕ) → slice_index self.new.listed.items i ≡ 0 }
        ensures passed { (i : ℕ) → slice_index self.new.passed.items i ≡ 0 }
        ensures room { KeepsRoom self.old self.new }
    {
        self.order.clear();
        self.cycle.clear();
        self.waiting.clear();
        self.listed.fill(0);
        self.passed.fill(0);
    }

    /// Lists the visits that are left of a robot, and what is before them; or finds a cycle.
    fn list_robot(&mut self, view: &Oriented<'_>, robot: u32) -> Ranked
        requires there { robot < length view.now.graph.lasts }
        requires work { IsAtWork view.now self.old robot }
        requires alone { self.old.waiting.items ≡ [] }
        ensures { RobotEnds view.now self.old self.new robot result }
    {
        let mut at_work = robot;
        while self.listed[robot as usize] <= view.graph().last(robot) {
            match self.step(view, at_work) {
                Some(next) => at_work = next,
                None => return Ranked::Cycle,
            }
        }
        Ranked::Order
    }

    /// Lists the next visit of the robot at work, or lets it wait; where it would wait for itself, there is a cycle.
    fn step(&mut self, view: &Oriented<'_>, robot: u32) -> Option<u32>
        requires there { IsVisit view.now.graph (front self.old.listed.items robot) }
        requires work { IsAtWork view.now self.old robot }
        ensures { MatchOption result (HasCycle view.now self.new) (StepsTo view.now self.old self.new robot) }
    {
        let _within = view.graph().robots();
        let visit = Visit {
            robot,
            index: self.listed[robot as usize],
        };
        let from = self.passed[robot as usize];
        let Some(held) = held_back(view, &self.listed, visit, from) else {
            return Some(self.list_next(visit));
        };
        self.passed[robot as usize] = held.place;
        if self.is_waiting(held.robot) {
            self.close(held.pair, held.robot);
            return None;
        }
        self.wait(robot, held.pair);
        Some(held.robot)
    }

    /// Lists a robot's next visit. The robot that waited for it is at work again, or else this one goes on.
    fn list_next(&mut self, visit: Visit) -> u32
        requires listed { visit.robot < vec_len self.old.listed }
        requires passed { visit.robot < vec_len self.old.passed }
        requires next { visit.index ≡ slice_index self.old.listed.items visit.robot }
        requires few { visit.index + 1 < 2 ^ 32 }
        requires room { vec_len self.old.order < vec_capacity self.old.order }
        ensures order { self.new.order.items ≡ self.old.order.items ++ visit ∷ [] }
        ensures listed { self.new.listed.items ≡ slice_set self.old.listed.items visit.robot (visit.index + 1) }
        ensures passed { self.new.passed.items ≡ slice_set self.old.passed.items visit.robot 0 }
        ensures waiting { PopsTo self.old.waiting.items self.new.waiting.items visit.robot result }
        ensures place { self.new.place ≡ self.old.place }
        ensures cycle { self.new.cycle ≡ self.old.cycle }
        ensures room { KeepsRoom self.old self.new }
    {
        self.order.push_reserved(visit);
        self.listed[visit.robot as usize] = visit.index + 1;
        self.passed[visit.robot as usize] = 0;
        match self.waiting.pop() {
            Some(waiting) => waiting.robot,
            None => visit.robot,
        }
    }

    /// Whether a robot waits.
    fn is_waiting(&self, robot: u32) -> bool
        requires there { robot < vec_len self.now.place }
        requires places { KnowPlaces self.now.waiting.items self.now.place.items }
        ensures { IsTrue result ↔ Contains (robots_of self.now.waiting.items) robot }
    {
        match self.waiting.get(self.place[robot as usize]) {
            Some(waiting) => waiting.robot == robot,
            None => false,
        }
    }

    /// Lets the robot at work wait.
    fn wait(&mut self, robot: u32, pair: PairId)
        requires there { robot < vec_len self.old.place }
        requires room { vec_len self.old.waiting < vec_capacity self.old.waiting }
        ensures waiting { self.new.waiting.items ≡ self.old.waiting.items ++ record { robot = robot; pair = pair } ∷ [] }
        ensures place { self.new.place.items ≡ slice_set self.old.place.items robot (length self.old.waiting.items) }
        ensures order { self.new.order ≡ self.old.order }
        ensures cycle { self.new.cycle ≡ self.old.cycle }
        ensures listed { self.new.listed ≡ self.old.listed }
        ensures passed { self.new.passed ≡ self.old.passed }
        ensures room { KeepsRoom self.old self.new }
    {
        self.place[robot as usize] = self.waiting.len();
        self.waiting.push_reserved(Waiting { robot, pair });
    }

    /// Puts down the cycle of this pair and those of the robots that wait, back to the one for which it waits.
    fn close(&mut self, pair: PairId, robot: u32)
        requires empty { self.old.cycle.items ≡ [] }
        requires room { vec_len self.old.waiting < vec_capacity self.old.cycle }
        ensures cycle { self.new.cycle.items ≡ pair ∷ pairs_back (reverse self.old.waiting.items) robot }
        ensures order { self.new.order.items ≡ [] }
        ensures room { KeepsRoom self.old self.new }
    {
        self.order.clear();
        self.cycle.push_reserved(pair);
        while let Some(waiting) = self.waiting.pop() {
            self.cycle.push_reserved(waiting.pair);
            if waiting.robot == robot {
                return;
            }
        }
    }
}

/// The first pair, from a place on, that holds a robot's next visit back.
fn held_back(view: &Oriented<'_>, listed: &[u32], visit: Visit, from: usize) -> Option<Held>
    requires robots { length listed.now ≡ length view.now.graph.lasts }
    requires next { visit.index ≡ slice_index listed.now visit.robot }
    requires there { IsVisit view.now.graph visit }
    requires passed { ArePassed view.now.graph (order_in view.now) listed.now visit from }
    ensures held { IfSome result (λ held. IsBlocked view.now.graph (order_in view.now) listed.now visit.robot held.pair held.robot) }
    ensures place { IfSome result (λ held. ArePassed view.now.graph (order_in view.now) listed.now visit held.place) }
    ensures free { IfNone result (IsFree view.now.graph (order_in view.now) listed.now visit) }
{
    let pairs = view.into_of(visit);
    for place in from..pairs.len() {
        let pair = pairs[place];
        if let Some(robot) = holds(view, listed, visit, pair) {
            return Some(Held { place, pair, robot });
        }
    }
    None
}

/// The robot for which a pair makes a robot's next visit wait.
fn holds(view: &Oriented<'_>, listed: &[u32], visit: Visit, pair: PairId) -> Option<u32>
    requires pair { pair.0 < length view.now.graph.pairs }
    requires robots { length listed.now ≡ length view.now.graph.lasts }
    requires next { visit.index ≡ slice_index listed.now visit.robot }
    requires there { IsVisit view.now.graph visit }
    ensures held { IfSome result (λ robot. IsBlocked view.now.graph (order_in view.now) listed.now visit.robot pair robot) }
    ensures passed { IfNone result (IsPassed view.now.graph (order_in view.now) listed.now visit pair) }
{
    let tail = view.tail_into(pair, visit)?;
    if view.graph().has(tail) && listed[tail.robot as usize] <= tail.index {
        return Some(tail.robot);
    }
    None
}
