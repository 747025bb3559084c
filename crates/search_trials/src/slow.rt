// A plain second search, which makes every schedule from scratch. It takes a schedule to obey the edge of a pair where it stays
// the least one with that side added.
ghost use Rattle.std.specs.Prelude.{◌≡◌, ◌<◌, length, IfOk};
ghost use Rattle.fleet_base.specs.Rules.{IsFleetState};
ghost use Rattle.longest_path.specs.Ticks.{IsKeptFor};
ghost use Rattle.edge_groups.specs.Mates.{AreAllMates};

use crate::shapes::{Shape, add};
use edge_groups::{GroupTable, groups};
use fleet_base::{Fleet, PairId, Side, Visit};
use longest_path::{Ticks, earliest};
use plan_graph::{Oriented, PlanGraph, is_open};
use std::alloc::Global;
use std::test::Fail;

/// What was found: the cost of the best order, the pairs that it switches, what is left, and the certificate.
#[derive(Drop)]
pub struct Found {
    pub cost: u64,
    pub switched: Vec<u32>,
    pub least: Option<u64>,
    pub shapes: Vec<Shape>,
}

/// A side, or none, for each pair.
type Sides = Vec<Option<Side>>;

/// How a node ended.
#[derive(Clone, Copy)]
enum End {
    Cyclic,
    Waits {
        cost: u64,
        conflict: Option<PairId>,
    },
    /// Its children have this number and the next.
    Expanded {
        cost: u64,
        pair: PairId,
        children: usize,
    },
}

#[derive(Drop)]
struct Made {
    sides: Sides,
    forced: Vec<Shape>,
    end: End,
}

/// The ticks of all visits, and what they cost.
#[derive(Drop)]
struct Times {
    ticks: Vec<u64>,
    cost: u64,
}

#[derive(Drop)]
struct Best {
    sides: Sides,
    cost: u64,
}

/// A node that is to be expanded, its relaxed cost, and the pair.
#[derive(Clone, Copy)]
struct Turn {
    number: usize,
    cost: u64,
    pair: PairId,
}

#[derive(Drop)]
struct Slow<'a> {
    graph: &'a PlanGraph,
    fleet: &'a Fleet,
    table: GroupTable,
}

/// Searches as the rules say, node by node.
pub fn slow_search(
    alloc: Global,
    graph: &PlanGraph,
    fleet: &Fleet,
    budget: u64,
) -> Result<Found, Fail>
    requires { IsFleetState graph.now fleet.now }
{
    let table = groups(alloc, graph)?;
    let slow = Slow {
        graph,
        fleet,
        table,
    };
    let mut best = slow.kept_order(alloc)?;
    let closed = slow.closed_sides(alloc)?;
    let mut nodes = Vec::new(alloc);
    nodes.push(slow.make(alloc, closed, &mut best)?)?;
    for _ in 0..budget {
        let Some(turn) = next(&nodes, best.cost) else {
            break;
        };
        slow.expand(alloc, &mut nodes, &mut best, turn)?;
    }
    Ok(Found {
        cost: best.cost,
        switched: slow.switched(alloc, &best.sides)?,
        least: next(&nodes, best.cost).map(|turn| turn.cost),
        shapes: written(alloc, &nodes, best.cost)?,
    })
}

/// The node that waits with the least cost below the best, among equals the one made last.
fn next(nodes: &[Made], best: u64) -> Option<Turn> {
    let mut found: Option<Turn> = None;
    for (number, node) in nodes.iter().enumerate() {
        if let End::Waits {
            cost,
            conflict: Some(pair),
        } = node.end
            && cost < best
            && found.map_or(true, |turn| cost <= turn.cost)
        {
            found = Some(Turn { number, cost, pair });
        }
    }
    found
}

impl Slow<'_> {
    /// The fleet's order.
    fn kept_order(&self, alloc: Global) -> Result<Best, Fail>
        requires { IsFleetState self.now.graph.now self.now.fleet.now }
    {
        let mut sides = Vec::new(alloc);
        for number in 0..self.graph.pair_count() {
            sides.push(Some(self.fleet.side(PairId(number))))?;
        }
        match self.schedule(alloc, &sides)? {
            Some(times) => Ok(Best {
                sides,
                cost: times.cost,
            }),
            None => Err(Fail::from("a sound order")),
        }
    }

    /// The sides of the closed pairs alone.
    fn closed_sides(&self, alloc: Global) -> Result<Sides, Fail>
        requires { IsFleetState self.now.graph.now self.now.fleet.now }
    {
        let mut sides = Vec::new(alloc);
        for number in 0..self.graph.pair_count() {
            let q = PairId(number);
            let open = is_open(self.graph, self.fleet, q);
            sides.push((!open).then_some(self.fleet.side(q)))?;
        }
        Ok(sides)
    }

    /// The pairs whose sides are not the fleet's.
    fn switched(&self, alloc: Global, sides: &[Option<Side>]) -> Result<Vec<u32>, Fail>
        requires { IsFleetState self.now.graph.now self.now.fleet.now }
    {
        let mut switched = Vec::new(alloc);
        for number in 0..self.graph.pair_count() {
            if side_in(sides, PairId(number)) != Some(self.fleet.side(PairId(number))) {
                switched.push(number)?;
            }
        }
        Ok(switched)
    }

    /// Makes the children of a node, with the lower side and then with the higher one.
    fn expand(
        &self,
        alloc: Global,
        nodes: &mut Vec<Made>,
        best: &mut Best,
        turn: Turn,
    ) -> Result<(), Fail>
        requires state { IsFleetState self.now.graph.now self.now.fleet.now }
        requires mates { AreAllMates self.now.graph.now self.now.table }
    {
        let children = nodes.len();
        let parent = nodes.get_mut(turn.number).ok_or("a node")?;
        parent.end = End::Expanded {
            cost: turn.cost,
            pair: turn.pair,
            children,
        };
        let lower = with_side(alloc, &parent.sides, turn.pair, Side::Lower)?;
        let higher = with_side(alloc, &parent.sides, turn.pair, Side::Higher)?;
        nodes.push(self.make(alloc, lower, best)?)?;
        nodes.push(self.make(alloc, higher, best)?)?;
        Ok(())
    }

    /// Makes a node with these sides.
    fn make(&self, alloc: Global, mut sides: Sides, best: &mut Best) -> Result<Made, Fail>
        requires state { IsFleetState self.now.graph.now self.now.fleet.now }
        requires mates { AreAllMates self.now.graph.now self.now.table }
    {
        let mut forced = Vec::new(alloc);
        for _ in 0..self.graph.pair_count() {
            if let Some((q, side)) = self.forced(&sides) {
                sides = with_side(alloc, &sides, q, side)?;
                forced.push(Shape::Force(q, side))?;
            }
        }
        let end = self.end(alloc, &sides, best)?;
        Ok(Made { sides, forced, end })
    }

    /// The least pair without a side that has a mate with one, and the side of its least such mate.
    fn forced(&self, sides: &[Option<Side>]) -> Option<(PairId, Side)>
        requires { AreAllMates self.now.graph.now self.now.table }
    {
        for number in 0..self.graph.pair_count() {
            let q = PairId(number);
            let mates = self.table.mates(q);
            if side_in(sides, q).is_none()
                && let Some(side) = mates.iter().find_map(|mate| side_in(sides, *mate))
            {
                return Some((q, side));
            }
        }
        None
    }

    /// How a node ends after forcing. Its candidate becomes the best order if it costs less.
    fn end(&self, alloc: Global, sides: &[Option<Side>], best: &mut Best) -> Result<End, Fail>
        requires { IsFleetState self.now.graph.now self.now.fleet.now }
    {
        let Some(times) = self.schedule(alloc, sides)? else {
            return Ok(End::Cyclic);
        };
        let (candidate, conflict) = self.candidate(alloc, sides, &times)?;
        if let Some(found) = self.schedule(alloc, &candidate)?
            && found.cost < best.cost
        {
            best.cost = found.cost;
            best.sides = candidate;
        }
        Ok(End::Waits {
            cost: times.cost,
            conflict,
        })
    }

    /// The candidate of a node, and the least pair of which its schedule obeys neither edge.
    fn candidate(
        &self,
        alloc: Global,
        sides: &[Option<Side>],
        times: &Times,
    ) -> Result<(Sides, Option<PairId>), Fail>
        requires { IsFleetState self.now.graph.now self.now.fleet.now }
    {
        let mut candidate = Vec::new(alloc);
        let mut conflict = None;
        for number in 0..self.graph.pair_count() {
            let q = PairId(number);
            let side = self.suggested(alloc, sides, times, q)?;
            if side.is_none() && conflict.is_none() {
                conflict = Some(q);
            }
            candidate.push(side.or(Some(self.fleet.side(q))))?;
        }
        Ok((candidate, conflict))
    }

    /// The side that a pair has, or of which the schedule obeys the edge, the fleet's side first.
    fn suggested(
        &self,
        alloc: Global,
        sides: &[Option<Side>],
        times: &Times,
        q: PairId,
    ) -> Result<Option<Side>, Fail>
        requires state { IsFleetState self.now.graph.now self.now.fleet.now }
        requires there { q.0 < length self.now.graph.now.pairs }
    {
        if side_in(sides, q).is_some() {
            return Ok(side_in(sides, q));
        }
        let kept = self.fleet.side(q);
        if self.obeys(alloc, sides, times, q, kept)? {
            return Ok(Some(kept));
        }
        let other = kept.other();
        Ok(self.obeys(alloc, sides, times, q, other)?.then_some(other))
    }

    /// Whether a schedule stays the least one with one side more.
    fn obeys(
        &self,
        alloc: Global,
        sides: &[Option<Side>],
        times: &Times,
        q: PairId,
        side: Side,
    ) -> Result<bool, Fail>
        requires { IsFleetState self.now.graph.now self.now.fleet.now }
    {
        let more = with_side(alloc, sides, q, side)?;
        match self.schedule(alloc, &more)? {
            Some(more) => Ok(more.ticks.as_slice() == times.ticks.as_slice()),
            None => Ok(false),
        }
    }

    /// The least schedule under these sides, if they have no cycle.
    fn schedule(&self, alloc: Global, sides: &[Option<Side>]) -> Result<Option<Times>, Fail>
        requires { IsFleetState self.now.graph.now self.now.fleet.now }
    {
        let view = view_of(alloc, self.graph, sides)?;
        let mut ticks = Ticks::new(alloc, self.graph)?;
        if earliest(&view, self.fleet, &mut ticks).is_err() {
            return Ok(None);
        }
        let cost = ticks.end_sum();
        let ticks = all_ticks(alloc, self.graph, &ticks)?;
        Ok(Some(Times { ticks, cost }))
    }
}

/// The view that gives each pair this side.
fn view_of<'g>(
    alloc: Global,
    graph: &'g PlanGraph,
    sides: &[Option<Side>],
) -> Result<Oriented<'g>, Fail>
    ensures { IfOk result (λ view. view.graph ≡ graph.now) }
{
    let mut view = graph.orient(alloc)?;
    for number in 0..graph.pair_count() {
        view.set(PairId(number), side_in(sides, PairId(number)));
    }
    Ok(view)
}

/// The tick of each visit.
fn all_ticks(alloc: Global, graph: &PlanGraph, ticks: &Ticks) -> Result<Vec<u64>, Fail>
    requires { IsKeptFor graph.now ticks.now }
{
    let mut all = Vec::new(alloc);
    for robot in 0..graph.robots() {
        for index in 0..=graph.last(robot) {
            all.push(ticks.at(Visit { robot, index }))?;
        }
    }
    Ok(all)
}

fn side_in(sides: &[Option<Side>], q: PairId) -> Option<Side> {
    match sides.get(q.0 as usize) {
        Some(side) => *side,
        None => None,
    }
}

/// These sides, and one more.
fn with_side(alloc: Global, sides: &[Option<Side>], q: PairId, side: Side) -> Result<Sides, Fail> {
    let mut more = Vec::from_slice(alloc, sides)?;
    let place = more.get_mut(q.0 as usize).ok_or("a pair")?;
    *place = Some(side);
    Ok(more)
}

/// The certificate, in preorder.
fn written(alloc: Global, nodes: &[Made], best: u64) -> Result<Vec<Shape>, Fail> {
    let mut shapes = Vec::new(alloc);
    let mut to_come: Vec<usize> = vec![in alloc; 0]?;
    for _ in nodes {
        if let Some(number) = to_come.pop() {
            let node = nodes.get(number).ok_or("a node")?;
            add(&mut shapes, &node.forced, shape_of(node.end, best))?;
            if let End::Expanded { cost, children, .. } = node.end
                && cost < best
            {
                to_come.push(children.saturating_add(1))?;
                to_come.push(children)?;
            }
        }
    }
    Ok(shapes)
}

fn shape_of(end: End, best: u64) -> Shape {
    match end {
        End::Cyclic => Shape::Cyclic,
        End::Waits { cost, .. } if cost < best => Shape::OpenLeaf(cost),
        End::Expanded { cost, pair, .. } if cost < best => Shape::Branch(pair),
        _ => Shape::Bound,
    }
}
