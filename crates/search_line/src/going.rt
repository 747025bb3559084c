ghost use Rattle.std.specs.Prelude.{ℕ, ◌≡◌, ◌<◌, ◌≤◌, ◌∷◌, [], List, length, drop, IfOk, OnOk, OnErr};
ghost use Rattle.fleet_base.specs.Rules.{IsFleetState};
ghost use Rattle.cert_tree.specs.Decisions.{Decision};
ghost use Rattle.order_choice.specs.declared.made.MadeNode.{MadeNode};
ghost use Rattle.order_choice.specs.Searching.{EachOnLine, IsMadeRight, forced_on};
ghost use Rattle.search_nodes.specs.Making.{given_on, KeepsBest};
ghost use Rattle.search_line.specs.declared.kept.Origin.{Origin};
ghost use Rattle.search_line.specs.Lines.{nodes_on, IsAt, HasCostAt};
ghost use Rattle.search_line.specs.Going.{AreMadeRight, AreThoseOf, BeginsAt, CanForce, CanGoDown, EachHasWay, HasNoCycle, IsFrom, LeadUp, LiesBelow, StandsAt};
ghost use Rattle.search_nodes.specs.Forcing.{given_after};

use crate::Line;
use crate::kept::{Kept, Origin};
use fleet_base::Memory;
use order_choice::Forcing;
use search_nodes::Maker;
use std::alloc::Global;

impl Line {
    /// Takes a search from the decisions of one node, or from none, to those of another: up to the last node that both lie
    /// below, and down again. For want of memory the decisions stay.
    pub fn go(
        &self,
        alloc: Global,
        maker: &mut Maker<'_, '_>,
        from: Option<u32>,
        to: u32,
    ) -> Result<(), Memory>
        requires state { IsFleetState maker.old.graph maker.old.state }
        requires right { EachOnLine (IsMadeRight maker.old.graph maker.old.state) (nodes_on self.now) ([] ∷ []) }
        requires from { StandsAt self.now from maker.old.decisions }
        requires to { HasCostAt self.now to }
        ensures there { OnOk result ((node : MadeNode) (way : List Decision) → IsAt self.now to node way → maker.new.decisions ≡ given_on (forced_on node.forced way)) }
        ensures stays { OnErr result (maker.new ≡ maker.old) }
        ensures graph { maker.new.graph ≡ maker.old.graph }
        ensures state { maker.new.state ≡ maker.old.state }
        ensures best { maker.new.best ≡ maker.old.best }
        ensures cost { maker.new.cost ≡ maker.old.cost }
        ensures asked { maker.old.asked ≤ maker.new.asked }
    {
        let nodes = self.nodes.as_slice();
        let above = shared_above(nodes, from.unwrap_or(0), to);
        let path = path_up(alloc, nodes, to, above)?;
        rise(nodes, maker, from, above);
        go_down(nodes, maker, path);
        Ok(())
    }
}

/// Where a node that is not the root comes from. Its parent was made before it.
fn origin_of(nodes: &[Kept], number: u32) -> Origin
    requires ways { EachHasWay nodes.now }
    requires there { number < length nodes.now }
    requires child { 0 < number }
    ensures origin { IsFrom nodes.now number result }
    ensures earlier { result.parent < number }
{
    let kept = &nodes[number as usize];
    match kept.origin {
        Some(origin) => origin,
        None => unreachable!(),
    }
}

/// The last node that both lie below, or that is one of them.
fn shared_above(nodes: &[Kept], one: u32, other: u32) -> u32
    requires ways { EachHasWay nodes.now }
    requires one { one < length nodes.now }
    requires other { other < length nodes.now }
    ensures there { result < length nodes.now }
    ensures one { LiesBelow nodes.now one result }
    ensures other { LiesBelow nodes.now other result }
{
    let mut low = one;
    let mut high = other;
    // A parent is made before its children, so the one that was made last cannot be shared.
    while low != high {
        if low < high {
            high = origin_of(nodes, high).parent;
        } else {
            low = origin_of(nodes, low).parent;
        }
    }
    low
}

/// The nodes from one up to another that it lies below, without that one.
fn path_up(alloc: Global, nodes: &[Kept], number: u32, above: u32) -> Result<Vec<u32>, Memory>
    requires ways { EachHasWay nodes.now }
    requires there { number < length nodes.now }
    requires below { LiesBelow nodes.now number above }
    ensures { IfOk result (λ path. LeadUp nodes.now number path.items above) }
{
    let mut path = Vec::new(alloc);
    let mut at = number;
    while at != above {
        match path.push(at) {
            Ok(()) => at = origin_of(nodes, at).parent,
            Err(_) => return Err(Memory),
        }
    }
    Ok(path)
}

/// Goes up to a node that a node lies below whose decisions are in force. Where none are, the root's are forced.
fn rise(nodes: &[Kept], maker: &mut Maker<'_, '_>, from: Option<u32>, above: u32)
    requires state { IsFleetState maker.old.graph maker.old.state }
    requires ways { EachHasWay nodes.now }
    requires right { AreMadeRight maker.old.graph maker.old.state nodes.now }
    requires there { above < length nodes.now }
    requires begins { BeginsAt nodes.now from maker.old.decisions }
    requires below { (number : ℕ) → from ≡ Some number → LiesBelow nodes.now number above }
    requires root { from ≡ None → above ≡ 0 }
    requires stand { HasNoCycle nodes.now above }
    ensures there { AreThoseOf nodes.now above maker.new.decisions }
    ensures best { KeepsBest maker.old maker.new }
{
    match from {
        Some(number) => climb(nodes, maker, number, above),
        None => force(maker, nodes[0].node.forced.as_slice()),
    }
}

/// Goes up from a node to one that it lies below.
fn climb(nodes: &[Kept], maker: &mut Maker<'_, '_>, number: u32, above: u32)
    requires ways { EachHasWay nodes.now }
    requires force { AreThoseOf nodes.now number maker.old.decisions }
    requires below { LiesBelow nodes.now number above }
    ensures there { AreThoseOf nodes.now above maker.new.decisions }
    ensures best { KeepsBest maker.old maker.new }
{
    let mut at = number;
    while at != above {
        leave(nodes, maker, at);
        at = origin_of(nodes, at).parent;
    }
}

/// Goes up from a node to its parent.
fn leave(nodes: &[Kept], maker: &mut Maker<'_, '_>, number: u32)
    requires ways { EachHasWay nodes.now }
    requires child { 0 < number }
    requires force { AreThoseOf nodes.now number maker.old.decisions }
    ensures parent { (origin : Origin) → IsFrom nodes.now number origin → AreThoseOf nodes.now origin.parent maker.new.decisions }
    ensures best { KeepsBest maker.old maker.new }
{
    let forced = nodes[number as usize].node.forced.as_slice();
    take_back(maker, forced.len());
    maker.ascend();
}

/// Takes the last so many decisions back.
fn take_back(maker: &mut Maker<'_, '_>, count: usize)
    requires { count ≤ length maker.old.decisions }
    ensures { maker.new ≡ record maker.old { decisions = drop count maker.old.decisions } }
{
    for _gone in 0..count {
        maker.ascend();
    }
}

/// Goes down a path, whose last node is the first to go to.
fn go_down(nodes: &[Kept], maker: &mut Maker<'_, '_>, mut path: Vec<u32>)
    requires state { IsFleetState maker.old.graph maker.old.state }
    requires ways { EachHasWay nodes.now }
    requires right { AreMadeRight maker.old.graph maker.old.state nodes.now }
    requires down { CanGoDown nodes.now path.items maker.old.decisions }
    ensures there { (number above : ℕ) → LeadUp nodes.now number path.items above → AreThoseOf nodes.now above maker.old.decisions → AreThoseOf nodes.now number maker.new.decisions }
    ensures best { KeepsBest maker.old maker.new }
{
    while let Some(number) = path.pop() {
        enter(nodes, maker, number);
    }
}

/// Goes down to a node from its parent.
fn enter(nodes: &[Kept], maker: &mut Maker<'_, '_>, number: u32)
    requires state { IsFleetState maker.old.graph maker.old.state }
    requires ways { EachHasWay nodes.now }
    requires right { AreMadeRight maker.old.graph maker.old.state nodes.now }
    requires child { 0 < number }
    requires stand { HasNoCycle nodes.now number }
    requires parent { (origin : Origin) → IsFrom nodes.now number origin → AreThoseOf nodes.now origin.parent maker.old.decisions }
    ensures there { AreThoseOf nodes.now number maker.new.decisions }
    ensures best { KeepsBest maker.old maker.new }
{
    let origin = origin_of(nodes, number);
    maker.descend(origin.pair, origin.side);
    force(maker, nodes[number as usize].node.forced.as_slice());
}

/// Gives pairs their forced sides.
fn force(maker: &mut Maker<'_, '_>, forced: &[Forcing])
    requires { CanForce maker.old.graph maker.old.state maker.old.decisions forced.now }
    ensures decisions { maker.new.decisions ≡ given_after forced.now maker.old.decisions }
    ensures best { KeepsBest maker.old maker.new }
{
    for forcing in forced {
        maker.descend(forcing.pair, forcing.side);
    }
}
