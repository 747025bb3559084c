// How a node is made.
ghost use Rattle.std.specs.Prelude.{◌≡◌, ◌<◌, ◌≤◌, ◌-◌, ◌∷◌, ◌↔◌, [], List, length, drop, true, false, None, IfOk, OnOk, IfSome, IfNone};
ghost use Rattle.fleet_base.specs.Order.{IsCyclic};
ghost use Rattle.fleet_base.specs.Rules.{IsFleetState};
ghost use Rattle.edge_groups.specs.Mates.{AreAllMates};
ghost use Rattle.longest_path.specs.Ticks.{IsKeptFor};
ghost use Rattle.longest_path.specs.Decisions.{IsFree, order_on};
ghost use Rattle.longest_path.specs.Deciding.{one_more};
ghost use Rattle.cert_tree.specs.Decisions.{Decision};
ghost use Rattle.cert_tree.specs.Trees.{branch_to};
ghost use Rattle.order_choice.specs.Candidates.{IsNoCheaper};
ghost use Rattle.order_choice.specs.Searching.{IsMade, IsForcedOut};
ghost use Rattle.search_nodes.specs.Rooms.{IsRoomFor};
ghost use Rattle.search_nodes.specs.Forcing.{AreThere, HasForced, HasNoForcing, IsForcing, IsForcedBy, IsAfter, WereForced, given_to, given_after};
ghost use Rattle.search_nodes.specs.Making.{IsBack, given_on};
ghost use Rattle.search_nodes.specs.Weighing.{IsLeastSum, IsRound};

use crate::candidate::{cycle_with, write_candidate};
use crate::forcing::{Suspects, force, forced_pairs, suspect_mates, undo_to};
use crate::weighing::{cost_below, parted_pair};
use crate::{Maker, Room};
use edge_groups::GroupTable;
use fleet_base::{Items, Memory, PairId, Side, Visit};
use longest_path::Ticks;
use order_choice::{Forcing, MadeNode, Stand};
use std::alloc::Global;
use std::mem::swap;

impl<'g, 'f> Maker<'g, 'f> {
    /// Makes the node without decisions. The best order may become a cheaper one.
    pub fn make_root(&mut self, alloc: Global, room: &mut Room) -> Result<MadeNode, Memory>
        requires room { IsRoomFor self.old.graph room.old }
        requires none { self.old.decisions ≡ [] }
        ensures made { IfOk result (λ node. IsMade self.new.graph self.new.state self.new.cost [] node) }
        ensures back { IsBack self.old self.new self.old.asked }
        ensures room { IsRoomFor self.old.graph room.new }
    {
        let mut suspects = self.forced_pairs(alloc, &room.groups)?;
        self.make_on(alloc, &room.groups, &mut room.ticks, &mut suspects)
    }

    /// Makes the node that gives a pair a side beyond the decisions in force, which stay in force. The best order may
    /// become a cheaper one. Where forcing was at its end, the node is as it says.
    pub fn make_child(
        &mut self,
        alloc: Global,
        room: &mut Room,
        q: PairId,
        side: Side,
    ) -> Result<MadeNode, Memory>
        requires room { IsRoomFor self.old.graph room.old }
        requires free { IsFree self.old.graph self.old.state self.old.decisions q.0 }
        ensures made { IfOk result (λ node. (way : List Decision) → self.old.decisions ≡ given_on way → IsForcedOut self.old.graph self.old.state way → IsMade self.new.graph self.new.state self.new.cost (branch_to q side ∷ way) node) }
        ensures back { IsBack self.old self.new (one_more self.old.asked) }
        ensures room { IsRoomFor self.old.graph room.new }
    {
        if !self.decide(q, side) {
            let forced = Items::new(alloc);
            let stand = self.round(alloc, &mut room.ticks, q, side)?;
            return Ok(MadeNode { forced, stand });
        }
        let made = self.make_branched(alloc, &room.groups, &mut room.ticks, q);
        self.ascend();
        made
    }

    /// Makes the node of the decisions in force, of which the last one gave this pair a side.
    fn make_branched(
        &mut self,
        alloc: Global,
        groups: &GroupTable,
        ticks: &mut Ticks,
        q: PairId,
    ) -> Result<MadeNode, Memory>
        requires mates { AreAllMates self.old.graph groups.now }
        requires room { IsKeptFor self.old.graph ticks.old }
        requires there { q.0 < length self.old.graph.pairs }
        ensures made { IfOk result (λ node. (way : List Decision) → self.old.decisions ≡ given_on way → IsForcedBy self.old.graph (order_on self.old.graph self.old.state self.old.decisions) q.0 → IsMade self.new.graph self.new.state self.new.cost way node) }
        ensures back { IsBack self.old self.new self.old.asked }
        ensures room { IsKeptFor self.old.graph ticks.new }
    {
        let mut suspects = Suspects::new(alloc);
        suspect_mates(groups, &mut suspects, q)?;
        self.make_on(alloc, groups, ticks, &mut suspects)
    }

    /// Makes the node of the decisions in force, which stay in force.
    fn make_on(
        &mut self,
        alloc: Global,
        groups: &GroupTable,
        ticks: &mut Ticks,
        suspects: &mut Suspects,
    ) -> Result<MadeNode, Memory>
        requires mates { AreAllMates self.old.graph groups.now }
        requires room { IsKeptFor self.old.graph ticks.old }
        requires there { AreThere self.old.graph suspects.old.keys }
        ensures made { IfOk result (λ node. (way : List Decision) → self.old.decisions ≡ given_on way → HasForced self.old.graph (order_on self.old.graph self.old.state self.old.decisions) suspects.old.keys → IsMade self.new.graph self.new.state self.new.cost way node) }
        ensures back { IsBack self.old self.new self.old.asked }
        ensures room { IsKeptFor self.old.graph ticks.new }
    {
        let depth = self.depth();
        let made = self.make_forced(alloc, groups, ticks, suspects);
        self.ascend_to(depth);
        made
    }

    /// Makes the node of the decisions in force, and leaves what was forced in force too.
    fn make_forced(
        &mut self,
        alloc: Global,
        groups: &GroupTable,
        ticks: &mut Ticks,
        suspects: &mut Suspects,
    ) -> Result<MadeNode, Memory>
        requires mates { AreAllMates self.old.graph groups.now }
        requires room { IsKeptFor self.old.graph ticks.old }
        requires there { AreThere self.old.graph suspects.old.keys }
        ensures made { IfOk result (λ node. (way : List Decision) → self.old.decisions ≡ given_on way → HasForced self.old.graph (order_on self.old.graph self.old.state self.old.decisions) suspects.old.keys → IsMade self.new.graph self.new.state self.new.cost way node) }
        ensures graph { self.new.graph ≡ self.old.graph }
        ensures state { self.new.state ≡ self.old.state }
        ensures after { IsAfter self.old.decisions self.new.decisions }
        ensures no_dearer { self.new.cost ≤ self.old.cost }
        ensures asked { self.old.asked ≤ self.new.asked }
        ensures room { IsKeptFor self.old.graph ticks.new }
    {
        let mut forced = Items::new(alloc);
        if let Some(refused) = self.force(groups, suspects, &mut forced)? {
            forced.push(refused)?;
            let stand = self.round(alloc, ticks, refused.pair, refused.side)?;
            return Ok(MadeNode { forced, stand });
        }
        let cost = self.weigh(groups, ticks);
        let stand = Stand::Waiting { cost };
        Ok(MadeNode { forced, stand })
    }

    /// Gives an open pair a side, and says whether it did: it does not where the decisions would have a cycle then.
    pub(crate) fn decide(&mut self, q: PairId, side: Side) -> bool
        requires { IsFree self.old.graph self.old.state self.old.decisions q.0 }
        ensures kept { result ≡ true → self.new ≡ record self.old { decisions = given_to q side ∷ self.old.decisions; asked = one_more self.old.asked } }
        ensures refused { result ≡ false → self.new ≡ record self.old { asked = one_more self.old.asked } }
        ensures cyclic { (result ≡ false) ↔ IsCyclic self.old.graph (order_on self.old.graph self.old.state (given_to q side ∷ self.old.decisions)) }
        ensures counts { self.old.asked ≤ one_more self.old.asked }
        ensures rules { IsFleetState self.old.graph self.old.state }
    {
        let _within = self.live.asked();
        self.live.decide(q, side)
    }

    /// The number of decisions in force.
    fn depth(&self) -> u32
        ensures { result ≡ length self.now.decisions }
    {
        self.live.depth()
    }

    /// Takes decisions back until so many are left.
    fn ascend_to(&mut self, depth: u32)
        requires { depth ≤ length self.old.decisions }
        ensures { self.new ≡ record self.old { decisions = drop (length self.old.decisions - depth) self.old.decisions } }
    {
        undo_to(&mut self.live, depth);
    }

    /// The pairs that are forced.
    fn forced_pairs(&self, alloc: Global, groups: &GroupTable) -> Result<Suspects, Memory>
        requires { AreAllMates self.now.graph groups.now }
        ensures forced { IfOk result (λ suspects. HasForced self.now.graph (order_on self.now.graph self.now.state self.now.decisions) suspects.keys) }
        ensures there { IfOk result (λ suspects. AreThere self.now.graph suspects.keys) }
    {
        forced_pairs(alloc, self.graph, &self.live, groups)
    }

    /// Forces pairs as long as there are any. Where a forcing would close a cycle it is not made, and answered.
    fn force(
        &mut self,
        groups: &GroupTable,
        suspects: &mut Suspects,
        forced: &mut Items<Forcing>,
    ) -> Result<Option<Forcing>, Memory>
        requires mates { AreAllMates self.old.graph groups.now }
        requires there { AreThere self.old.graph suspects.old.keys }
        requires empty { forced.old ≡ [] }
        ensures rules { IsFleetState self.old.graph self.old.state }
        ensures graph { self.new.graph ≡ self.old.graph }
        ensures state { self.new.state ≡ self.old.state }
        ensures cost { self.new.cost ≡ self.old.cost }
        ensures asked { self.old.asked ≤ self.new.asked }
        ensures after { IsAfter self.old.decisions self.new.decisions }
        ensures decisions { OnOk result (self.new.decisions ≡ given_after forced.new self.old.decisions) }
        ensures forced { OnOk result (WereForced self.old.graph self.old.state forced.new self.old.decisions) }
        ensures out { IfOk result (λ refused. IfNone refused (HasForced self.old.graph (order_on self.old.graph self.old.state self.old.decisions) suspects.old.keys → HasNoForcing self.old.graph (order_on self.old.graph self.old.state self.new.decisions))) }
        ensures refused { IfOk result (λ refused. IfSome refused (λ f. IsForcing self.old.graph (order_on self.old.graph self.old.state self.new.decisions) f)) }
        ensures cyclic { IfOk result (λ refused. IfSome refused (λ f. IsCyclic self.old.graph (order_on self.old.graph self.old.state (given_to f.pair f.side ∷ self.new.decisions)))) }
    {
        force(&mut self.live, groups, suspects, forced)
    }

    /// A node whose decisions have a cycle: those in force, and one more.
    fn round(
        &mut self,
        alloc: Global,
        ticks: &mut Ticks,
        q: PairId,
        side: Side,
    ) -> Result<Stand, Memory>
        requires room { IsKeptFor self.old.graph ticks.old }
        requires none { order_on self.old.graph self.old.state self.old.decisions q.0 ≡ None }
        requires there { q.0 < length self.old.graph.pairs }
        requires cyclic { IsCyclic self.old.graph (order_on self.old.graph self.old.state (given_to q side ∷ self.old.decisions)) }
        ensures round { IfOk result (IsRound self.old.graph (order_on self.old.graph self.old.state (given_to q side ∷ self.old.decisions))) }
        ensures same { self.new ≡ self.old }
        ensures room { IsKeptFor self.old.graph ticks.new }
    {
        let cycle = cycle_with(
            alloc,
            &mut self.candidate,
            &self.live,
            self.fleet,
            ticks,
            q,
            side,
        )?;
        Ok(Stand::Round { cycle })
    }

    /// The relaxed cost of the decisions in force. Where it is below the best cost, their candidate is weighed: else it
    /// cannot be cheaper.
    fn weigh(&mut self, groups: &GroupTable, ticks: &mut Ticks) -> u64
        requires mates { AreAllMates self.old.graph groups.now }
        requires room { IsKeptFor self.old.graph ticks.old }
        ensures relaxed { IsLeastSum self.old.graph self.old.state (order_on self.old.graph self.old.state self.old.decisions) result }
        ensures weighed { (way : List Decision) → self.old.decisions ≡ given_on way → IsNoCheaper self.old.graph self.old.state self.new.cost way }
        ensures back { IsBack self.old self.new self.old.asked }
        ensures room { IsKeptFor self.old.graph ticks.new }
    {
        let _some = self.graph.robots();
        let _least = self.live.at(Visit { robot: 0, index: 0 });
        let relaxed = self.live.end_sum();
        if self.cost <= relaxed {
            return relaxed;
        }
        self.weigh_candidate(groups, ticks);
        relaxed
    }

    /// A candidate that is sound and costs less than the best order takes its place. Most candidates part a pair from a
    /// mate, often the same pair as the one before did, and need not be written.
    fn weigh_candidate(&mut self, groups: &GroupTable, ticks: &mut Ticks)
        requires mates { AreAllMates self.old.graph groups.now }
        requires room { IsKeptFor self.old.graph ticks.old }
        ensures weighed { (way : List Decision) → self.old.decisions ≡ given_on way → IsNoCheaper self.old.graph self.old.state self.new.cost way }
        ensures back { IsBack self.old self.new self.old.asked }
        ensures room { IsKeptFor self.old.graph ticks.new }
    {
        if let Some(q) = parted_pair(self.graph, &self.live, self.fleet, groups, self.parted) {
            self.parted = q;
            return;
        }
        write_candidate(&mut self.candidate, &self.live, self.fleet);
        if let Some(cost) = cost_below(&self.candidate, self.fleet, ticks, self.cost) {
            swap(&mut self.candidate, &mut self.best);
            self.cost = cost;
        }
    }
}
