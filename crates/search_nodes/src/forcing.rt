// How pairs get sides by their mates.
ghost use Rattle.std.specs.Prelude.{◌≡◌, ◌<◌, ◌≤◌, ◌-◌, ◌∷◌, ◌⊎◌, [], ℕ, length, drop, Contains, None, IsSome, IfOk, OnOk, IfSome, IfNone};
ghost use Rattle.fleet_base.specs.declared.order.PairId.{PairId};
ghost use Rattle.fleet_base.specs.Lists.{row_of};
ghost use Rattle.fleet_base.specs.Order.{IsCyclic};
ghost use Rattle.fleet_base.specs.Rules.{IsFleetState};
ghost use Rattle.fleet_base.specs.Groups.{AreMates};
ghost use Rattle.edge_groups.specs.Mates.{AreAllMates};
ghost use Rattle.longest_path.specs.Deciding.{order_in_force};
ghost use Rattle.longest_path.specs.Decisions.{order_on};
ghost use Rattle.search_nodes.specs.Forcing.{IsForcing, HasNoForcing, AreThere, HasForced, IsAfter, WereForced, given_to, given_after};

use edge_groups::GroupTable;
use fleet_base::{Items, Memory, PairId};
use longest_path::Live;
use order_choice::Forcing;
use plan_graph::PlanGraph;
use std::alloc::Global;
use std::collections::BTreeSet;

/// Pairs that may be forced.
pub(crate) type Suspects = BTreeSet<u32, Global>;

/// What the least mate that has a side forces on a pair without one.
fn forcing_of(live: &Live<'_>, groups: &GroupTable, pair: PairId) -> Option<Forcing>
    requires mates { AreAllMates live.now.graph groups.now }
    requires there { pair.0 < length live.now.graph.pairs }
    ensures some { IfSome result (λ f. IsForcing live.now.graph (order_in_force live.now) f) }
    ensures pair { IfSome result (λ f. f.pair ≡ pair) }
    ensures none { IfNone result ((r : ℕ) → AreMates live.now.graph pair.0 r → order_in_force live.now pair.0 ≡ None → order_in_force live.now r ≡ None) }
{
    if live.side(pair).is_some() {
        return None;
    }
    for mate in groups.mates(pair) {
        if let Some(side) = live.side(*mate) {
            return Some(Forcing {
                pair,
                side,
                mate: *mate,
            });
        }
    }
    None
}

/// The least pair that is forced, and what its least mate with a side forces on it. It and those before it are no longer
/// among the suspects.
fn next_forcing(live: &Live<'_>, groups: &GroupTable, suspects: &mut Suspects) -> Option<Forcing>
    requires mates { AreAllMates live.now.graph groups.now }
    requires there { AreThere live.now.graph suspects.old.keys }
    ensures some { IfSome result (λ f. IsForcing live.now.graph (order_in_force live.now) f) }
    ensures left { IfSome result (λ f. HasForced live.now.graph (order_in_force live.now) suspects.old.keys → HasForced live.now.graph (order_in_force live.now) (f.pair.0 ∷ suspects.new.keys)) }
    ensures none { IfNone result (HasForced live.now.graph (order_in_force live.now) suspects.old.keys → HasNoForcing live.now.graph (order_in_force live.now)) }
    ensures there { AreThere live.now.graph suspects.new.keys }
{
    while let Some(number) = suspects.pop_first() {
        if let Some(forcing) = forcing_of(live, groups, PairId(number)) {
            return Some(forcing);
        }
    }
    None
}

/// Puts a pair among the suspects.
fn suspect(suspects: &mut Suspects, pair: PairId) -> Result<(), Memory>
    ensures has { OnOk result (Contains suspects.new.keys pair.0) }
    ensures stay { (q : ℕ) → Contains suspects.old.keys q → Contains suspects.new.keys q }
    ensures only { (q : ℕ) → Contains suspects.new.keys q → (pair.0 ≡ q) ⊎ Contains suspects.old.keys q }
{
    match suspects.insert(pair.0) {
        Ok(_) => Ok(()),
        Err(_) => Err(Memory),
    }
}

/// Puts a pair's mates among the suspects.
pub(crate) fn suspect_mates(
    groups: &GroupTable,
    suspects: &mut Suspects,
    pair: PairId,
) -> Result<(), Memory>
    requires pair { pair.0 < length groups.now }
    ensures has { OnOk result ((r : PairId) → Contains (row_of groups.now pair.0) r → Contains suspects.new.keys r.0) }
    ensures stay { (q : ℕ) → Contains suspects.old.keys q → Contains suspects.new.keys q }
    ensures only { (q : ℕ) → Contains suspects.new.keys q → Contains (row_of groups.now pair.0) (record { 0 = q }) ⊎ Contains suspects.old.keys q }
{
    for mate in groups.mates(pair) {
        suspect(suspects, *mate)?;
    }
    Ok(())
}

/// Puts a pair among the suspects if it is forced.
fn suspect_forced(
    live: &Live<'_>,
    groups: &GroupTable,
    suspects: &mut Suspects,
    pair: PairId,
) -> Result<(), Memory>
    requires mates { AreAllMates live.now.graph groups.now }
    requires there { pair.0 < length live.now.graph.pairs }
    ensures has { OnOk result ((r : ℕ) → AreMates live.now.graph pair.0 r → order_in_force live.now pair.0 ≡ None → IsSome (order_in_force live.now r) → Contains suspects.new.keys pair.0) }
    ensures stay { (q : ℕ) → Contains suspects.old.keys q → Contains suspects.new.keys q }
    ensures only { (q : ℕ) → Contains suspects.new.keys q → (pair.0 ≡ q) ⊎ Contains suspects.old.keys q }
{
    match forcing_of(live, groups, pair) {
        Some(_) => suspect(suspects, pair),
        None => Ok(()),
    }
}

/// The pairs that are forced.
pub(crate) fn forced_pairs(
    alloc: Global,
    graph: &PlanGraph,
    live: &Live<'_>,
    groups: &GroupTable,
) -> Result<Suspects, Memory>
    requires graph { graph.now ≡ live.now.graph }
    requires mates { AreAllMates live.now.graph groups.now }
    ensures forced { IfOk result (λ suspects. HasForced live.now.graph (order_in_force live.now) suspects.keys) }
    ensures there { IfOk result (λ suspects. AreThere live.now.graph suspects.keys) }
{
    let mut suspects = Suspects::new(alloc);
    for number in 0..graph.pair_count() {
        suspect_forced(live, groups, &mut suspects, PairId(number))?;
    }
    Ok(suspects)
}

/// Forces pairs as long as there are any. Where a forcing would close a cycle it is not made, and answered.
pub(crate) fn force(
    live: &mut Live<'_>,
    groups: &GroupTable,
    suspects: &mut Suspects,
    forced: &mut Items<Forcing>,
) -> Result<Option<Forcing>, Memory>
    requires state { IsFleetState live.old.graph live.old.state }
    requires mates { AreAllMates live.old.graph groups.now }
    requires there { AreThere live.old.graph suspects.old.keys }
    requires empty { forced.old ≡ [] }
    ensures graph { live.new.graph ≡ live.old.graph }
    ensures state { live.new.state ≡ live.old.state }
    ensures asked { live.old.asked ≤ live.new.asked }
    ensures after { IsAfter live.old.decisions live.new.decisions }
    ensures decisions { OnOk result (live.new.decisions ≡ given_after forced.new live.old.decisions) }
    ensures forced { OnOk result (WereForced live.old.graph live.old.state forced.new live.old.decisions) }
    ensures out { IfOk result (λ refused. IfNone refused (HasForced live.old.graph (order_in_force live.old) suspects.old.keys → HasNoForcing live.old.graph (order_in_force live.new))) }
    ensures refused { IfOk result (λ refused. IfSome refused (λ f. IsForcing live.old.graph (order_in_force live.new) f)) }
    ensures cyclic { IfOk result (λ refused. IfSome refused (λ f. IsCyclic live.old.graph (order_on live.old.graph live.old.state (given_to f.pair f.side ∷ live.new.decisions)))) }
{
    while let Some(forcing) = next_forcing(live, groups, suspects) {
        let _within = live.asked();
        if !live.decide(forcing.pair, forcing.side) {
            return Ok(Some(forcing));
        }
        forced.push(forcing)?;
        suspect_mates(groups, suspects, forcing.pair)?;
    }
    Ok(None)
}

/// Takes decisions back until so many are left.
pub(crate) fn undo_to(live: &mut Live<'_>, depth: u32)
    requires { depth ≤ length live.old.decisions }
    ensures { live.new ≡ record live.old { decisions = drop (length live.old.decisions - depth) live.old.decisions } }
{
    while live.depth() > depth {
        live.undo();
    }
}
