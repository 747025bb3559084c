ghost use Rattle.std.specs.Prelude.{ℕ, ◌≡◌, ◌+◌, ◌∷◌, ◌++◌, [], List, length, IfOk, OnOk, OnErr, IfSome, IfNone};
ghost use Rattle.order_choice.specs.declared.made.MadeNode.{MadeNode};
ghost use Rattle.order_choice.specs.declared.made.Stand.TheVariants.{Expanded};
ghost use Rattle.order_choice.specs.Searching.{AreAbove, IsNew};
ghost use Rattle.search_line.specs.Lines.{Numbered, nodes_on, first_number, IsOn, IsWaiting};

use crate::kept::{Kept, keep_children, make_room};
use crate::turns::{Turn, exchange, first_turn, turn_of};
use fleet_base::{Memory, PairId};
use order_choice::MadeNode;
use std::alloc::Global;
use std::collections::BTreeSet;
use std::marker::Model;

/// A node that waits, and its relaxed cost in ticks.
#[derive(Clone, Copy, Debug, PartialEq, Eq)]
pub struct Waiting {
    pub number: u32,
    pub cost: u64,
}

/// The nodes that a search made, in the order in which they were made. It is seen as the line of them in preorder, each
/// with its number.
#[derive(Drop)]
pub struct Line {
    pub(crate) nodes: Vec<Kept>,
    turns: BTreeSet<Turn>,
}

impl Model for Line {
    ghost use Rattle.std.specs.Prelude.{List};
    ghost use Rattle.search_line.specs.Lines.{Numbered};

    ghost Value = { List Numbered };

    ghost use Rattle.search_line.specs.KeptLine.{line_of, IsLine};

    ghost view = { line_of };

    ghost invariant = { IsLine };
}

impl Line {
    /// The line of the root alone, which has number 0 and was not expanded.
    pub fn begin(alloc: Global, root: MadeNode) -> Result<Line, Memory>
        requires { IsNew root.stand }
        ensures { IfOk result (λ line. line ≡ record { number = 0; node = root } ∷ []) }
    {
        let turns = first_turn(alloc, &root)?;
        let mut nodes = Vec::new(alloc);
        let kept = Kept {
            origin: None,
            node: root,
            next: None,
        };
        match nodes.push(kept) {
            Ok(()) => Ok(Line { nodes, turns }),
            Err(_) => Err(Memory),
        }
    }

    /// A node that waits with the least relaxed cost of all that wait, if any does; among equals the one made last.
    pub fn least(&self) -> Option<Waiting>
        ensures waits { IfSome result (λ w. IsWaiting self.now w.number w.cost) }
        ensures least { IfSome result (λ w. AreAbove w.cost (nodes_on self.now)) }
        ensures none { IfNone result ((cost : ℕ) → AreAbove cost (nodes_on self.now)) }
    {
        match self.turns.first() {
            Some(turn) => Some(Waiting {
                number: turn.number.0,
                cost: turn.cost,
            }),
            None => None,
        }
    }

    /// Expands a node that waits on a pair: it no longer waits, and its two children stand behind it, their numbers being
    /// the next two. For want of memory, or of numbers, the line stays as it is.
    pub fn expand(
        &mut self,
        waiting: Waiting,
        q: PairId,
        lower: MadeNode,
        higher: MadeNode,
    ) -> Result<(), Memory>
        requires waits { IsWaiting self.old waiting.number waiting.cost }
        requires lower { IsNew lower.stand }
        requires higher { IsNew higher.stand }
        ensures expanded { OnOk result ((front back : List Numbered) (node : MadeNode) → self.old ≡ front ++ record { number = waiting.number; node = node } ∷ back → self.new ≡ front ++ record { number = waiting.number; node = record node { stand = Expanded waiting.cost q } } ∷ record { number = length self.old; node = lower } ∷ record { number = length self.old + 1; node = higher } ∷ back) }
        ensures stays { OnErr result (self.new ≡ self.old) }
    {
        make_room(&mut self.nodes)?;
        let first = self.nodes.len() as u32;
        let lower_turn = turn_of(first, &lower);
        let higher_turn = turn_of(first + 1, &higher);
        exchange(&mut self.turns, waiting, lower_turn, higher_turn)?;
        keep_children(&mut self.nodes, waiting, q, lower, higher);
        Ok(())
    }

    /// The number of the node behind this one on the line, if there is one. The first node has number 0.
    pub fn after(&self, number: u32) -> Option<u32>
        requires { IsOn self.now number }
        ensures { (front back : List Numbered) (node : MadeNode) → self.now ≡ front ++ record { number = number; node = node } ∷ back → result ≡ first_number back }
    {
        self.nodes[number as usize].next
    }

    /// A node by its number.
    pub fn node(&self, number: u32) -> &MadeNode
        requires { IsOn self.now number }
        ensures { (front back : List Numbered) (node : MadeNode) → self.now ≡ front ++ record { number = number; node = node } ∷ back → result.now ≡ node }
    {
        &self.nodes[number as usize].node
    }

    /// How many nodes there are.
    pub fn count(&self) -> u32
        ensures { result ≡ length self.now }
    {
        self.nodes.len() as u32
    }
}
