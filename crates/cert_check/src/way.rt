ghost use Rattle.std.specs.Prelude.{◌≡◌, ◌<◌, ◌≤◌, ◌∷◌, [], ℕ, None, reverse, IfOk, vec_len, length};
ghost use Rattle.std.specs.Vec.{vec_capacity};
ghost use Rattle.plan_graph.specs.Views.{order_in};
ghost use Rattle.cert_check.specs.Sides.{decided};
ghost use Rattle.cert_check.specs.Ways.{HasWay, ways_of, ways_behind, step_pair, step_side, branch_of, NextWay, DecidesFree};
ghost use Rattle.cert_tree.specs.Preorder.{ways_after};

use cert_tree::Node;
use fleet_base::{Memory, PairId, Side};
use plan_graph::Oriented;
use std::alloc::Global;

/// A decision on the way to a node.
#[derive(Clone, Copy)]
pub(crate) enum Step {
    /// A Branch, in its tree for `Lower`; its tree for `Higher` is still to come.
    Lower(PairId),
    /// A Branch, in its tree for `Higher`.
    Higher(PairId),
    /// A Force.
    Forced(PairId, Side),
}

impl Step {
    fn pair(self) -> PairId
        ensures { result ≡ step_pair self }
    {
        match self {
            Step::Lower(pair) | Step::Higher(pair) | Step::Forced(pair, _) => pair,
        }
    }

    fn side(self) -> Side
        ensures { result ≡ step_side self }
    {
        match self {
            Step::Lower(_) => Side::Lower,
            Step::Higher(_) => Side::Higher,
            Step::Forced(_, side) => side,
        }
    }

    /// The pair of a Branch.
    pub(crate) fn branched_on(&self) -> Option<PairId>
        ensures { result ≡ branch_of self.now }
    {
        match self {
            Step::Lower(pair) | Step::Higher(pair) => Some(*pair),
            Step::Forced(..) => None,
        }
    }
}

/// The decisions on the way to a node, the last one last, and for each pair the side that they give it.
#[derive(Drop)]
pub(crate) struct Way {
    pub(crate) sides: Vec<Option<Side>>,
    pub(crate) steps: Vec<Step>,
}

impl Way {
    /// No decision, with room for one for each pair.
    pub(crate) fn new(alloc: Global, pairs: usize) -> Result<Way, Memory>
        ensures pairs { IfOk result (λ way. vec_len way.sides ≡ pairs) }
        ensures room { IfOk result (λ way. vec_len way.sides ≤ vec_capacity way.steps) }
    {
        Ok(Way {
            sides: Vec::from_elem(alloc, None, pairs)?,
            steps: Vec::with_capacity(alloc, pairs)?,
        })
    }

    /// Forgets the decisions.
    pub(crate) fn clear(&mut self)
        requires { vec_len self.old.sides ≤ vec_capacity self.old.steps }
        ensures way { HasWay self.new [] }
        ensures sides { vec_len self.new.sides ≡ vec_len self.old.sides }
    {
        self.sides.fill(None);
        self.steps.clear();
    }

    /// Takes the sides of a view, as if each pair that has one were decided.
    pub(crate) fn take_sides(&mut self, view: &Oriented<'_>)
        requires { vec_len self.old.sides ≡ length view.now.graph.pairs }
        ensures taken { (q : ℕ) → q < vec_len self.old.sides → decided self.new.sides.items q ≡ order_in view.now q }
        ensures sides { vec_len self.new.sides ≡ vec_len self.old.sides }
        ensures steps { self.new.steps ≡ self.old.steps }
    {
        for number in 0..view.graph().pair_count() {
            self.sides[number as usize] = view.side(PairId(number));
        }
    }

    /// One decision more, of an undecided pair.
    fn decide(&mut self, step: Step)
        requires way { HasWay self.old (reverse self.old.steps.items) }
        requires pair { (step_pair step).0 < vec_len self.old.sides }
        requires free { decided self.old.sides.items (step_pair step).0 ≡ None }
        ensures way { HasWay self.new (step ∷ reverse self.old.steps.items) }
        ensures sides { vec_len self.new.sides ≡ vec_len self.old.sides }
    {
        self.sides[step.pair().0 as usize] = Some(step.side());
        self.steps.push_reserved(step);
    }

    /// Takes back the last decisions up to that of a Branch whose tree for `Higher` is to come, and goes there. False where
    /// there is none.
    fn turn(&mut self) -> bool
        requires { HasWay self.old (reverse self.old.steps.items) }
        ensures way { HasWay self.new (reverse self.new.steps.items) }
        ensures next { NextWay (ways_behind (reverse self.old.steps.items)) self.new result }
        ensures sides { vec_len self.new.sides ≡ vec_len self.old.sides }
    {
        while let Some(step) = self.steps.pop() {
            self.sides[step.pair().0 as usize] = None;
            if let Step::Lower(pair) = step {
                self.decide(Step::Higher(pair));
                return true;
            }
        }
        false
    }

    /// Goes on behind a node: whether there is a next one.
    pub(crate) fn follow(&mut self, node: &Node) -> bool
        requires way { HasWay self.old (reverse self.old.steps.items) }
        requires free { DecidesFree self.old node.now }
        ensures way { HasWay self.new (reverse self.new.steps.items) }
        ensures next { NextWay (ways_after node.now (ways_of (reverse self.old.steps.items))) self.new result }
        ensures sides { vec_len self.new.sides ≡ vec_len self.old.sides }
    {
        match node {
            Node::Branch { pair } => {
                self.decide(Step::Lower(*pair));
                true
            }
            Node::Force { pair, side, .. } => {
                self.decide(Step::Forced(*pair, *side));
                true
            }
            _ => self.turn(),
        }
    }
}
