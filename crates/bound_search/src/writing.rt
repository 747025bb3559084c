// The certificate that is written of a search.
ghost use Rattle.std.specs.Prelude.{ℕ, ◌≡◌, ◌+◌, ◌<◌, ◌≤◌, ◌^◌, ◌++◌, ◌∷◌, [], List, length, IfOk, OnOk, Some};
ghost use Rattle.cert_tree.specs.declared.node.Node.TheVariants.{Cyclic, Force};
ghost use Rattle.cert_tree.specs.Decisions.{Decision};
ghost use Rattle.order_choice.specs.declared.made.MadeNode.{MadeNode};
ghost use Rattle.order_choice.specs.Searching.{forced_on};
ghost use Rattle.order_choice.specs.Writing.{forced_nodes, with_children};
ghost use Rattle.search_line.specs.Lines.{nodes_on, IsAt, IsOn, HasCostAt};
ghost use Rattle.bound_search.specs.UnderWay.{IsUnderWay};
ghost use Rattle.bound_search.specs.Walking.{IsBoundAt, IsCertOf, IsTaken, IsWalked, IsWrittenAs};
ghost use Rattle.search_nodes.specs.Making.{KeepsBest};

use crate::under_way::Search;
use cert_tree::{Cert, Node};
use fleet_base::{Memory, PairList};
use order_choice::{Forcing, Stand};
use std::alloc::Global;

/// How far a certificate is written: the number of the node that comes next and how many are to come, how many of their
/// trees are left out, and the nodes that are written.
#[derive(Drop)]
pub(crate) struct Walk {
    pub next: Option<u32>,
    pub to_come: u32,
    pub left_out: u64,
    pub cert: Cert,
}

/// What is written of a node behind its Force nodes, and how many trees are left out behind it.
#[derive(Drop)]
pub(crate) struct Written {
    pub node: Node,
    pub left_out: u64,
}

impl<'g, 'f> Search<'g, 'f> {
    /// The certificate of the nodes made, in preorder. Where it would have 2^32 nodes, the answer is want of memory.
    pub(crate) fn certificate(&mut self, alloc: Global) -> Result<Cert, Memory>
        requires under_way { IsUnderWay self.old.maker self.old.line self.old.place self.old.expanded }
        ensures under_way { IfOk result (λ cert. IsUnderWay self.new.maker self.new.line self.new.place self.new.expanded) }
        ensures cert { IfOk result (λ cert. IsCertOf self.new.maker (nodes_on self.new.line) ([] ∷ []) cert) }
        ensures few { IfOk result (λ cert. length cert < 2 ^ 32) }
        ensures best { IfOk result (λ cert. KeepsBest self.old.maker self.new.maker) }
        ensures line { IfOk result (λ cert. self.new.line ≡ self.old.line) }
        ensures expanded { IfOk result (λ cert. self.new.expanded ≡ self.old.expanded) }
    {
        let cert = self.write(alloc)?;
        if cert.as_slice().len() > u32::MAX as usize {
            return Err(Memory);
        }
        Ok(cert)
    }

    /// Writes the nodes made, from the first on.
    fn write(&mut self, alloc: Global) -> Result<Cert, Memory>
        requires under_way { IsUnderWay self.old.maker self.old.line self.old.place self.old.expanded }
        ensures under_way { IfOk result (λ cert. IsUnderWay self.new.maker self.new.line self.new.place self.new.expanded) }
        ensures cert { IfOk result (λ cert. IsCertOf self.new.maker (nodes_on self.new.line) ([] ∷ []) cert) }
        ensures best { IfOk result (λ cert. KeepsBest self.old.maker self.new.maker) }
        ensures line { IfOk result (λ cert. self.new.line ≡ self.old.line) }
        ensures expanded { IfOk result (λ cert. self.new.expanded ≡ self.old.expanded) }
    {
        let mut walk = Walk {
            next: Some(0),
            to_come: self.line.count(),
            left_out: 0,
            cert: Cert::new(alloc),
        };
        while let Some(number) = walk.next {
            self.pass(alloc, number, &mut walk)?;
        }
        Ok(walk.cert)
    }

    /// Goes past a node, the next one on the walk.
    fn pass(&mut self, alloc: Global, number: u32, walk: &mut Walk) -> Result<(), Memory>
        requires under_way { IsUnderWay self.old.maker self.old.line self.old.place self.old.expanded }
        requires walked { IsWalked self.old.maker self.old.line walk.old }
        requires next { walk.old.next ≡ Some number }
        ensures under_way { OnOk result (IsUnderWay self.new.maker self.new.line self.new.place self.new.expanded) }
        ensures walked { OnOk result (IsWalked self.new.maker self.new.line walk.new) }
        ensures less { OnOk result (walk.new.to_come + 1 ≡ walk.old.to_come) }
        ensures best { OnOk result (KeepsBest self.old.maker self.new.maker) }
        ensures line { OnOk result (self.new.line ≡ self.old.line) }
        ensures expanded { OnOk result (self.new.expanded ≡ self.old.expanded) }
    {
        let _few = self.line.count();
        walk.left_out = self.take(alloc, number, walk.left_out, &mut walk.cert)?;
        walk.to_come -= 1;
        walk.next = self.line.after(number);
        Ok(())
    }

    /// Writes a node, unless trees are left out before it: then it is left out with its children. Says how many trees are left
    /// out behind it.
    fn take(
        &mut self,
        alloc: Global,
        number: u32,
        left_out: u64,
        cert: &mut Cert,
    ) -> Result<u64, Memory>
        requires under_way { IsUnderWay self.old.maker self.old.line self.old.place self.old.expanded }
        requires there { IsOn self.old.line number }
        requires few { left_out < 2 ^ 34 }
        ensures under_way { IfOk result (λ more. IsUnderWay self.new.maker self.new.line self.new.place self.new.expanded) }
        ensures taken { IfOk result (λ more. (node : MadeNode) (way : List Decision) → IsAt self.old.line number node way → IsTaken self.new.maker node way cert.old cert.new left_out more) }
        ensures best { IfOk result (λ more. KeepsBest self.old.maker self.new.maker) }
        ensures line { IfOk result (λ more. self.new.line ≡ self.old.line) }
        ensures expanded { IfOk result (λ more. self.new.expanded ≡ self.old.expanded) }
    {
        if left_out > 0 {
            return Ok(left_out - 1 + self.children(number));
        }
        push_forced(alloc, self.line.node(number).forced.as_slice(), cert)?;
        let written = self.written(alloc, number)?;
        cert.push(written.node)?;
        Ok(written.left_out)
    }

    /// How many children a node has.
    fn children(&self, number: u32) -> u64
        requires { IsOn self.now.line number }
        ensures two { result ≤ 2 }
        ensures children { (node : MadeNode) (way : List Decision) (k : ℕ) → IsAt self.now.line number node way → with_children node.stand k ≡ k + result }
    {
        match &self.line.node(number).stand {
            Stand::Expanded { .. } => 2,
            _ => 0,
        }
    }

    /// What is written of a node behind its Force nodes.
    fn written(&mut self, alloc: Global, number: u32) -> Result<Written, Memory>
        requires under_way { IsUnderWay self.old.maker self.old.line self.old.place self.old.expanded }
        requires there { IsOn self.old.line number }
        ensures under_way { IfOk result (λ written. IsUnderWay self.new.maker self.new.line self.new.place self.new.expanded) }
        ensures written { IfOk result (λ written. (node : MadeNode) (way : List Decision) → IsAt self.old.line number node way → IsWrittenAs self.new.maker.graph self.new.maker.state self.new.maker.cost (forced_on node.forced way) node.stand written.node written.left_out) }
        ensures best { IfOk result (λ written. KeepsBest self.old.maker self.new.maker) }
        ensures line { IfOk result (λ written. self.new.line ≡ self.old.line) }
        ensures expanded { IfOk result (λ written. self.new.expanded ≡ self.old.expanded) }
    {
        let best = self.maker.cost();
        match &self.line.node(number).stand {
            Stand::Round { cycle } => Ok(Written {
                node: cyclic(alloc, cycle)?,
                left_out: 0,
            }),
            Stand::Waiting { cost } if *cost < best => {
                Ok(Written {
                    node: Node::OpenLeaf { least: *cost },
                    left_out: 0,
                })
            }
            Stand::Expanded { cost, pair } if *cost < best => {
                Ok(Written {
                    node: Node::Branch { pair: *pair },
                    left_out: 0,
                })
            }
            Stand::Waiting { .. } => Ok(Written {
                node: self.bound(alloc, number)?,
                left_out: 0,
            }),
            Stand::Expanded { .. } => Ok(Written {
                node: self.bound(alloc, number)?,
                left_out: 2,
            }),
        }
    }

    /// A Bound of a node that has a relaxed cost.
    fn bound(&mut self, alloc: Global, number: u32) -> Result<Node, Memory>
        requires under_way { IsUnderWay self.old.maker self.old.line self.old.place self.old.expanded }
        requires there { HasCostAt self.old.line number }
        ensures under_way { IfOk result (λ node. IsUnderWay self.new.maker self.new.line self.new.place self.new.expanded) }
        ensures bound { IfOk result (λ node. IsBoundAt self.new.maker self.old.line number node) }
        ensures best { IfOk result (λ node. KeepsBest self.old.maker self.new.maker) }
        ensures line { IfOk result (λ node. self.new.line ≡ self.old.line) }
        ensures expanded { IfOk result (λ node. self.new.expanded ≡ self.old.expanded) }
    {
        self.go_to(alloc, number)?;
        let paths = self.maker.paths(alloc)?;
        Ok(Node::Bound { paths })
    }
}

/// Writes the Force nodes of a node.
fn push_forced(alloc: Global, forced: &[Forcing], cert: &mut Cert) -> Result<(), Memory>
    ensures { OnOk result (cert.new ≡ cert.old ++ forced_nodes forced.now) }
{
    for forcing in forced {
        cert.push(force(alloc, *forcing)?)?;
    }
    Ok(())
}

/// The Force node of a pair that got the side of its mate. Its cycle is the mate, then the pair.
fn force(alloc: Global, forcing: Forcing) -> Result<Node, Memory>
    ensures { IfOk result (λ node. node ≡ Force forcing.pair forcing.side (forcing.mate ∷ forcing.pair ∷ [])) }
{
    let cycle = PairList::from_slice(alloc, &[forcing.mate, forcing.pair])?;
    Ok(Node::Force {
        pair: forcing.pair,
        side: forcing.side,
        cycle,
    })
}

/// A Cyclic leaf.
fn cyclic(alloc: Global, cycle: &PairList) -> Result<Node, Memory>
    ensures { IfOk result (λ node. node ≡ Cyclic cycle.now) }
{
    let cycle = PairList::from_slice(alloc, cycle.as_slice())?;
    Ok(Node::Cyclic { cycle })
}
