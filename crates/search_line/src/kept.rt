ghost use Rattle.std.specs.Prelude.{◌≡◌, ◌+◌, ◌<◌, ◌≤◌, ◌^◌, length, OnOk};
ghost use Rattle.std.specs.Vec.{vec_capacity};
ghost use Rattle.search_line.specs.Nodes.{AreGrown, child_kept, expanded_kept};

use crate::Waiting;
use fleet_base::{Memory, PairId, Side};
use order_choice::{MadeNode, Stand};

/// Which branch of which node leads to a node.
#[derive(Clone, Copy, Debug)]
pub(crate) struct Origin {
    pub(crate) parent: u32,
    pub(crate) pair: PairId,
    pub(crate) side: Side,
}

/// A node, where it comes from, and the number of the one behind it on the line.
#[derive(Debug, Drop)]
pub(crate) struct Kept {
    pub(crate) origin: Option<Origin>,
    pub(crate) node: MadeNode,
    pub(crate) next: Option<u32>,
}

/// Room for two nodes more, and numbers for them. The nodes stay.
pub(crate) fn make_room(nodes: &mut Vec<Kept>) -> Result<(), Memory>
    ensures stays { nodes.new.items ≡ nodes.old.items }
    ensures room { OnOk result (length nodes.new.items + 2 ≤ vec_capacity nodes.new) }
    ensures few { OnOk result (length nodes.new.items + 2 < 2 ^ 32) }
{
    if nodes.len() > u32::MAX as usize - 2 || nodes.reserve(2).is_err() {
        return Err(Memory);
    }
    Ok(())
}

/// A node is expanded on a pair, and its two children are kept behind all other nodes and stand behind it on the line.
pub(crate) fn keep_children(
    nodes: &mut Vec<Kept>,
    waiting: Waiting,
    q: PairId,
    lower: MadeNode,
    higher: MadeNode,
)
    requires there { waiting.number < length nodes.old.items }
    requires room { length nodes.old.items + 2 ≤ vec_capacity nodes.old }
    requires few { length nodes.old.items + 2 < 2 ^ 32 }
    ensures { AreGrown nodes.old.items nodes.new.items waiting.number waiting.cost q lower higher }
{
    let first = nodes.len() as u32;
    let parent = &mut nodes[waiting.number as usize];
    let behind = parent.next;
    stand_expanded(parent, waiting.cost, q, first);
    nodes.push_reserved(child(waiting.number, q, Side::Lower, lower, Some(first + 1)));
    nodes.push_reserved(child(waiting.number, q, Side::Higher, higher, behind));
}

/// A node was expanded on a pair, and its first child stands behind it.
fn stand_expanded(kept: &mut Kept, cost: u64, pair: PairId, first: u32)
    ensures { kept.new ≡ expanded_kept kept.old cost pair first }
{
    kept.node.stand = Stand::Expanded { cost, pair };
    kept.next = Some(first);
}

/// A child as it is kept.
fn child(parent: u32, pair: PairId, side: Side, node: MadeNode, next: Option<u32>) -> Kept
    ensures { result ≡ child_kept parent pair side node next }
{
    Kept {
        origin: Some(Origin { parent, pair, side }),
        node,
        next,
    }
}
