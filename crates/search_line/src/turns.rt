ghost use Rattle.std.specs.Prelude.{◌≡◌, ◌↔◌, false, Some, IfOk, OnOk, OnErr};
ghost use Rattle.std.specs.BTreeSet.{contains};
ghost use Rattle.search_line.specs.declared.turns.Turn.{Turn};
ghost use Rattle.search_line.specs.Turns.{turn_cmp, turn_for, AreAdded, AreRemoved, AreExchanged, IsTurn};

use crate::Waiting;
use fleet_base::Memory;
use order_choice::{MadeNode, Stand};
use std::alloc::Global;
use std::cmp::Reverse;
use std::collections::BTreeSet;

/// When a node that waits has its turn: the least relaxed cost comes first, and among equals the node made last.
#[derive(Clone, Copy, Debug, PartialEq, Eq, PartialOrd, Ord)]
pub(crate) struct Turn {
    pub(crate) cost: u64,
    pub(crate) number: Reverse<u32>,
}

/// The turn of a node that was just made, if it waits.
pub(crate) fn turn_of(number: u32, node: &MadeNode) -> Option<Turn>
    ensures { result ≡ turn_for number node.now.stand }
{
    match node.stand {
        Stand::Waiting { cost } => Some(Turn {
            cost,
            number: Reverse(number),
        }),
        _ => None,
    }
}

/// The turns of a root.
pub(crate) fn first_turn(alloc: Global, root: &MadeNode) -> Result<BTreeSet<Turn>, Memory>
    ensures { IfOk result (λ turns. (t : Turn) → IsTurn turns t ↔ (turn_for 0 root.now.stand ≡ Some t)) }
{
    let mut turns = BTreeSet::new(alloc);
    add(&mut turns, turn_of(0, root))?;
    Ok(turns)
}

/// Adds the turn of a node, if it waits. For want of memory the turns stay.
fn add(turns: &mut BTreeSet<Turn>, more: Option<Turn>) -> Result<(), Memory>
    ensures added { OnOk result (AreAdded turns.old turns.new more) }
    ensures stays { OnErr result (turns.new.keys ≡ turns.old.keys) }
{
    let Some(turn) = more else {
        return Ok(());
    };
    match turns.insert(turn) {
        Ok(_) => Ok(()),
        Err(_) => Err(Memory),
    }
}

/// Takes the turn of a node out, if it waits.
fn remove(turns: &mut BTreeSet<Turn>, gone: Option<Turn>)
    ensures { AreRemoved turns.old turns.new gone }
{
    if let Some(turn) = gone {
        turns.remove(&turn);
    }
}

/// Takes the turn of a node that waits out, and adds those of its children. For want of memory the turns stay.
pub(crate) fn exchange(
    turns: &mut BTreeSet<Turn>,
    waiting: Waiting,
    lower: Option<Turn>,
    higher: Option<Turn>,
) -> Result<(), Memory>
    requires { (t : Turn) → lower ≡ Some t → contains turn_cmp turns.old t ≡ false }
    ensures exchanged { OnOk result (AreExchanged turns.old turns.new (record { cost = waiting.cost; number = record { 0 = waiting.number } }) lower higher) }
    ensures stays { OnErr result ((t : Turn) → IsTurn turns.new t ↔ IsTurn turns.old t) }
{
    add(turns, lower)?;
    match add(turns, higher) {
        Ok(()) => {
            turns.remove(&Turn {
                cost: waiting.cost,
                number: Reverse(waiting.number),
            });
            Ok(())
        }
        Err(memory) => {
            remove(turns, lower);
            Err(memory)
        }
    }
}
