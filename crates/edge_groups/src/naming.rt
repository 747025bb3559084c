// The least pair of each group, found by going from pair to pair.
ghost use Rattle.std.specs.Prelude.{ℕ, ◌≡◌, ◌≢◌, ◌+◌, ◌<◌, ◌≤◌, length, vec_len, slice_index, [], ◌∷◌, ◌++◌, IfOk, OnOk};
ghost use Rattle.fleet_base.specs.Lists.{row_of};
ghost use Rattle.edge_groups.specs.Kept.{rows_in, AreKept};
ghost use Rattle.edge_groups.specs.Names.{AreMutual, AreNames};
ghost use Rattle.edge_groups.specs.Naming.{IsNaming, AreNamed, IsNamed, unnamed_in};

use crate::lists::MateLists;
use fleet_base::{Memory, PairId};
use std::alloc::Global;

/// What stands in place of a name that is not given yet.
const UNNAMED: u32 = u32::MAX;

/// The name of each pair: the least pair that chains of mates join it with.
pub(crate) fn name_groups(alloc: Global, lists: &MateLists) -> Result<Vec<u32>, Memory>
    requires kept { AreKept lists.now }
    requires mutual { AreMutual (rows_in lists.now) }
    ensures { IfOk result (λ names. AreNames (rows_in lists.now) names.items) }
{
    let count = lists.places.len();
    let mut names = vec![in alloc; UNNAMED; count]?;
    let mut waiting = Vec::new(alloc);
    for q in 0..count {
        if names[q] == UNNAMED {
            name_group(lists, &mut names, &mut waiting, q as u32)?;
        }
    }
    Ok(names)
}

/// Gives all pairs of a group the number of the least one, which none of them has yet.
fn name_group(
    lists: &MateLists,
    names: &mut [u32],
    waiting: &mut Vec<u32>,
    least: u32,
) -> Result<(), Memory>
    requires kept { AreKept lists.now }
    requires mutual { AreMutual (rows_in lists.now) }
    requires there { least < length names.old }
    requires unnamed { slice_index names.old least ≡ 4294967295 }
    requires none { waiting.old.items ≡ [] }
    requires naming { IsNaming (rows_in lists.now) names.old [] least }
    ensures none { OnOk result (waiting.new.items ≡ []) }
    ensures naming { OnOk result (IsNaming (rows_in lists.now) names.new [] (least + 1)) }
{
    names[least as usize] = least;
    wait(waiting, least)?;
    while let Some(q) = waiting.pop() {
        name_mates(lists, q, names, waiting, least)?;
    }
    Ok(())
}

/// Gives a pair's mates its name, where they have none. Those are waiting then.
fn name_mates(
    lists: &MateLists,
    q: u32,
    names: &mut [u32],
    waiting: &mut Vec<u32>,
    name: u32,
) -> Result<(), Memory>
    requires kept { AreKept lists.now }
    requires mutual { AreMutual (rows_in lists.now) }
    requires naming { IsNaming (rows_in lists.now) names.old (q ∷ waiting.old.items) (name + 1) }
    requires pending { AreNamed names.old (q ∷ waiting.old.items) name }
    ensures naming { OnOk result (IsNaming (rows_in lists.now) names.new waiting.new.items (name + 1)) }
    ensures pending { OnOk result (AreNamed names.new waiting.new.items name) }
    ensures moved { OnOk result (length waiting.new.items + unnamed_in names.new ≡ length waiting.old.items + unnamed_in names.old) }
{
    for mate in lists.row(q) {
        if names[mate.0 as usize] == UNNAMED {
            names[mate.0 as usize] = name;
            wait(waiting, mate.0)?;
        }
    }
    Ok(())
}

/// A pair more waits.
fn wait(waiting: &mut Vec<u32>, q: u32) -> Result<(), Memory>
    ensures { OnOk result (waiting.new.items ≡ waiting.old.items ++ q ∷ []) }
{
    Ok(waiting.push(q)?)
}
