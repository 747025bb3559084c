// The mates of all pairs in less room: what one list ends with, and the next begins with, is kept once.
ghost use Rattle.std.specs.Prelude.{ℕ, ◌≡◌, ◌-◌, ◌+◌, ◌<◌, ◌≤◌, ◌++◌, List, drop, take, length, slice_set, IfOk, OnOk};
ghost use Rattle.fleet_base.specs.declared.order.PairId.{PairId};
ghost use Rattle.edge_groups.specs.Kept.{rows_in, AreKept};
ghost use Rattle.edge_groups.specs.Packing.{IsPacking, IsPlaceOf};

use crate::cursor::{Cursor, rank_at};
use crate::lists::MateLists;
use fleet_base::{Memory, PairId};
use plan_graph::PlanGraph;
use std::alloc::Global;

/// What stands in place of a place that is not given yet.
const UNPLACED: u32 = u32::MAX;

/// The same mates in less room. The mates behind a pair are those before the pair with the lower robot's visit two behind and
/// the same visit of the higher robot: where the lists of such pairs follow one another, they share these mates.
pub(crate) fn pack(alloc: Global, graph: &PlanGraph, lists: &MateLists) -> Result<MateLists, Memory>
    requires kept { AreKept lists.now }
    ensures kept { IfOk result AreKept }
    ensures rows { IfOk result (λ packed. rows_in packed ≡ rows_in lists.now) }
{
    let count = lists.places.len();
    let beyond = all_beyond(alloc, graph)?;
    let mut packed = MateLists {
        places: vec![in alloc; UNPLACED; count]?,
        mates: Vec::new(alloc),
    };
    for first in 0..count {
        pack_from(&mut packed, lists, &beyond, first)?;
    }
    packed.mates.shrink_to_fit();
    Ok(packed)
}

/// For each pair the one with the lower robot's visit two behind and the same visit of the higher robot, or else itself.
fn all_beyond(alloc: Global, graph: &PlanGraph) -> Result<Vec<u32>, Memory> {
    let _plan = graph.robots();
    let mut beyond = Vec::new(alloc);
    let mut cursor = Cursor::new(0, 262_144);
    for q in 0..graph.pair_count() {
        let rank = rank_at(graph, PairId(q));
        let next = cursor.find(graph, rank).unwrap_or(PairId(q));
        beyond.push(next.0)?;
    }
    Ok(beyond)
}

/// Places a pair, and those beyond it that have no place yet.
fn pack_from(
    packed: &mut MateLists,
    lists: &MateLists,
    beyond: &[u32],
    first: usize,
) -> Result<(), Memory>
    requires kept { AreKept lists.now }
    requires packing { IsPacking (rows_in lists.now) packed.old first }
    requires there { first < length packed.old.places.items }
    ensures { OnOk result (IsPacking (rows_in lists.now) packed.new (first + 1)) }
{
    let mut q = first;
    while q < packed.places.len() && packed.places[q] == UNPLACED {
        packed.place(q, lists.row(q as u32))?;
        q = match beyond.get(q) {
            Some(next) => *next as usize,
            None => q,
        };
    }
    Ok(())
}

impl MateLists {
    /// Appends mates.
    fn append(&mut self, rest: &[PairId]) -> Result<(), Memory>
        ensures mates { OnOk result (self.new.mates.items ≡ self.old.mates.items ++ rest.now) }
        ensures places { self.new.places.items ≡ self.old.places.items }
    {
        Ok(self.mates.extend_from_slice(rest)?)
    }

    /// Keeps the mates of a pair. What they begin with is not kept again where the list ends with it.
    fn place(&mut self, q: usize, row: &[PairId]) -> Result<(), Memory>
        requires there { q < length self.old.places.items }
        requires short { length row.now < 8 }
        requires room { length self.old.mates.items ≤ 8388608 }
        ensures places { OnOk result ((place : ℕ) × (self.new.places.items ≡ slice_set self.old.places.items q place) × (place < 4294967295) × IsPlaceOf self.new.mates.items place row.now) }
        ensures mates { OnOk result ((more : List PairId) × (length more ≤ 8) × (self.new.mates.items ≡ self.old.mates.items ++ more)) }
    {
        let shared = shared_end(&self.mates, row);
        let start = self.mates.len() - shared;
        self.append(&row[shared..])?;
        self.places[q] = (start * 8 + row.len()) as u32;
        Ok(())
    }
}

/// How many of a list's last items are the first ones of a row: two, one or none.
fn shared_end(list: &[PairId], row: &[PairId]) -> usize
    ensures list { result ≤ length list.now }
    ensures row { result ≤ length row.now }
    ensures same { drop (length list.now - result) list.now ≡ take result row.now }
{
    for count in [2, 1] {
        if count <= list.len() && count <= row.len() && list[list.len() - count..] == row[..count] {
            return count;
        }
    }
    0
}
