// The mates of all pairs in one list.
ghost use Rattle.std.specs.Prelude.{ℕ, ◌≡◌, ◌+◌, ◌-◌, ◌*◌, ◌<◌, ◌≤◌, [], ◌∷◌, ◌++◌, drop, length, vec_len, OnOk};
ghost use Rattle.std.specs.Option.{option_to_list};
ghost use Rattle.fleet_base.specs.Lists.{row_of};
ghost use Rattle.fleet_base.specs.Limits.{pair_limit};
ghost use Rattle.edge_groups.specs.Kept.{rows_in, AreKept, AreWithin};

use fleet_base::{Memory, PairId};
use std::alloc::Global;

/// The mates of all pairs, one after another, and for each pair its place: eight times where its mates begin, and how many
/// they are.
#[derive(Debug, Drop)]
pub(crate) struct MateLists {
    pub places: Vec<u32>,
    pub mates: Vec<PairId>,
}

impl MateLists {
    /// No pair and no mate.
    pub(crate) fn new(alloc: Global) -> MateLists
        ensures pairs { result.places.items ≡ [] }
        ensures kept { AreKept result }
    {
        MateLists {
            places: Vec::new(alloc),
            mates: Vec::new(alloc),
        }
    }

    /// Appends a mate if there is one.
    pub(crate) fn push(&mut self, mate: Option<PairId>) -> Result<(), Memory>
        ensures mates { OnOk result (self.new.mates.items ≡ self.old.mates.items ++ option_to_list mate) }
        ensures places { self.new.places.items ≡ self.old.places.items }
    {
        match mate {
            Some(mate) => Ok(self.mates.push(mate)?),
            None => Ok(()),
        }
    }

    /// The mates of one pair more are those from a number on.
    pub(crate) fn close(&mut self, start: u32) -> Result<(), Memory>
        requires within { AreWithin self.old.places.items start }
        requires start { start ≤ vec_len self.old.mates }
        requires four { vec_len self.old.mates ≤ start + 4 }
        requires short { vec_len self.old.mates ≤ 8 * vec_len self.old.places + 4 }
        requires few { vec_len self.old.places < pair_limit }
        ensures kept { OnOk result (AreKept self.new) }
        ensures rows { OnOk result (rows_in self.new ≡ rows_in self.old ++ drop start self.old.mates.items ∷ []) }
    {
        let count = self.mates.len() as u32 - start;
        Ok(self.places.push(start * 8 + count)?)
    }

    /// The mates of a pair.
    pub(crate) fn row(&self, q: u32) -> &[PairId]
        requires kept { AreKept self.now }
        requires there { q < vec_len self.now.places }
        ensures { result.now ≡ row_of (rows_in self.now) q }
    {
        let place = self.places[q as usize] as usize;
        let start = place / 8;
        &self.mates[start..start + place % 8]
    }
}
