ghost use Rattle.std.specs.Prelude.{◌≡◌, ◌<◌, ◌≤◌, ◌+◌, ◌++◌, ◌∷◌, [], map, length, slice_get, slice_index, slice_set, IfOk};
ghost use Rattle.fleet_base.specs.Lists.{row_of};
ghost use Rattle.fleet_base.specs.TickRows.{Row, Rows};

use crate::{Memory, Visit};
use std::alloc::Global;
use std::marker::Model;

/// The ticks of a robot's visits from 0 on, with room for all its visits, so that one more takes no memory.
#[derive(Debug, Drop)]
struct TickRow {
    ticks: Vec<u64>,
    filled: usize,
}

impl Model for TickRow {
    ghost use Rattle.std.specs.Prelude.{◌≤◌, length, take};
    ghost use Rattle.fleet_base.specs.TickRows.{Row};

    ghost Value = { Row };

    ghost view = { λ r. record { ticks = take r.filled r.ticks.items; room = length r.ticks.items } };

    ghost invariant = { λ r. r.filled ≤ length r.ticks.items };
}

impl TickRow {
    /// Visit 0 alone, at tick 0.
    pub fn start(alloc: Global, room: usize) -> Result<TickRow, Memory>
        requires { 1 ≤ room }
        ensures { IfOk result (λ row. row ≡ record { ticks = 0 ∷ []; room = room }) }
    {
        Ok(TickRow {
            ticks: vec![in alloc; 0; room]?,
            filled: 1,
        })
    }

    /// How many visits have a tick.
    pub fn len(&self) -> usize
        ensures { result ≡ length self.now.ticks }
    {
        self.filled
    }

    /// The tick of a visit, if it has one.
    pub fn get(&self, at: usize) -> Option<u64>
        ensures { result ≡ slice_get self.now.ticks at }
    {
        if at < self.filled {
            Some(self.ticks[at])
        } else {
            None
        }
    }

    /// Gives the next visit its tick.
    pub fn push(&mut self, tick: u64)
        requires { length self.old.ticks < self.old.room }
        ensures { self.new ≡ record self.old { ticks = self.old.ticks ++ tick ∷ [] } }
    {
        self.ticks[self.filled] = tick;
        self.filled += 1;
    }

    /// An equal row, with the same room.
    pub fn copy(&self, alloc: Global) -> Result<TickRow, Memory>
        ensures { IfOk result (λ other. other ≡ self.now) }
    {
        Ok(TickRow {
            ticks: Vec::from_slice(alloc, &self.ticks)?,
            filled: self.filled,
        })
    }
}

/// The rows of all robots.
#[derive(Debug, Drop)]
pub struct TickRows {
    rows: Vec<TickRow>,
}

impl Model for TickRows {
    ghost use Rattle.std.specs.Prelude.{map};
    ghost use Rattle.fleet_base.specs.TickRows.{Rows};

    ghost Value = { Rows };

    ghost view = { λ r. record { ticks = map (λ row. row.ticks) r.rows.items; rooms = map (λ row. row.room) r.rows.items } };
}

impl TickRows {
    /// Visit 0 of each robot alone, at tick 0, with room for all visits to the last one.
    pub fn start(alloc: Global, lasts: &[u32]) -> Result<TickRows, Memory>
        ensures { IfOk result (λ rows. rows ≡ record { ticks = map (λ _. 0 ∷ []) lasts.now; rooms = map (λ last. last + 1) lasts.now }) }
    {
        let mut rows = Vec::new(alloc);
        for last in lasts {
            let row = TickRow::start(alloc, *last as usize + 1)?;
            rows.push(row)?;
        }
        Ok(TickRows { rows })
    }

    /// How many visits of a robot have a tick.
    pub fn count(&self, robot: usize) -> usize
        requires { robot < length self.now.ticks }
        ensures { result ≡ length (row_of self.now.ticks robot) }
    {
        let row = &self.rows[robot];
        row.len()
    }

    /// The tick of a visit, if it has one.
    pub fn get(&self, v: Visit) -> Option<u64>
        ensures { result ≡ slice_get (row_of self.now.ticks v.robot) v.index }
    {
        match self.rows.get(v.robot as usize) {
            Some(row) => row.get(v.index as usize),
            None => None,
        }
    }

    /// Gives the next visit of a robot its tick.
    pub fn push(&mut self, robot: usize, tick: u64)
        requires robot { robot < length self.old.ticks }
        requires room { length (row_of self.old.ticks robot) < slice_index self.old.rooms robot }
        ensures { self.new ≡ record self.old { ticks = slice_set self.old.ticks robot (row_of self.old.ticks robot ++ tick ∷ []) } }
    {
        let row = &mut self.rows[robot];
        row.push(tick);
    }

    /// Equal rows, with the same room.
    pub fn copy(&self, alloc: Global) -> Result<TickRows, Memory>
        ensures { IfOk result (λ other. other ≡ self.now) }
    {
        let mut rows = Vec::new(alloc);
        for row in &self.rows {
            rows.push(row.copy(alloc)?)?;
        }
        Ok(TickRows { rows })
    }
}
