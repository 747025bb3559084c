ghost use Rattle.std.specs.Prelude.{◌≡◌, ◌<◌, ◌≤◌, ◌+◌, ℕ, List, map, replicate, IfOk};
ghost use Rattle.fleet_base.specs.declared.geometry.Visit.{Visit};
ghost use Rattle.fleet_base.specs.VisitRows.{tick_in, AreRowsFor};
ghost use Rattle.longest_path.specs.Cells.{put, HasCell, AreAlike};
ghost use Rattle.longest_path.specs.Working.{IsWorkFor, IsIdle, IsKeptBy, saved_with, noted};

use crate::agenda::Agenda;
use crate::ticks::tick_at;
use fleet_base::{Items, Memory, Visit};
use plan_graph::PlanGraph;
use std::alloc::Global;

/// What a call keeps on the side while it changes ticks: the visits that are to be looked at, and those that were raised with
/// the ticks that they had.
#[derive(Drop)]
pub(crate) struct Work {
    pub(crate) waiting: Agenda,
    pub(crate) raised: Agenda,
    pub(crate) saved: Items<Items<u64>>,
}

impl Work {
    /// No visit waits and none was raised; there is room for each visit of a plan.
    pub(crate) fn new(alloc: Global, graph: &PlanGraph) -> Result<Work, Memory>
        ensures idle { IfOk result IsIdle }
        ensures room { IfOk result (λ work. (rows : List (List ℕ)) → AreRowsFor graph.now rows → IsWorkFor rows work) }
    {
        let waiting = Agenda::new(alloc, graph)?;
        let raised = Agenda::new(alloc, graph)?;
        let saved = graph.zeros(alloc)?;
        Ok(Work {
            waiting,
            raised,
            saved,
        })
    }

    /// Raises a visit to a tick, unless it is as late already. One that was raised waits.
    pub(crate) fn raise(&mut self, rows: &mut Items<Items<u64>>, v: Visit, tick: u64)
        requires there { HasCell rows.old v }
        requires room { IsWorkFor rows.old self.old }
        ensures later { tick_in rows.old v < tick → rows.new ≡ put rows.old v tick }
        ensures noted { tick_in rows.old v < tick → self.new ≡ noted self.old v (tick_in rows.old v) }
        ensures stays { tick ≤ tick_in rows.old v → rows.new ≡ rows.old }
        ensures rests { tick ≤ tick_in rows.old v → self.new ≡ self.old }
    {
        let before = tick_at(rows, v);
        if tick <= before {
            return;
        }
        self.save(v, before);
        self.raised.add(v, before);
        self.waiting.add(v, before);
        rows.set_in(v.robot as usize, v.index as usize, tick);
    }

    /// Saves the tick of a visit, unless it was raised before.
    fn save(&mut self, v: Visit, before: u64)
        requires { HasCell self.old.saved v }
        ensures { self.new ≡ record self.old { saved = saved_with self.old v before } }
    {
        if !self.raised.has(v) {
            self.saved
                .set_in(v.robot as usize, v.index as usize, before);
        }
    }

    /// Keeps the ticks that were raised.
    pub(crate) fn keep(&mut self)
        ensures idle { IsIdle self.new }
        ensures room { (rows : List (List ℕ)) → IsWorkFor rows self.old → IsWorkFor rows self.new }
    {
        self.waiting.clear();
        self.raised.clear();
    }

    /// Gives each visit that was raised the tick that it had.
    pub(crate) fn take_back(&mut self, rows: &mut Items<Items<u64>>)
        requires { IsWorkFor rows.old self.old }
        ensures back { (base : Visit → ℕ) → IsKeptBy base rows.old self.old → (v : Visit) → tick_in rows.new v ≡ base v }
        ensures idle { IsIdle self.new }
        ensures alike { AreAlike rows.old rows.new }
        ensures room { IsWorkFor rows.new self.new }
    {
        self.waiting.clear();
        while let Some(v) = self.raised.take() {
            let tick = tick_at(&self.saved, v);
            rows.set_in(v.robot as usize, v.index as usize, tick);
        }
    }
}
