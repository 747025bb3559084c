// Sound plans from the texts of their maps and of themselves.
ghost use Rattle.std.specs.Prelude.{◌≡◌, ◌≤◌, ◌^◌, length, IfOk};
ghost use Rattle.fleet_base.specs.Pairs.{pairs_of};
ghost use Rattle.map_text.specs.MapText.{IsMapText};
ghost use Rattle.plan_text.specs.PlanText.{IsPlanText};
ghost use Rattle.plan_scenes.specs.Plans.{IsPlanOf};

use fleet_base::limits::PAPER;
use fleet_base::{Grid, Pair, PairId, PairTable, RawPlan, SoundPlan};
use map_text::read_map;
use plan_check::check;
use plan_text::read_plan;
use std::alloc::Global;
use std::test::Fail;
use switch_pairs::pairs;

/// The bytes of a map, and of a plan on it.
pub type Texts<'t> = (&'t [u8], &'t [u8]);

/// Two robots cross, and have one pair.
pub const CROSSING: Texts<'static> = (
    b"type octile\nheight 3\nwidth 5\nmap\n@@.@@\n.....\n@@.@@\n",
    b"Agent 0: (1,0)->(1,1)->(1,2)->(1,3)->(1,4)\nAgent 1: (0,2)->(0,2)->(0,2)->(1,2)->(2,2)\n",
);

/// Two robots go through a corridor in opposite directions, and have six pairs.
pub const CORRIDOR: Texts<'static> = (
    b"type octile\nheight 3\nwidth 6\nmap\n.@@@@.\n......\n.@@@@.\n",
    b"Agent 0: (0,0)->(1,0)->(1,1)->(1,2)->(1,3)->(1,4)->(1,5)->(2,5)\nAgent 1: (0,5)->(0,5)->(0,5)->(0,5)->(0,5)->(0,5)->(0,5)->(1,5)->(1,4)->(1,3)->(1,2)->(1,1)->(1,0)->(2,0)\n",
);

/// The plan of these texts, which must be sound.
pub fn sound_plan(alloc: Global, map: &[u8], text: &[u8]) -> Result<SoundPlan, Fail>
    ensures { IfOk result (IsPlanOf map.now text.now) }
{
    let grid = grid_of(alloc, map)?;
    let raw = raw_of(alloc, text)?;
    match check(alloc, &grid, &raw) {
        Ok(plan) => Ok(plan),
        Err(_) => Err(Fail::from("a sound plan")),
    }
}

/// The plan of these texts, which must be sound, with its pairs.
pub fn planned(alloc: Global, texts: Texts<'_>) -> Result<(SoundPlan, PairTable), Fail>
    ensures plan { IfOk result (λ made. IsPlanOf texts.entry.0.now texts.entry.1.now made.0) }
    ensures pairs { IfOk result (λ made. made.1 ≡ pairs_of made.0) }
{
    let plan = sound_plan(alloc, texts.0, texts.1)?;
    let table = pairs(alloc, &plan)?;
    Ok((plan, table))
}

fn grid_of(alloc: Global, map: &[u8]) -> Result<Grid, Fail>
    ensures { IfOk result (IsMapText map.now) }
{
    if map.len() as u64 > PAPER {
        return Err(Fail::from("a short map"));
    }
    match read_map(alloc, map) {
        Ok(grid) => Ok(grid),
        Err(_) => Err(Fail::from("a map")),
    }
}

fn raw_of(alloc: Global, text: &[u8]) -> Result<RawPlan, Fail>
    ensures { IfOk result (IsPlanText text.now) }
{
    if text.len() as u64 > PAPER {
        return Err(Fail::from("a short plan"));
    }
    match read_plan(alloc, text) {
        Ok(raw) => Ok(raw),
        Err(_) => Err(Fail::from("a plan")),
    }
}

/// The pairs of a table, in their order.
pub fn listed(alloc: Global, table: &PairTable) -> Result<Vec<Pair>, Fail>
    ensures { IfOk result (λ list. list.items ≡ table.now) }
{
    let mut list = Vec::new(alloc);
    for number in 0..table.len() {
        list.push(table.pair(PairId(number)))?;
    }
    Ok(list)
}
