ghost use Rattle.std.specs.Prelude.{◌≡◌, ◌<◌, ◌≤◌, ℕ, IfOk, OnOk, length};
ghost use Rattle.fleet_base.specs.Pairs.{pairs_of};
ghost use Rattle.fleet_base.specs.Limits.{pair_limit};

use crate::PairsError;
use crate::count::count_pairs;
use crate::list::list_pairs;
use crate::stops::stops_by_cell;
use fleet_base::{PairTable, SoundPlan, limits};
use std::alloc::Global;

/// The pairs of a plan, each two robots with one visit of each at the same cell, and with the side that the plan
/// gives it. They are numbered by the lower robot, then the higher robot, then the lower robot's visit, then the
/// higher robot's visit. A plan with more pairs than there may be is refused with the number of its pairs, and they are
/// only counted.
pub fn pairs(alloc: Global, plan: &SoundPlan) -> Result<PairTable, PairsError>
    ensures pairs { IfOk result (λ table. table ≡ pairs_of plan.now) }
    ensures few { OnOk result (length (pairs_of plan.now) ≤ pair_limit) }
    ensures too_many { (count : ℕ) → result ≡ Err (PairsError.TooMany count) → pair_limit < length (pairs_of plan.now) }
    ensures count { (count : ℕ) → result ≡ Err (PairsError.TooMany count) → count ≡ length (pairs_of plan.now) }
{
    let stops = stops_by_cell(alloc, plan)?;
    let count = count_pairs(plan, &stops);
    if count > u64::from(limits::PAIRS) {
        return Err(PairsError::TooMany { count });
    }
    let list = list_pairs(alloc, plan, &stops)?;
    Ok(PairTable::from_list(alloc, plan, &list)?)
}
