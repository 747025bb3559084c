// The map and the plan of a command.
ghost use Rattle.std.specs.Prelude.{◌≡◌, ℕ, List, IfOk, IfErr};
ghost use Rattle.fleet_base.specs.Pairs.{pairs_of};
ghost use Rattle.station_api.specs.Causes.{Counted};
ghost use Rattle.fleet_cli.specs.Runs.{HasFailed};
ghost use Rattle.fleet_cli.specs.Papers.{files_of, bytes_of, IsPaper, IsSoundPaper, failed_at};
ghost use Rattle.fleet_cli.specs.Fetching.{Counts, IsUnfetched, HasReason};

use crate::fault::{Fault, Paper, Refusal};
use fleet_base::{PairTable, SoundPlan, limits};
use map_text::read_map;
use plan_check::check;
use plan_text::read_plan;
use station_api::{Shelf, ShelfFault};
use std::alloc::Global;
use switch_pairs::pairs;

/// What is printed of a plan that is sound.
#[derive(Clone, Copy, Debug, PartialEq, Eq)]
pub struct Sound {
    pub robots: u64,
    pub visits: u64,
    pub pairs: u64,
}

/// The bytes of a map and of a plan that is sound on it, with the plan and its pairs.
#[derive(Drop)]
pub struct CheckedPapers {
    pub map: Vec<u8>,
    pub text: Vec<u8>,
    pub plan: SoundPlan,
    pub pairs: PairTable,
}

/// Reads and checks the plan of these two files.
pub fn read_papers<H: Shelf>(
    alloc: Global,
    shelf: &mut H,
    map_name: &str,
    plan_name: &str,
) -> Result<CheckedPapers, Refusal>
    ensures sound { IfOk result (λ papers. IsSoundPaper (files_of H.tells (H.file shelf.old)) map_name.now plan_name.now (bytes_of papers) papers.plan) }
    ensures pairs { IfOk result (λ papers. papers.pairs ≡ pairs_of papers.plan) }
    ensures refused { IfErr result (HasReason (files_of H.tells (H.file shelf.old)) (failed_at H.tells (H.asked shelf.new) (HasFailed (H.counts shelf.old) (H.counts shelf.new))) map_name.now plan_name.now) }
    ensures counted { Counted (H.counts shelf.old) (H.counts shelf.new) }
{
    let map = fetch(alloc, shelf, map_name, Paper::Map)?;
    let grid = read_map(alloc, &map)?;
    let text = fetch(alloc, shelf, plan_name, Paper::Plan)?;
    let raw = read_plan(alloc, &text)?;
    let plan = check(alloc, &grid, &raw)?;
    let pairs = pairs(alloc, &plan)?;
    Ok(CheckedPapers {
        map,
        text,
        plan,
        pairs,
    })
}

/// Fetches a file, if it is not too long.
pub fn fetch<H: Shelf>(
    alloc: Global,
    shelf: &mut H,
    name: &str,
    paper: Paper,
) -> Result<Vec<u8>, Refusal>
    ensures read { IfOk result (λ bytes. IsPaper (files_of H.tells (H.file shelf.old)) name.now bytes.items) }
    ensures refused { IfErr result (IsUnfetched (files_of H.tells (H.file shelf.old)) (failed_at H.tells (H.asked shelf.new) (HasFailed (H.counts shelf.old) (H.counts shelf.new))) name.now paper) }
    ensures files { H.tells → (n : List ℕ) → H.file shelf.new n ≡ H.file shelf.old n }
    ensures counted { Counted (H.counts shelf.old) (H.counts shelf.new) }
{
    match shelf.fetch(alloc, name, limits::PAPER) {
        Ok(bytes) => Ok(bytes),
        Err(ShelfFault::TooLong { length }) => Err(Refusal::Fault(Fault::Long { paper, length })),
        Err(ShelfFault::Missing | ShelfFault::Failed) => {
            Err(Refusal::Fault(Fault::Unread { paper }))
        }
        Err(ShelfFault::Memory) => Err(Refusal::Memory),
    }
}

/// How many robots, visits and pairs a plan has.
pub fn sound_of(papers: &CheckedPapers) -> Sound
    requires { papers.now.pairs ≡ pairs_of papers.now.plan }
    ensures { Counts papers.now.plan result }
{
    let robots = papers.plan.robots();
    let mut visits = 0;
    for robot in 0..robots {
        visits += u64::from(papers.plan.last(robot)) + 1;
    }
    Sound {
        robots: u64::from(robots),
        visits,
        pairs: u64::from(papers.pairs.len()),
    }
}
