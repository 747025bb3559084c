use crate::gen_fleet;
use fleet_base::{Cell, Grid, RawPlan};
use plan_check::check;
use rand_core::SeedableRng;
use rand_core::utils::NextWord;
use rand_pcg::Lcg64Xsh32;
use std::alloc::Global;
use std::test::Fail;

/// What a plain slow program of the rules draws for a seed.
#[derive(Drop)]
struct Expected {
    seed: u64,
    words: [u32; 4],
    blocked: &'static str,
    waits: &'static str,
    cells: u64,
}

/// The first words of a seed.
fn first_words(alloc: Global, seed: u64) -> Result<Vec<u32>, Fail> {
    let mut generator = Lcg64Xsh32::seed_from_u64(seed);
    let mut words = Vec::new(alloc);
    for _ in 0..4 {
        words.push(generator.next_word())?;
    }
    Ok(words)
}

/// The blocked cells of a map, row by row.
fn blocked_cells(alloc: Global, grid: &Grid) -> Result<String, Fail> {
    let mut text = String::new(alloc);
    for row in 0..grid.height() {
        for col in 0..grid.width() {
            if !grid.is_free(Cell { row, col }) {
                text.push_str(format!(in alloc; " {row},{col}")?.as_str())?;
            }
        }
    }
    Ok(text)
}

/// How many ticks each robot waits at its first cell.
fn waits_of(alloc: Global, plan: &RawPlan) -> Result<String, Fail> {
    let mut text = String::new(alloc);
    for robot in 0..plan.robots() {
        let cells = plan.cells(robot);
        let first = cells.first().ok_or("no cell")?;
        let stays = cells.iter().take_while(|cell| **cell == *first).count();
        text.push_str(format!(in alloc; " {}", stays.saturating_sub(1))?.as_str())?;
    }
    Ok(text)
}

/// A sum over all cells of a plan, in their order.
fn sum_of(plan: &RawPlan) -> u64 {
    let mut sum = 0u64;
    for robot in 0..plan.robots() {
        for cell in plan.cells(robot) {
            sum = sum
                .wrapping_mul(31)
                .wrapping_add(u64::from(cell.row) * 32)
                .wrapping_add(u64::from(cell.col))
                .wrapping_add(1);
        }
    }
    sum
}

#[test]
fn fleets_are_those_of_a_slow_program(rt: HostRuntime) -> Result<(), Fail> {
    let table = [
        Expected {
            seed: 0,
            words: [298703107, 4236525527, 336081875, 1056616254],
            blocked: " 1,23 2,25 5,28 16,9 20,8 25,8 25,18 25,19 25,22 27,10",
            waits: " 0 0 0 0 0 0 0 0 0 0 0 0 5 0 0 16 0 0 0 0 0 19 0 0 17 1 1 0 19 1 1 2",
            cells: 7682105839522725635,
        },
        Expected {
            seed: 1,
            words: [866585574, 2109535214, 3403630417, 296513984],
            blocked: " 7,13 8,18 21,15 21,18 22,13 24,3 31,14",
            waits: " 0 0 0 0 0 0 0 0 0 0 0 0 0 0 0 1 0 0 0 0 0 0 0 0 1 1 0 0 7 3 0 0",
            cells: 15812923248326495806,
        },
        Expected {
            seed: u64::MAX,
            words: [2553256318, 1362994822, 3759657484, 3366838333],
            blocked: " 10,10 11,13 15,15 22,16 23,20 25,10 27,13 27,14",
            waits: " 0 0 0 0 0 0 0 0 0 0 1 1 0 0 0 0 0 0 0 0 21 1 0 0 0 0 0 0 0 0 0 0",
            cells: 95506092654323296,
        },
    ];
    for expected in &table {
        let seed = expected.seed;
        let words = first_words(rt.alloc(), seed)?;
        assert_eq!(rt;
            words.as_slice(),
            expected.words.as_slice(),
            "words of {seed}"
        );
        let (grid, plan) = gen_fleet(rt.alloc(), seed).ok().ok_or("memory")?;
        assert_eq!(rt; (grid.height(), grid.width()), (32, 32), "sides of {seed}");
        let blocked = blocked_cells(rt.alloc(), &grid)?;
        assert_eq!(rt; blocked.as_str(), expected.blocked, "map of {seed}");
        let waits = waits_of(rt.alloc(), &plan)?;
        assert_eq!(rt; waits.as_str(), expected.waits, "waits of {seed}");
        assert_eq!(rt; sum_of(&plan), expected.cells, "plan of {seed}");
    }
    Ok(())
}

#[test]
fn a_generated_fleet_is_checked(rt: HostRuntime) -> Result<(), Fail> {
    let (grid, plan) = gen_fleet(rt.alloc(), 7).ok().ok_or("memory")?;
    let sound = check(rt.alloc(), &grid, &plan).ok().ok_or("unsound")?;
    assert_eq!(rt; sound.robots(), 32);
    Ok(())
}
