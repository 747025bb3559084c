ghost use Rattle.std.specs.Prelude.{◌≡◌, ◌++◌, ◌∷◌, [], map, IfOk, IfSome};
ghost use Rattle.fleet_base.specs.Plan.{visits_of};
ghost use Rattle.fleet_base.specs.Pairs.{pairs_of};
ghost use Rattle.fleet_base.specs.Examples.{crossing_map, crossing_plan};

use crate::{
    Cell, Fleet, Grid, Items, Memory, Pair, PairId, PairTable, RawPlan, Side, SoundPlan, Text,
    Visit, push_number, read_number,
};
use std::alloc::{AllocError, Global};
use std::test::Fail;

#[test]
fn numbers_are_read(rt: HostRuntime) {
    let rows: [(&[u8], Option<u64>); 13] = [
        (b"0", Some(0)),
        (b"7", Some(7)),
        (b"10", Some(10)),
        (b"18446744073709551615", Some(u64::MAX)),
        (b"18446744073709551616", None),
        (b"100000000000000000000", None),
        (b"", None),
        (b"00", None),
        (b"01", None),
        (b"+1", None),
        (b"-1", None),
        (b" 1", None),
        (b"1x", None),
    ];
    for (text, want) in rows {
        assert_eq!(rt; read_number(text), want);
    }
}

#[test]
fn numbers_are_written(rt: HostRuntime) -> Result<(), Fail> {
    let rows: [(u64, &[u8]); 4] = [
        (0, b"0"),
        (9, b"9"),
        (10, b"10"),
        (u64::MAX, b"18446744073709551615"),
    ];
    for (value, want) in rows {
        let mut out = Text::new(rt.alloc());
        push_number(&mut out, value)?;
        assert_eq!(rt; out.as_slice(), want);
    }
    Ok(())
}

#[test]
fn lists_keep_their_items(rt: HostRuntime) -> Result<(), Fail> {
    let mut list = Items::from_slice(rt.alloc(), &[PairId(4)])?;
    list.push(PairId(7))?;
    assert_eq!(rt; list.as_slice(), [PairId(4), PairId(7)].as_slice());
    Ok(())
}

#[test]
fn lists_of_lists_keep_their_rows(rt: HostRuntime) -> Result<(), Fail> {
    let mut rows = Items::new(rt.alloc());
    rows.push(Items::from_vec(vec![in rt.alloc(); 1_u32]?))?;
    rows.push_to(0, 3)?;
    let copy = rows.copy(rt.alloc())?;
    assert_eq!(rt; copy.row(0), [1, 3].as_slice());
    Ok(())
}

#[test]
fn grids_are_as_large_as_their_list(rt: HostRuntime) -> Result<(), Fail> {
    let alloc = rt.alloc();
    for (height, width, cells) in [
        (0, 1, 0),
        (1, 0, 0),
        (1, 2, 1),
        (4097, 1, 4097),
        (1, 4097, 4097),
    ] {
        assert!(rt; Grid::new(height, width, vec![in alloc; true; cells]?).is_none());
    }
    let grid = Grid::new(4096, 2, vec![in alloc; true; 8192]?).ok_or("a grid")?;
    for (row, col, want) in [
        (0, 0, true),
        (4095, 1, true),
        (4096, 0, false),
        (0, 2, false),
    ] {
        assert_eq!(rt; grid.is_free(Cell { row, col }), want);
    }
    Ok(())
}

/// The map of the crossing.
fn crossing_grid(alloc: Global) -> Result<Option<Grid>, AllocError>
    ensures { IfOk result (λ grid. IfSome grid (λ g. g ≡ crossing_map)) }
{
    let mut free = vec![in alloc; false, false, true, false, false]?;
    free.extend_from_slice(&[true, true, true, true, true])?;
    free.extend_from_slice(&[false, false, true, false, false])?;
    Ok(Grid::new(3, 5, free))
}

/// Its plan.
fn crossing_raw(alloc: Global) -> Result<RawPlan, Memory>
    ensures { IfOk result (λ plan. plan ≡ crossing_plan) }
{
    let mut plan = RawPlan::new(alloc);
    plan.push_path(path(alloc, &[(1, 0), (1, 1), (1, 2), (1, 3), (1, 4)])?)?;
    plan.push_path(path(alloc, &[(0, 2), (0, 2), (0, 2), (1, 2), (2, 2)])?)?;
    Ok(plan)
}

fn path(alloc: Global, cells: &[(u32, u32)]) -> Result<Vec<Cell>, Memory>
    ensures { IfOk result (λ path. path.items ≡ map (λ c. record { row = c.0; col = c.1 }) cells.now) }
{
    match cells
        .iter()
        .map(|c| Cell { row: c.0, col: c.1 })
        .collect(alloc)
    {
        Ok(path) => Ok(path),
        Err(_) => Err(Memory),
    }
}

/// The visits of the crossing's plan.
fn crossing(alloc: Global) -> Result<Option<SoundPlan>, Memory>
    ensures { IfOk result (λ plan. IfSome plan (λ p. p ≡ visits_of crossing_plan)) }
{
    let raw = crossing_raw(alloc)?;
    match crossing_grid(alloc) {
        Ok(Some(grid)) => Ok(Some(SoundPlan::from_raw(alloc, &grid, &raw)?)),
        Ok(None) => Ok(None),
        Err(_) => Err(Memory),
    }
}

/// Its one pair.
fn crossing_pairs(alloc: Global, plan: &SoundPlan) -> Result<PairTable, Memory>
    requires { plan.now ≡ visits_of crossing_plan }
    ensures { IfOk result (λ pairs. pairs ≡ pairs_of plan.now) }
{
    let pair = Pair {
        lower: Visit { robot: 0, index: 2 },
        higher: Visit { robot: 1, index: 1 },
        first: Side::Lower,
    };
    PairTable::from_list(alloc, plan, &[pair])
}

#[test]
fn the_crossing_has_its_visits(rt: HostRuntime) -> Result<(), Fail> {
    let plan = crossing(rt.alloc())?.ok_or("a map")?;
    assert_eq!(rt; plan.robots(), 2);
    let rows = [
        (0, 4, 4, (1, 4)),
        (1, 0, 0, (0, 2)),
        (1, 1, 3, (1, 2)),
        (1, 2, 4, (2, 2)),
    ];
    for (robot, index, tick, (row, col)) in rows {
        assert!(rt; index <= plan.last(robot));
        let v = Visit { robot, index };
        assert_eq!(rt; plan.plan_tick(v), tick);
        assert_eq!(rt; plan.cell(v), Cell { row, col });
    }
    Ok(())
}

#[test]
fn the_crossing_has_one_pair(rt: HostRuntime) -> Result<(), Fail> {
    let plan = crossing(rt.alloc())?.ok_or("a map")?;
    let pairs = crossing_pairs(rt.alloc(), &plan)?.copy(rt.alloc())?;
    assert_eq!(rt; pairs.len(), 1);
    assert_eq!(rt; pairs.pair(PairId(0)).first, Side::Lower);
    for (robot, index, want) in [(0, 2, 1), (1, 1, 1), (0, 1, 0), (1, 2, 0), (2, 0, 0)] {
        assert_eq!(rt; pairs.of(Visit { robot, index }).len(), want);
    }
    Ok(())
}

/// The state in which its robots start, copied.
fn crossing_fleet(alloc: Global) -> Result<Option<Fleet>, Memory> {
    match crossing(alloc)? {
        Some(plan) => {
            let pairs = crossing_pairs(alloc, &plan)?;
            let fleet = Fleet::start(alloc, &plan, &pairs)?;
            Ok(Some(fleet.copy(alloc)?))
        }
        None => Ok(None),
    }
}

#[test]
fn a_fleet_starts_and_is_copied(rt: HostRuntime) -> Result<(), Fail> {
    let fleet = crossing_fleet(rt.alloc())?.ok_or("a map")?;
    for (robot, index, want) in [(1, 0, Some(0)), (1, 1, None), (2, 0, None)] {
        assert_eq!(rt; fleet.arrival_tick(Visit { robot, index }), want);
    }
    Ok(())
}
