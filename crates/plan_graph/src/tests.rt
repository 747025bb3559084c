ghost use Rattle.std.specs.Prelude.{◌≡◌, ◌≤◌, map, length, IfOk};
ghost use Rattle.fleet_base.specs.Plan.{IsAccepted, visits_of};
ghost use Rattle.fleet_base.specs.Pairs.{pairs_of};
ghost use Rattle.fleet_base.specs.Limits.{pair_limit};

use crate::{PlanGraph, RankRoom, Ranked, rank};
use fleet_base::{Cell, Grid, Memory, Pair, PairId, PairTable, RawPlan, Side, SoundPlan, Visit};
use std::alloc::Global;
use std::process::Abort;
use std::test::Fail;

/// A plan by the rows and columns of its cells, tick by tick.
fn raw_of(alloc: Global, paths: &[&[(u32, u32)]]) -> Result<RawPlan, Memory>
    ensures { IfOk result (λ raw. raw ≡ map (λ path. map (λ at. record { row = at.0; col = at.1 }) path.now) paths.now) }
{
    let mut raw = RawPlan::new(alloc);
    for path in paths {
        raw.push_path(path_of(alloc, path)?)?;
    }
    Ok(raw)
}

/// A path, by the rows and columns of its cells.
fn path_of(alloc: Global, path: &[(u32, u32)]) -> Result<Vec<Cell>, Memory>
    ensures { IfOk result (λ cells. cells.items ≡ map (λ at. record { row = at.0; col = at.1 }) path.now) }
{
    let mut cells = Vec::new(alloc);
    for at in path {
        let cell = Cell {
            row: at.0,
            col: at.1,
        };
        cells.push(cell)?;
    }
    Ok(cells)
}

/// A visit, by its robot and its number.
fn visit(at: (u32, u32)) -> Visit
    ensures { result ≡ record { robot = at.0; index = at.1 } }
{
    Visit {
        robot: at.0,
        index: at.1,
    }
}

/// Pairs, by their visits and their sides.
fn pairs_from(alloc: Global, rows: &[((u32, u32), (u32, u32), Side)]) -> Result<Vec<Pair>, Memory>
    ensures { IfOk result (λ pairs. pairs.items ≡ map (λ row. record { lower = record { robot = row.0.0; index = row.0.1 }; higher = record { robot = row.1.0; index = row.1.1 }; first = row.2 }) rows.now) }
{
    let mut pairs = Vec::new(alloc);
    for row in rows {
        let pair = Pair {
            lower: visit(row.0),
            higher: visit(row.1),
            first: row.2,
        };
        pairs.push(pair)?;
    }
    Ok(pairs)
}

/// The graph of a plan, whose pairs are these.
fn graph_of(
    alloc: Global,
    grid: &Grid,
    paths: &[&[(u32, u32)]],
    rows: &[((u32, u32), (u32, u32), Side)],
) -> Result<PlanGraph, Memory>
    requires accepted { IsAccepted grid.now (map (λ path. map (λ at. record { row = at.0; col = at.1 }) path.now) paths.now) }
    requires pairs { map (λ row. record { lower = record { robot = row.0.0; index = row.0.1 }; higher = record { robot = row.1.0; index = row.1.1 }; first = row.2 }) rows.now
        ≡ pairs_of (visits_of (map (λ path. map (λ at. record { row = at.0; col = at.1 }) path.now) paths.now)) }
    requires few { length rows.now ≤ pair_limit }
{
    let plan = SoundPlan::from_raw(alloc, grid, &raw_of(alloc, paths)?)?;
    let table = PairTable::from_list(alloc, &plan, &pairs_from(alloc, rows)?)?;
    PlanGraph::new(alloc, &plan, &table)
}

/// A grid, by its marks row by row.
fn grid_of(alloc: Global, height: u32, width: u32, free: &[bool]) -> Result<Grid, Memory>
    ensures { IfOk result (λ grid. grid ≡ record { height = height; width = width; free = free.now }) }
{
    let free = Vec::from_slice(alloc, free)?;
    Grid::new(height, width, free).ok_or(Memory)
}

/// Two robots that cross, the first one first.
fn crossing(alloc: Global) -> Result<PlanGraph, Memory> {
    let free = [
        false, false, true, false, false, true, true, true, true, true, false, false, true, false,
        false,
    ];
    let grid = grid_of(alloc, 3, 5, &free)?;
    let first = [(1, 0), (1, 1), (1, 2), (1, 3), (1, 4)];
    let second = [(0, 2), (0, 2), (0, 2), (1, 2), (2, 2)];
    let rows = [((0, 2), (1, 1), Side::Lower)];
    graph_of(alloc, &grid, &[&first, &second], &rows)
}

/// Two robots that go through a corridor of one lane, from its two ends.
fn corridor(alloc: Global) -> Result<PlanGraph, Memory> {
    let free = [
        true, false, false, false, false, true, true, true, true, true, true, true, true, false,
        false, false, false, true,
    ];
    let grid = grid_of(alloc, 3, 6, &free)?;
    let first = [
        (0, 0),
        (1, 0),
        (1, 1),
        (1, 2),
        (1, 3),
        (1, 4),
        (1, 5),
        (2, 5),
    ];
    let second = [
        (0, 5),
        (0, 5),
        (0, 5),
        (0, 5),
        (0, 5),
        (0, 5),
        (0, 5),
        (1, 5),
        (1, 4),
        (1, 3),
        (1, 2),
        (1, 1),
        (1, 0),
        (2, 0),
    ];
    let rows = [
        ((0, 1), (1, 6), Side::Lower),
        ((0, 2), (1, 5), Side::Lower),
        ((0, 3), (1, 4), Side::Lower),
        ((0, 4), (1, 3), Side::Lower),
        ((0, 5), (1, 2), Side::Lower),
        ((0, 6), (1, 1), Side::Lower),
    ];
    graph_of(alloc, &grid, &[&first, &second], &rows)
}

/// Three robots that go through a roundabout one after the other, each over the cells of both others.
fn roundabout(alloc: Global) -> Result<PlanGraph, Memory> {
    let grid = grid_of(alloc, 4, 4, &[true; 16])?;
    let third = [
        (3, 2),
        (3, 2),
        (3, 2),
        (3, 2),
        (3, 2),
        (3, 2),
        (3, 2),
        (2, 2),
        (2, 1),
        (1, 1),
        (1, 0),
    ];
    let first = [(0, 1), (1, 1), (1, 2), (0, 2)];
    let second = [(1, 3), (1, 3), (1, 3), (1, 3), (1, 2), (2, 2), (2, 3)];
    let rows = [
        ((0, 3), (1, 1), Side::Higher),
        ((0, 1), (2, 2), Side::Higher),
        ((1, 2), (2, 1), Side::Lower),
    ];
    graph_of(alloc, &grid, &[&third, &first, &second], &rows)
}

/// What the ranking of a view with these sides finds, and its room. No edge goes back in the order that it lists.
fn rank_with(
    rt: &impl Abort,
    alloc: Global,
    graph: &PlanGraph,
    sides: &[(u32, Side)],
) -> Result<(Ranked, RankRoom), Memory> {
    let mut view = graph.orient(alloc)?;
    for (q, side) in sides {
        assert!(rt; *q < graph.pair_count());
        view.set(PairId(*q), Some(*side));
        assert_eq!(rt; view.side(PairId(*q)), Some(*side));
    }
    let mut room = RankRoom::new(alloc, graph)?;
    let found = rank(&view, &mut room);
    let order = room.order();
    for later in 0..order.len() {
        for earlier in 0..later {
            assert!(rt; !view.before(order[later], order[earlier]));
        }
    }
    Ok((found, room))
}

#[test]
fn sides_of_the_plan_rank(rt: HostRuntime) -> Result<(), Fail> {
    let alloc = rt.alloc();
    let sides = [
        (0, Side::Lower),
        (1, Side::Lower),
        (2, Side::Lower),
        (3, Side::Lower),
        (4, Side::Lower),
        (5, Side::Lower),
    ];
    let turns = [(0, Side::Higher), (1, Side::Higher), (2, Side::Lower)];
    let (found, room) = rank_with(&rt, alloc, &crossing(alloc)?, &sides[..1])?;
    assert_eq!(rt; (found, room.order().len()), (Ranked::Order, 8));
    let (found, room) = rank_with(&rt, alloc, &corridor(alloc)?, &sides)?;
    assert_eq!(rt; (found, room.order().len()), (Ranked::Order, 16));
    let (found, room) = rank_with(&rt, alloc, &roundabout(alloc)?, &turns)?;
    assert_eq!(rt; (found, room.order().len()), (Ranked::Order, 13));
    Ok(())
}

#[test]
fn two_pairs_of_the_corridor_are_a_cycle(rt: HostRuntime) -> Result<(), Fail> {
    let alloc = rt.alloc();
    let sides = [(0, Side::Lower), (1, Side::Higher)];
    let (found, room) = rank_with(&rt, alloc, &corridor(alloc)?, &sides)?;
    assert_eq!(rt; found, Ranked::Cycle);
    let cycle = room.cycle();
    let turns = [[PairId(0), PairId(1)], [PairId(1), PairId(0)]];
    assert!(rt;
        turns.iter().any(|turn| turn.as_slice() == cycle),
        "{cycle:?}"
    );
    Ok(())
}

#[test]
fn a_turned_pair_makes_a_cycle_of_three_robots(rt: HostRuntime) -> Result<(), Fail> {
    let alloc = rt.alloc();
    let sides = [(0, Side::Lower), (1, Side::Higher), (2, Side::Lower)];
    let (found, room) = rank_with(&rt, alloc, &roundabout(alloc)?, &sides)?;
    assert_eq!(rt; found, Ranked::Cycle);
    let cycle = room.cycle();
    let turns = [
        [PairId(0), PairId(2), PairId(1)],
        [PairId(2), PairId(1), PairId(0)],
        [PairId(1), PairId(0), PairId(2)],
    ];
    assert!(rt;
        turns.iter().any(|turn| turn.as_slice() == cycle),
        "{cycle:?}"
    );
    Ok(())
}
