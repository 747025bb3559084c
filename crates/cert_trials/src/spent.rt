// Trees that show how far a search came, and trees that do not.
use crate::checking::{no, optimal, spent};
use crate::scenes::{Scene, corridor, crossing, meetings};
use cert_check::{NoWhy, Verdict};
use plan_scenes::delay;
use std::alloc::Global;
use std::process::Abort;
use std::test::Fail;

/// A cost, the least cost that is left, a budget, the text of a tree, and what is said of it.
type Row<'a> = (u64, u64, u64, &'a [u8], Verdict);

fn judge_all(
    rt: &impl Abort,
    alloc: Global,
    scene: &Scene<'_>,
    rows: &[Row<'_>],
) -> Result<(), Fail> {
    for (number, (cost, least, budget, text, want)) in rows.iter().enumerate() {
        let found = spent(alloc, scene, (*cost, *least, *budget), text)?;
        assert_eq!(rt; found, *want, "row {number}");
    }
    Ok(())
}

#[test]
fn what_is_left_of_one_pair_is_judged(rt: HostRuntime) -> Result<(), Fail> {
    let rows: [Row<'_>; 9] = [
        (10, 7, 0, b"cert open 7\n", Verdict::Yes),
        (10, 6, 0, b"cert open 7\n", no(1, NoWhy::Least)),
        (10, 7, 1, b"cert open 7\n", no(1, NoWhy::Count)),
        (10, 8, 0, b"cert open 8\n", no(0, NoWhy::Leaf)),
        (7, 7, 0, b"cert open 7\n", no(0, NoWhy::Leaf)),
        (
            11,
            10,
            1,
            b"cert branch 0\ncert open 10\ncert bound\n",
            no(1, NoWhy::Leaf),
        ),
        (
            9,
            7,
            1,
            b"cert branch 0\ncert bound\ncert path 1 1 0\ncert bound\ncert path 0 1 0\n",
            no(3, NoWhy::Count),
        ),
        (7, 7, 1, b"cert branch 0\n", no(0, NoWhy::Needed)),
        (10, 6, 1, b"cert branch 0\n", no(0, NoWhy::Needed)),
    ];
    let steps = [delay(1, 1, 1, 0)];
    judge_all(&rt, rt.alloc(), &crossing(&steps), &rows)
}

#[test]
fn a_branch_is_needless_where_the_schedule_obeys_a_side(rt: HostRuntime) -> Result<(), Fail> {
    let rows: [Row<'_>; 1] = [(1000, 999, 1, b"cert branch 0\n", no(0, NoWhy::Needed))];
    let higher = [delay(0, 1, 5, 0)];
    judge_all(&rt, rt.alloc(), &crossing(&higher), &rows)?;
    let rows: [Row<'_>; 1] = [(1000, 999, 1, b"cert branch 1\n", no(0, NoWhy::Needed))];
    let lower = [delay(1, 1, 50, 0)];
    judge_all(&rt, rt.alloc(), &corridor(&lower), &rows)
}

/// The corridor's pairs are one group, which pair 0 closes.
#[test]
fn the_group_of_a_corridor_is_closed(rt: HostRuntime) -> Result<(), Fail> {
    let rows: [Row<'_>; 5] = [
        (31, 21, 0, b"cert open 21\n", no(0, NoWhy::Leaf)),
        (31, 23, 1, MIXED, no(0, NoWhy::Group)),
        (
            31,
            21,
            1,
            b"cert branch 1\ncert open 23\ncert open 23\n",
            no(0, NoWhy::Group),
        ),
        (
            31,
            23,
            2,
            b"cert branch 1\ncert open 23\ncert branch 2\n",
            no(0, NoWhy::Group),
        ),
        (31, 21, 1, b"cert branch 0\n", no(0, NoWhy::Pair)),
    ];
    let steps = [delay(0, 1, 5, 0)];
    let scene = corridor(&steps);
    judge_all(&rt, rt.alloc(), &scene, &rows)?;
    let closed = optimal(rt.alloc(), &scene, 23, MIXED)?;
    assert_eq!(rt; closed, Verdict::Yes);
    Ok(())
}

/// Branches on a pair whose group is closed, and closes its tree.
const MIXED: &[u8] = b"cert branch 1\ncert bound\ncert path 1 1 1\ncert cyclic 2 1 0\n";

/// Branches twice in one group, the second time below the first.
const TWICE: &[u8] = b"cert branch 2\ncert branch 3\ncert bound\ncert bound\ncert bound\n";

#[test]
fn each_way_branches_once_in_a_group(rt: HostRuntime) -> Result<(), Fail> {
    let rows: [Row<'_>; 6] = [
        (31, 30, 2, TWICE, no(1, NoWhy::Group)),
        (
            31,
            30,
            2,
            b"cert branch 2\ncert force 3 lower 2 2 3\ncert branch 4\n",
            no(2, NoWhy::Group),
        ),
        (
            31,
            30,
            2,
            b"cert branch 2\ncert branch 2\n",
            no(1, NoWhy::Pair),
        ),
        (
            31,
            30,
            2,
            b"cert branch 2\ncert branch 1\n",
            no(1, NoWhy::Needed),
        ),
        (
            31,
            24,
            1,
            b"cert branch 2\ncert open 24\ncert open 24\n",
            Verdict::Yes,
        ),
        (
            31,
            27,
            2,
            b"cert branch 2\ncert branch 5\ncert open 27\n",
            no(2, NoWhy::Leaf),
        ),
    ];
    let scene = meetings(&[]);
    judge_all(&rt, rt.alloc(), &scene, &rows)?;
    let twice = optimal(rt.alloc(), &scene, 22, TWICE)?;
    assert_eq!(rt; twice, Verdict::Yes);
    Ok(())
}

#[test]
fn forced_sides_and_bounds_stand_in_spent_trees(rt: HostRuntime) -> Result<(), Fail> {
    let rows: [Row<'_>; 7] = [
        (
            31,
            24,
            1,
            b"cert branch 2\ncert force 3 lower 2 2 3\ncert open 26\ncert open 24\n",
            Verdict::Yes,
        ),
        (
            31,
            24,
            1,
            b"cert branch 2\ncert force 3 lower 2 3 4\ncert open 26\ncert open 24\n",
            no(1, NoWhy::Cycle),
        ),
        (
            31,
            24,
            1,
            b"cert branch 2\ncert force 2 lower 2 2 3\ncert open 26\ncert open 24\n",
            no(1, NoWhy::Pair),
        ),
        (
            24,
            23,
            1,
            b"cert branch 5\ncert bound\ncert path 3 1 5\ncert open 23\n",
            Verdict::Yes,
        ),
        (
            26,
            23,
            1,
            b"cert branch 5\ncert bound\ncert path 3 1 5\ncert open 23\n",
            no(1, NoWhy::Sum),
        ),
        (
            24,
            23,
            1,
            b"cert branch 5\ncert bound\ncert path 2 1 5\ncert open 23\n",
            no(1, NoWhy::Path),
        ),
        (
            24,
            23,
            1,
            b"cert branch 5\ncert bound\ncert path 4 1 5\ncert open 23\n",
            no(1, NoWhy::Path),
        ),
    ];
    judge_all(&rt, rt.alloc(), &meetings(&[]), &rows)
}

#[test]
fn the_costs_of_branches_and_leaves_are_bounded(rt: HostRuntime) -> Result<(), Fail> {
    const LEFT: &[u8] = b"cert branch 5\ncert open 25\ncert open 23\n";
    let rows: [Row<'_>; 9] = [
        (31, 22, 0, b"cert open 22\n", Verdict::Yes),
        (31, 23, 1, LEFT, Verdict::Yes),
        (31, 25, 1, LEFT, no(3, NoWhy::Least)),
        (31, 22, 1, LEFT, no(3, NoWhy::Least)),
        (31, 21, 1, LEFT, no(0, NoWhy::Needed)),
        (23, 22, 1, b"cert branch 5\n", no(1, NoWhy::Shape)),
        (22, 22, 1, b"cert branch 5\n", no(0, NoWhy::Needed)),
        (25, 23, 1, LEFT, no(1, NoWhy::Leaf)),
        (31, 24, 2, LEFT, no(3, NoWhy::Count)),
    ];
    judge_all(&rt, rt.alloc(), &meetings(&[]), &rows)
}
