// Trees that show that no order is cheaper, and trees that do not.
use crate::checking::{no, optimal};
use crate::scenes::{Scene, corridor, crossing};
use cert_check::{NoWhy, Verdict};
use plan_scenes::{arrive, delay, switching};
use std::alloc::Global;
use std::process::Abort;
use std::test::Fail;

/// A cost, the text of a tree, and what is said of it.
type Row<'a> = (u64, &'a [u8], Verdict);

fn judge_all(
    rt: &impl Abort,
    alloc: Global,
    scene: &Scene<'_>,
    rows: &[Row<'_>],
) -> Result<(), Fail> {
    for (number, (cost, text, want)) in rows.iter().enumerate() {
        let found = optimal(alloc, scene, *cost, text)?;
        assert_eq!(rt; found, *want, "row {number}");
    }
    Ok(())
}

const BOTH_SIDES: &[u8] =
    b"cert branch 0\ncert bound\ncert path 1 1 0\ncert bound\ncert path 0 1 0\n";

#[test]
fn the_side_of_one_pair_is_judged(rt: HostRuntime) -> Result<(), Fail> {
    let rows: [Row<'_>; 15] = [
        (9, BOTH_SIDES, Verdict::Yes),
        (10, BOTH_SIDES, no(2, NoWhy::Sum)),
        (11, BOTH_SIDES, no(1, NoWhy::Sum)),
        (7, b"cert bound\n", Verdict::Yes),
        (8, b"cert bound\n", no(0, NoWhy::Sum)),
        (
            9,
            b"cert branch 0\ncert bound\ncert path 0 1 0\ncert bound\ncert path 0 1 0\n",
            no(1, NoWhy::Path),
        ),
        (
            9,
            b"cert branch 0\ncert bound\ncert path 2 1 0\ncert bound\n",
            no(1, NoWhy::Path),
        ),
        (7, b"cert bound\ncert path 1 1 0\n", no(0, NoWhy::Path)),
        (9, b"", no(0, NoWhy::Shape)),
        (
            9,
            b"cert branch 0\ncert bound\ncert path 1 1 0\n",
            no(2, NoWhy::Shape),
        ),
        (7, b"cert bound\ncert branch 7\n", no(1, NoWhy::Shape)),
        (9, b"cert branch 1\ncert bound\n", no(0, NoWhy::Pair)),
        (9, b"cert branch 0\ncert branch 0\n", no(1, NoWhy::Pair)),
        (
            9,
            b"cert branch 0\ncert cyclic 2 0 0\n",
            no(1, NoWhy::Cycle),
        ),
        (7, b"cert open 7\n", no(0, NoWhy::Leaf)),
    ];
    let steps = [delay(1, 1, 1, 0)];
    judge_all(&rt, rt.alloc(), &crossing(&steps), &rows)
}

#[test]
fn a_switched_pair_is_closed(rt: HostRuntime) -> Result<(), Fail> {
    let rows: [Row<'_>; 4] = [
        (107, b"cert bound\ncert path 0 1 0\n", Verdict::Yes),
        (108, b"cert bound\ncert path 0 1 0\n", no(0, NoWhy::Sum)),
        (107, b"cert bound\ncert path 1 1 0\n", no(0, NoWhy::Path)),
        (107, b"cert branch 0\n", no(0, NoWhy::Pair)),
    ];
    let steps = [switching(delay(0, 1, 5, 0), 0), delay(1, 1, 50, 0)];
    judge_all(&rt, rt.alloc(), &crossing(&steps), &rows)
}

#[test]
fn arrivals_are_where_paths_begin(rt: HostRuntime) -> Result<(), Fail> {
    let rows: [Row<'_>; 4] = [
        (48, b"cert bound\ncert path 1 1 0\n", Verdict::Yes),
        (49, b"cert bound\ncert path 1 1 0\n", no(0, NoWhy::Sum)),
        (47, b"cert bound\n", Verdict::Yes),
        (48, b"cert bound\n", no(0, NoWhy::Sum)),
    ];
    let steps = [arrive(0, 1, 1), delay(1, 2, 3, 20)];
    judge_all(&rt, rt.alloc(), &crossing(&steps), &rows)
}

#[test]
fn a_robot_that_has_finished_keeps_its_tick(rt: HostRuntime) -> Result<(), Fail> {
    let rows: [Row<'_>; 3] = [
        (9, b"cert bound\n", Verdict::Yes),
        (10, b"cert bound\n", no(0, NoWhy::Sum)),
        (9, b"cert bound\ncert path 0 1 0\n", no(0, NoWhy::Path)),
    ];
    let steps = [
        arrive(0, 1, 1),
        arrive(0, 2, 2),
        arrive(0, 3, 3),
        arrive(0, 4, 4),
    ];
    judge_all(&rt, rt.alloc(), &crossing(&steps), &rows)
}

const FORCED: &[u8] =
    b"cert force 1 lower 2 0 1\ncert force 2 lower 2 1 2\ncert force 3 lower 2 2 3\ncert force 4 lower 2 3 4\ncert force 5 lower 2 4 5\ncert bound\ncert path 1 1 5\n";

#[test]
fn the_pairs_of_a_corridor_are_forced(rt: HostRuntime) -> Result<(), Fail> {
    let rows: [Row<'_>; 8] = [
        (31, FORCED, Verdict::Yes),
        (32, FORCED, no(5, NoWhy::Sum)),
        (31, b"cert force 1 higher 2 0 1\n", no(0, NoWhy::Cycle)),
        (31, b"cert force 1 lower 2 0 2\n", no(0, NoWhy::Cycle)),
        (31, b"cert force 0 lower 2 0 1\n", no(0, NoWhy::Pair)),
        (
            23,
            b"cert branch 1\ncert bound\ncert path 1 1 1\ncert cyclic 2 1 0\n",
            Verdict::Yes,
        ),
        (
            23,
            b"cert branch 1\ncert bound\ncert path 1 1 1\ncert cyclic 3 0 1 1\n",
            no(2, NoWhy::Cycle),
        ),
        (
            27,
            b"cert branch 1\ncert branch 3\ncert bound\ncert path 1 1 3\ncert bound\ncert path 0 2 1 3\n",
            no(3, NoWhy::Path),
        ),
    ];
    let steps = [delay(0, 1, 5, 0)];
    judge_all(&rt, rt.alloc(), &corridor(&steps), &rows)
}
