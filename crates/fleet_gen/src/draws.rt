ghost use Rattle.std.specs.Prelude.{◌≡◌, IfOk};
ghost use Rattle.std.specs.List.{list_any, range_with_len};
ghost use Rattle.fleet_gen.specs.Words.{after, word_of};
ghost use Rattle.fleet_gen.specs.Roads.{is_on_road};
ghost use Rattle.fleet_gen.specs.Draws.{marks_of, roads_of, shuffled};

use crate::Road;
use crate::vectors::append;
use fleet_base::{Cell, Memory};
use rand_core::utils::NextWord;
use rand_pcg::Lcg64Xsh32;
use std::alloc::Global;

/// How many robots a fleet has, and how many rows and columns its map.
pub(crate) const SIDE: u32 = 32;

/// The roads of all robots, by the next words: one for each exchange of the rows of the goals, then one for each column.
pub(crate) fn draw_roads(alloc: Global, words: &mut Lcg64Xsh32) -> Result<Vec<Road>, Memory>
    ensures roads { IfOk result (λ roads. roads.items ≡ roads_of (word_of words.old) 32) }
    ensures words { IfOk result (λ _. words.new ≡ after 63 words.old) }
{
    let goals = draw_goals(alloc, words)?;
    let mut roads = Vec::new(alloc);
    for (row, goal) in goals.iter().enumerate() {
        let column = 1 + words.next_word() % 30;
        let road = Road {
            row: row as u32,
            column,
            goal: *goal,
        };
        append(&mut roads, road)?;
    }
    Ok(roads)
}

/// The rows of the goals: the numbers of all rows, shuffled.
fn draw_goals(alloc: Global, words: &mut Lcg64Xsh32) -> Result<Vec<u32>, Memory>
    ensures goals { IfOk result (λ goals. goals.items ≡ shuffled (word_of words.old) 31) }
    ensures words { IfOk result (λ _. words.new ≡ after 31 words.old) }
{
    let mut goals = numbers(alloc, SIDE)?;
    shuffle(&mut goals, words);
    Ok(goals)
}

/// So many numbers from 0 on.
fn numbers(alloc: Global, count: u32) -> Result<Vec<u32>, Memory>
    ensures { IfOk result (λ numbers. numbers.items ≡ range_with_len 0 count) }
{
    let mut numbers = Vec::new(alloc);
    for number in 0..count {
        append(&mut numbers, number)?;
    }
    Ok(numbers)
}

/// Exchanges each place from the last one down to the second with one up to itself.
fn shuffle(goals: &mut [u32], words: &mut Lcg64Xsh32)
    requires { goals.old ≡ range_with_len 0 32 }
    ensures goals { goals.new ≡ shuffled (word_of words.old) 31 }
    ensures words { words.new ≡ after 31 words.old }
{
    for exchange in 0..SIDE - 1 {
        let place = SIDE - 1 - exchange;
        let other = words.next_word() % (place + 1);
        goals.swap(place as usize, other as usize);
    }
}

/// The map, by the next words, one for each cell row by row: a cell is blocked where it is on no road and its word is a
/// multiple of ten.
pub(crate) fn draw_marks(
    alloc: Global,
    roads: &[Road],
    words: &mut Lcg64Xsh32,
) -> Result<Vec<bool>, Memory>
    ensures { IfOk result (λ marks. marks.items ≡ marks_of roads.now (word_of words.old) 1024) }
{
    let mut free = Vec::new(alloc);
    for number in 0..SIDE * SIDE {
        let word = words.next_word();
        let at = Cell {
            row: number / SIDE,
            col: number % SIDE,
        };
        append(&mut free, on_a_road(roads, at) || word % 10 != 0)?;
    }
    Ok(free)
}

/// Whether one of the roads goes through a cell.
fn on_a_road(roads: &[Road], at: Cell) -> bool
    ensures { result ≡ list_any (λ road. is_on_road road at) roads.now }
{
    roads.iter().any(|road| road.passes(at))
}
