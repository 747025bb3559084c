// Walks of robots on an open square, drawn at random: no robot enters a cell that another is in or enters.
ghost use Rattle.std.specs.Prelude.{◌<◌};

use fleet_base::Cell;
use std::alloc::Global;
use std::fmt::Write;
use std::test::Fail;

/// The map of the square, and its side.
pub const SQUARE: &[u8] = b"type octile\nheight 4\nwidth 4\nmap\n....\n....\n....\n....\n";

const SIDE: u32 = 4;

/// A row of numbers that looks random, always the same for the same start.
#[derive(Drop)]
pub struct Dice {
    pub state: u64,
}

impl Dice {
    /// One of five numbers.
    pub fn roll(&mut self) -> u64
        ensures { result < 5 }
    {
        self.state = self
            .state
            .wrapping_mul(6_364_136_223_846_793_005)
            .wrapping_add(1_442_695_040_888_963_407);
        (self.state >> 33) % 5
    }
}

/// A cell for each robot and tick.
pub fn drawn_walks(alloc: Global, dice: &mut Dice, ticks: u32) -> Result<Vec<Vec<Cell>>, Fail> {
    let mut walks = Vec::new(alloc);
    for col in 0..SIDE {
        walks.push(vec![in alloc; Cell { row: 0, col }]?)?;
    }
    for _ in 0..ticks {
        step(alloc, &mut walks, dice)?;
    }
    Ok(walks)
}

/// Each robot goes to a neighbouring cell or stays.
fn step(alloc: Global, walks: &mut [Vec<Cell>], dice: &mut Dice) -> Result<(), Fail> {
    let mut taken = Vec::new(alloc);
    for walk in walks.iter() {
        taken.push(*walk.last().ok_or("a cell")?)?;
    }
    for walk in walks.iter_mut() {
        let here = *walk.last().ok_or("a cell")?;
        let there = moved(here, dice.roll());
        let next = if taken.contains(&there) { here } else { there };
        taken.push(next)?;
        walk.push(next)?;
    }
    Ok(())
}

fn moved(here: Cell, roll: u64) -> Cell {
    let mut there = here;
    match roll {
        0 => there.row = here.row.saturating_sub(1),
        1 => there.row = here.row.saturating_add(1).min(SIDE - 1),
        2 => there.col = here.col.saturating_sub(1),
        3 => there.col = here.col.saturating_add(1).min(SIDE - 1),
        _ => {}
    }
    there
}

/// The text of the plan of these walks.
pub fn text_of(alloc: Global, walks: &[Vec<Cell>]) -> Result<String, Fail> {
    let mut text = String::new(alloc);
    for (robot, walk) in walks.iter().enumerate() {
        write!(text, "Agent {robot}: ")?;
        for cell in walk {
            write!(text, "({},{})->", cell.row, cell.col)?;
        }
        text.push_str("\n")?;
    }
    Ok(text)
}
