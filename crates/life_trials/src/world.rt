// Robots beside the sessions of a life: they go on every whole line that any session has sent, and report what is true.
use fleet_base::{Cell, Visit};
use report_text::Answer;
use std::alloc::Global;
use std::fmt::Write;
use std::test::Fail;
use trial_base::{Texts, answers_in};

/// A plan, the cells in which its robots start, and their last visits.
#[derive(Clone, Copy)]
pub struct Trial {
    pub texts: Texts<'static>,
    pub robots: &'static [(Cell, u32)],
}

/// A visit to which a robot may go, and its cell.
#[derive(Clone, Copy)]
struct Told {
    visit: Visit,
    cell: Cell,
}

/// A robot stands at a visit, or moves from it to the next one. Its arrivals were answered up to that at one visit.
#[derive(Clone, Copy)]
struct Robot {
    visit: u32,
    moving: bool,
    answered: u32,
    last: u32,
}

/// All robots, the visits that have been released to them, and the time.
#[derive(Drop)]
pub struct World {
    robots: Vec<Robot>,
    told: Vec<Told>,
    tick: u64,
}

impl World {
    /// All robots stand where they start.
    pub fn new(alloc: Global, trial: &Trial) -> Result<World, Fail> {
        let mut robots = Vec::new(alloc);
        let mut told = Vec::new(alloc);
        let mut robot: u32 = 0;
        for (cell, last) in trial.robots {
            robots.push(Robot {
                visit: 0,
                moving: false,
                answered: 0,
                last: *last,
            })?;
            told.push(Told {
                visit: Visit { robot, index: 0 },
                cell: *cell,
            })?;
            robot = robot.wrapping_add(1);
        }
        Ok(World {
            robots,
            told,
            tick: 0,
        })
    }

    /// How many robots there are.
    pub fn len(&self) -> u32 {
        self.robots.len().min(256) as u32
    }

    /// What a session has sent reaches the robots: they know each visit that a whole line releases.
    pub fn hear(&mut self, alloc: Global, sent: &[u8]) -> Result<(), Fail> {
        for answer in &answers_in(alloc, sent)? {
            if let Answer::Release { visit, cell } = *answer
                && cell_of(&self.told, visit).is_none()
            {
                self.told.push(Told { visit, cell })?;
            }
        }
        Ok(())
    }

    /// A robot that stands begins the move to its next visit, if that is released.
    pub fn begin(&mut self, number: u32) {
        if let Some(robot) = self.robots.get_mut(number as usize) {
            let next = Visit {
                robot: number,
                index: robot.visit.wrapping_add(1),
            };
            robot.moving = robot.moving || cell_of(&self.told, next).is_some();
        }
    }

    /// A robot that moves arrives.
    pub fn arrive(&mut self, number: u32) {
        if let Some(robot) = self.robots.get_mut(number as usize)
            && robot.moving
        {
            robot.visit = robot.visit.wrapping_add(1);
            robot.moving = false;
        }
    }

    /// The report of a robot's first arrival that is not yet answered, if there is one.
    pub fn arrival(&mut self, alloc: Global, number: u32) -> Result<Option<String>, Fail> {
        match self.robots.get(number as usize) {
            Some(robot) if robot.answered < robot.visit => {
                let index = robot.answered.wrapping_add(1);
                self.tick = self.tick.wrapping_add(1);
                let mut line = String::new(alloc);
                writeln!(line, "arrive {number} {index} {}", self.tick)?;
                Ok(Some(line))
            }
            _ => Ok(None),
        }
    }

    /// That arrival is answered.
    pub fn note_answer(&mut self, number: u32) {
        if let Some(robot) = self.robots.get_mut(number as usize) {
            robot.answered = robot.answered.wrapping_add(1);
        }
    }

    /// The report of a delay of a robot's move to a visit, so many ahead of the one behind the last of which an arrival is
    /// answered.
    pub fn delay(
        &mut self,
        alloc: Global,
        number: u32,
        ahead: u32,
        extra: u64,
    ) -> Result<Option<String>, Fail> {
        match self.robots.get(number as usize) {
            Some(robot) if robot.answered < robot.last => {
                let index = robot.answered.saturating_add(ahead).saturating_add(1);
                let index = index.min(robot.last);
                self.tick = self.tick.wrapping_add(1);
                let mut line = String::new(alloc);
                writeln!(line, "delay {number} {index} {extra} {}", self.tick)?;
                Ok(Some(line))
            }
            _ => Ok(None),
        }
    }

    /// Whether all robots stand at their last visits, and all their arrivals are answered.
    pub fn is_over(&self) -> bool {
        self.robots.iter().all(|robot| robot.answered == robot.last)
    }

    /// Whether some two robots occupy one cell.
    pub fn collides(&self, alloc: Global) -> Result<bool, Fail> {
        let mut before: Vec<[Option<Cell>; 2]> = Vec::new(alloc);
        let mut number: u32 = 0;
        for robot in &self.robots {
            let cells = occupied(&self.told, number, robot);
            if before.iter().any(|other| meet(other, &cells)) {
                return Ok(true);
            }
            before.push(cells)?;
            number = number.wrapping_add(1);
        }
        Ok(false)
    }
}

/// The cell of a visit to which a robot may go.
fn cell_of(told: &[Told], visit: Visit) -> Option<Cell> {
    for line in told {
        if line.visit == visit {
            return Some(line.cell);
        }
    }
    None
}

/// The cells that a robot occupies: that of its visit, and while it moves that of the next one too.
fn occupied(told: &[Told], number: u32, robot: &Robot) -> [Option<Cell>; 2] {
    let at = |index: u32| Visit {
        robot: number,
        index,
    };
    let here = cell_of(told, at(robot.visit));
    let there = if robot.moving {
        cell_of(told, at(robot.visit.wrapping_add(1)))
    } else {
        None
    };
    [here, there]
}

/// Whether two robots occupy one cell.
fn meet(a: &[Option<Cell>; 2], b: &[Option<Cell>; 2]) -> bool {
    a.iter().any(|cell| cell.is_some() && b.contains(cell))
}
