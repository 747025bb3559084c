// Robots in pairs: one goes from left to right, the other from top to bottom through the middle of the first one's way.
ghost use Rattle.std.specs.Prelude.{◌<◌, ◌≤◌, ◌^◌};

use std::alloc::Global;
use std::fmt::{self, Write};

/// How many crossings there are, in rows as wide as a map can be, and how many cells a robot passes before the middle, and
/// after it.
#[derive(Clone, Copy)]
pub struct Crossings {
    pub count: u8,
    pub arm: u8,
}

impl Crossings {
    /// The number of the robots' last visits.
    pub fn way(self) -> u64
        ensures { result ≤ 510 }
    {
        2 * u64::from(self.arm)
    }

    /// How many stand side by side.
    fn abreast(self) -> u64
        ensures { 1 ≤ result }
    {
        4096 / (self.way() + 2)
    }

    /// The text of the map, which has free cells alone.
    pub fn map_text(self, alloc: Global) -> Result<String, fmt::Error> {
        let mut text = String::new(alloc);
        let (count, abreast, room) = (u64::from(self.count), self.abreast(), self.way() + 2);
        let height = count.div_ceil(abreast) * room;
        let width = count.min(abreast) * room;
        write!(text, "type octile\nheight {height}\nwidth {width}\nmap\n")?;
        for _ in 0..height {
            for _ in 0..width {
                text.write_str(".")?;
            }
            text.write_str("\n")?;
        }
        Ok(text)
    }

    /// The text of the plan: the robot from the left is the first one in the middle, and the other comes two ticks later.
    pub fn plan_text(self, alloc: Global) -> Result<String, fmt::Error> {
        let mut text = String::new(alloc);
        let (abreast, room) = (self.abreast(), self.way() + 2);
        for crossing in 0..u64::from(self.count) {
            let (top, left) = (crossing / abreast * room, crossing % abreast * room);
            self.push_across(&mut text, 2 * crossing, top, left)?;
            self.push_down(&mut text, 2 * crossing + 1, top, left)?;
        }
        Ok(text)
    }

    fn push_across(self, text: &mut String, robot: u64, top: u64, left: u64) -> fmt::Result
        requires top { top < 2 ^ 20 }
        requires left { left < 2 ^ 40 }
    {
        let row = top + u64::from(self.arm);
        write!(text, "Agent {robot}: ")?;
        for step in 0..=self.way() {
            let column = left + step;
            write!(text, "({row},{column})->")?;
        }
        text.write_str("\n")?;
        Ok(())
    }

    fn push_down(self, text: &mut String, robot: u64, top: u64, left: u64) -> fmt::Result
        requires top { top < 2 ^ 20 }
        requires left { left < 2 ^ 40 }
    {
        let column = left + u64::from(self.arm);
        write!(text, "Agent {robot}: ({top},{column})->({top},{column})->")?;
        for step in 0..=self.way() {
            let row = top + step;
            write!(text, "({row},{column})->")?;
        }
        text.write_str("\n")?;
        Ok(())
    }
}
