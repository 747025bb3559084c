// Full binary trees: each level decides the pair of one more crossing.
ghost use Rattle.std.specs.Prelude.{◌<◌, ◌≤◌, ◌^◌};

use crate::crossings::Crossings;
use std::alloc::Global;
use std::fmt::{self, Write};

/// What a tree is made for.
#[derive(Clone, Copy)]
pub enum Kind {
    /// An optimal tree for the sum of the shortest ways, whose leaves list no path.
    Bare,
    /// One for the least sum that is there once these pairs have a side, whose leaves list a path for each.
    Listed,
    /// A spent tree, whose leaves are left open.
    Spent,
}

/// A tree over the first crossings.
#[derive(Clone, Copy)]
pub struct Tree {
    pub kind: Kind,
    pub crossings: Crossings,
    pub depth: u8,
}

impl Tree {
    /// The sum of the robots' last ticks at each leaf, where one robot of each decided pair waits for two ticks.
    pub fn relaxed(self) -> u64
        ensures { result < 2 ^ 21 }
    {
        self.shortest() + 2 * u64::from(self.depth)
    }

    /// The same with no pair decided.
    pub fn shortest(self) -> u64
        ensures { result < 2 ^ 20 }
    {
        2 * u64::from(self.crossings.count) * self.crossings.way()
    }

    /// How many leaves there are; one alone in a tree that would be too large.
    pub fn leaves(self) -> u64
        ensures { 1 ≤ result }
    {
        if self.depth > 24 { 1 } else { 1 << self.depth }
    }

    /// The certificate's text.
    pub fn text(self, alloc: Global) -> Result<String, fmt::Error> {
        let mut text = String::new(alloc);
        if self.depth > 24 {
            return Err(fmt::Error);
        }
        for leaf in 0..self.leaves() {
            self.push_branches(&mut text, leaf)?;
            self.push_leaf(&mut text, leaf)?;
        }
        Ok(text)
    }

    /// The Branch nodes before a leaf: those below which it is the first one.
    fn push_branches(self, text: &mut String, leaf: u64) -> fmt::Result
        requires { self.depth ≤ 24 }
    {
        for level in 0..self.depth {
            if leaf % (1 << (self.depth - level)) == 0 {
                write!(text, "cert branch {level}\n")?;
            }
        }
        Ok(())
    }

    fn push_leaf(self, text: &mut String, leaf: u64) -> fmt::Result
        requires { self.depth ≤ 24 }
    {
        match self.kind {
            Kind::Bare => text.write_str("cert bound\n")?,
            Kind::Listed => self.push_paths(text, leaf)?,
            Kind::Spent => {
                let relaxed = self.relaxed();
                write!(text, "cert open {relaxed}\n")?;
            }
        }
        Ok(())
    }

    /// A Bound with the path of each robot that waits for the other one of its crossing.
    fn push_paths(self, text: &mut String, leaf: u64) -> fmt::Result
        requires { self.depth ≤ 24 }
    {
        text.write_str("cert bound\n")?;
        for level in 0..self.depth {
            let higher = (leaf >> (self.depth - 1 - level)) & 1;
            let robot = 2 * u64::from(level) + 1 - higher;
            write!(text, "cert path {robot} 1 {level}\n")?;
        }
        Ok(())
    }
}
