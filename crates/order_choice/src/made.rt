use fleet_base::{Items, PairId, PairList, Side};

/// An open pair that got the side of its mate.
#[derive(Clone, Copy, Debug, PartialEq, Eq)]
pub struct Forcing {
    pub pair: PairId,
    pub side: Side,
    pub mate: PairId,
}

/// How a node of a search stands.
#[derive(Debug, Drop)]
pub enum Stand {
    /// Its decisions have this cycle.
    Round { cycle: PairList },
    /// It is left with its relaxed cost, in ticks.
    Waiting { cost: u64 },
    /// It was expanded on a pair.
    Expanded { cost: u64, pair: PairId },
}

/// A node that a search made: what was forced in it, in that order, and how it stands.
#[derive(Debug, Drop)]
pub struct MadeNode {
    pub forced: Items<Forcing>,
    pub stand: Stand,
}
