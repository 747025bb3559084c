// Numbers that look random, always the same ones for the same start.

#[derive(Drop)]
pub struct Dice {
    pub state: u64,
}

impl Dice {
    /// A number below a bound, or 0 where the bound is 0.
    pub fn roll(&mut self, bound: u64) -> u64 {
        self.state = self
            .state
            .wrapping_mul(6_364_136_223_846_793_005)
            .wrapping_add(1_442_695_040_888_963_407);
        (self.state >> 33).checked_rem(bound).unwrap_or(0)
    }
}
