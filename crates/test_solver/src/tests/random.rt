//! Numbers that look random and are the same in each run.
ghost use Rattle.std.specs.Prelude.{◌<◌};

/// Numbers from a seed, each by one step of a linear congruential generator.
#[derive(Drop)]
pub struct Random {
    state: u64,
}

impl Random {
    pub fn new(seed: u64) -> Random {
        Random { state: seed }
    }

    /// A number below the bound.
    pub fn below(&mut self, bound: u32) -> u32
        requires { 0 < bound }
        ensures { result < bound }
    {
        self.state = self
            .state
            .wrapping_mul(6_364_136_223_846_793_005)
            .wrapping_add(1_442_695_040_888_963_407);
        (self.state >> 33) as u32 % bound
    }
    /// A number from 1 to the last.
    pub fn one_to(&mut self, last: u32) -> u64
        requires { 0 < last }
    {
        u64::from(self.below(last)) + 1
    }
}
