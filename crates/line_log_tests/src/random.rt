//! Pseudo-random numbers, the same in each run (Knuth's MMIX generator).
ghost use Rattle.std.specs.Prelude.{◌<◌};

#[derive(Drop)]
pub struct Random {
    state: u64,
}

impl Random {
    /// Returns the numbers of a seed.
    pub fn new(seed: u64) -> Random {
        Random { state: seed }
    }

    /// Returns the next number below this bound.
    pub fn below(&mut self, bound: usize) -> usize
        requires { 0 < bound }
        ensures { result < bound }
    {
        self.state = self
            .state
            .wrapping_mul(6_364_136_223_846_793_005)
            .wrapping_add(1_442_695_040_888_963_407);
        (self.state >> 33) as usize % bound
    }
}
