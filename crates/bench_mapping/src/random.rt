//! Pseudo-random numbers, the same in each run.

/// A linear congruential generator of 64 bits (Knuth's MMIX), of which the upper bits are used.
#[derive(Drop)]
pub struct Random {
    state: u64,
}

impl Random {
    ghost use Rattle.std.specs.Prelude.{◌<◌};

    pub fn new() -> Random {
        Random { state: 1 }
    }

    /// The next number below a bound.
    pub fn below(&mut self, bound: u32) -> u32
        requires { 0 < bound }
        ensures { result < bound }
    {
        self.state = self
            .state
            .wrapping_mul(6_364_136_223_846_793_005)
            .wrapping_add(1_442_695_040_888_963_407);
        (self.state >> 33) as u32 % bound
    }
}
