// Numbers that look random, the same for the same seed.
ghost use Rattle.std.specs.Prelude.{◌<◌};

/// A source of such numbers.
#[derive(Clone, Copy, Debug, PartialEq, Eq)]
pub struct Random {
    state: u64,
}

impl Random {
    /// The source with that seed.
    pub fn new(seed: u64) -> Random {
        Random { state: seed }
    }

    /// The next number, below a bound.
    pub fn below(&mut self, bound: u64) -> u64
        requires { 0 < bound }
        ensures { result < bound }
    {
        self.state = self
            .state
            .wrapping_mul(6364136223846793005)
            .wrapping_add(1442695040888963407);
        (self.state >> 33) % bound
    }
}
