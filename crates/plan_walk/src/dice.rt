ghost use Rattle.std.specs.Prelude.{◌<◌};

use rand_core::{Rng, SeedableRng};
use rand_xoshiro::Xoshiro256PlusPlus;

/// Draws numbers, which are the same in each run.
#[derive(Drop)]
pub struct Dice {
    source: Xoshiro256PlusPlus,
}

impl Dice {
    pub fn new() -> Dice {
        Dice {
            source: Xoshiro256PlusPlus::seed_from_u64(1),
        }
    }

    /// A number below `n`.
    pub fn below(&mut self, n: usize) -> usize
        requires { 0 < n }
        ensures { result < n }
    {
        (self.source.next_u64() % n as u64) as usize
    }
}
