//! Random choices, by a seed.
ghost use Rattle.std.specs.Prelude.{◌≡◌, ◌<◌, ◌%◌, ◌↔◌, IsTrue};
ghost use Rattle.rand_core.specs.Stream.{next_u64};
ghost use Rattle.rand_xoshiro.specs.SplitMix64.{splitmix_seed};
ghost use Rattle.rand_xoshiro.specs.Xoshiro256.{of_seed};
ghost use Rattle.tool_judge.specs.Choices.{shown};

use rand_core::{Rng, SeedableRng};
use rand_xoshiro::Xoshiro256PlusPlus;

/// A source of choices. The same seed gives the same choices.
#[derive(Drop)]
pub struct Dice {
    rng: Xoshiro256PlusPlus,
}

impl Dice {
    /// The choices of a seed.
    pub fn new(seed: u64) -> Dice
        ensures { result.rng ≡ of_seed (splitmix_seed 32 seed) }
    {
        Dice {
            rng: Xoshiro256PlusPlus::seed_from_u64(seed),
        }
    }

    /// Any word. It can serve as a seed too.
    pub fn word(&mut self) -> u64
        ensures { (result, shown self.new) ≡ next_u64 (shown self.old) }
    {
        self.rng.next_u64()
    }

    /// A number below the limit, which is not 0: the remainder of the next word.
    pub fn below(&mut self, limit: u64) -> u64
        requires { 0 < limit }
        ensures less { result < limit }
        ensures value { result ≡ (next_u64 (shown self.old)).0 % limit }
        ensures rest { shown self.new ≡ (next_u64 (shown self.old)).1 }
    {
        self.word() % limit
    }

    /// True once in `times` calls, at random. `times` is not 0.
    pub fn once_in(&mut self, times: u64) -> bool
        requires { 0 < times }
        ensures value { IsTrue result ↔ ((next_u64 (shown self.old)).0 % times ≡ 0) }
        ensures rest { shown self.new ≡ (next_u64 (shown self.old)).1 }
    {
        self.below(times) == 0
    }
}
