//! Draws of numbers.

ghost use Rattle.std.specs.Prelude.{◌≡◌, pos, ◌-ℤ◌, ◌≤ℤ◌, ◌<◌, ◌≤◌};
ghost use Rattle.rd_gen.specs.Draws as draws;

use std::marker::Model;

/// A sequence of draws, which its seed determines. Contracts see its state, which is at first the seed.
#[derive(Clone, Copy, PartialEq, Eq, Debug)]
pub struct Draw {
    state: u64,
}

impl Model for Draw {
    ghost use Rattle.std.specs.Prelude.{ℕ};

    ghost Value = { ℕ };

    ghost view = { λ d. d.state };

    ghost inverse = { λ s. record { state = s } };
}

impl Draw {
    /// The draws of this seed.
    pub fn new(seed: u64) -> Draw
        ensures { result ≡ seed }
    {
        Draw { state: seed }
    }

    /// The next number, below `n`, which is at least 1.
    #[tactic(auto, unfolding(crate::specs::Draws::below, crate::specs::Draws::drawn, crate::specs::Draws::next))]
    pub fn below(&mut self, n: u32) -> u32
        requires { 1 ≤ n }
        ensures drawn { draws.below n self.old ≡ (result, self.new) }
        ensures under { result < n }
    {
        self.state = self
            .state
            .wrapping_mul(6364136223846793005)
            .wrapping_add(1442695040888963407);
        ((self.state >> 33) % n as u64) as u32
    }

    /// The next number below `n`, less `less`.
    #[tactic(auto, unfolding(crate::specs::Draws::below_less))]
    pub(crate) fn below_less(&mut self, n: u32, less: u32) -> i32
        requires some { 1 ≤ n }
        requires most { n ≤ 1000 }
        requires less { less ≤ 1000 }
        ensures drawn { draws.below_less n less self.old ≡ (result, self.new) }
        ensures from { (pos 0 -ℤ pos less) ≤ℤ result }
        ensures to { result ≤ℤ pos n }
    {
        self.below(n) as i32 - less as i32
    }
}
