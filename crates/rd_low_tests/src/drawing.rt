//! Pseudo-random numbers.
ghost use Rattle.std.specs.Prelude.{◌<◌};

/// A linear congruence.
#[derive(Drop)]
pub(super) struct Draws {
    state: u32,
}

impl Draws {
    pub(super) fn new(seed: u32) -> Draws {
        Draws { state: seed }
    }

    /// A number below another.
    pub(super) fn below(&mut self, count: u8) -> u8
        requires { 0 < count }
        ensures { result < count }
    {
        self.state = self
            .state
            .wrapping_mul(1_664_525)
            .wrapping_add(1_013_904_223);
        ((self.state >> 16) % u32::from(count)) as u8
    }
}
