//! A fixed pseudo-random sequence.

ghost use Rattle.std.specs.Prelude.{◌<◌};

/// A sequence of numbers that looks like chance and is the same at each run.
#[derive(Drop)]
pub struct Dice {
    state: u32,
}

impl Dice {
    /// The sequence that begins at a number.
    pub fn new(state: u32) -> Dice {
        Dice { state }
    }

    /// The next number below `sides`.
    pub fn roll(&mut self, sides: u32) -> u32
        requires { 0 < sides }
        ensures { result < sides }
    {
        self.state = self
            .state
            .wrapping_mul(1_664_525)
            .wrapping_add(1_013_904_223);
        (self.state >> 16) % sides
    }
}
