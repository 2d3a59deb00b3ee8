//! A generator of numbers.
ghost use Rattle.std.specs.Prelude.{◌≡◌};
ghost use Rattle.docdb_base.specs.Generator.{next_state, draw_of};

/// A generator of 32-bit numbers from one 64-bit state: a linear congruence, of which a draw shows the
/// upper half.
#[derive(Clone, Copy, Debug, Drop)]
pub struct Generator {
    pub state: u64,
}

const FACTOR: u64 = 6364136223846793005;

const STEP: u64 = 1442695040888963407;

impl Generator {
    /// A generator that starts with this number.
    pub fn of(number: u64) -> Generator
        ensures { result.state ≡ number }
    {
        Generator { state: number }
    }

    /// The next number.
    pub fn draw(&mut self) -> u32
        ensures state { self.new.state ≡ next_state self.old.state }
        ensures value { result ≡ draw_of self.new.state }
    {
        self.state = self.state.wrapping_mul(FACTOR).wrapping_add(STEP);
        (self.state >> 32) as u32
    }
}
