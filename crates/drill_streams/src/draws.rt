//! The numbers of a drill.
ghost use Rattle.std.specs.Prelude.{◌≡◌, ◌<◌};
ghost use Rattle.drill_streams.specs.Draws.{drawn, first_number, next_number};

/// The numbers are below this.
const NUMBERS: u64 = 1 << 31;

/// A linear congruential generator, which gives the same numbers wherever it runs.
#[derive(Debug, Drop)]
pub(crate) struct Draws {
    pub(crate) number: u32,
}

impl Draws {
    pub(crate) fn of(seed: u32) -> Draws
        ensures { result.number ≡ first_number seed }
    {
        Draws {
            number: (u64::from(seed) % NUMBERS) as u32,
        }
    }

    /// Draws a number below a bound, by the upper bits of the next number.
    pub(crate) fn below(&mut self, bound: u32) -> u32
        requires { 0 < bound }
        ensures number { self.new.number ≡ next_number self.old.number }
        ensures drawn { result ≡ drawn bound self.new.number }
        ensures below { result < bound }
    {
        self.number = ((1_103_515_245 * u64::from(self.number) + 12_345) % NUMBERS) as u32;
        self.number / 65_536 % bound
    }
}
