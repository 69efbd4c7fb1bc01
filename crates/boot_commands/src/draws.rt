//! The numbers of a demonstration.
ghost use Rattle.std.specs.Prelude.{◌≡◌, ◌<◌};
ghost use Rattle.boot_commands.specs.Draws.{draw_below, next_number};

/// A linear congruential generator with Knuth's numbers for 64 bits, whose upper bits are drawn from.
#[derive(Clone, Copy, Debug)]
pub struct Draws {
    pub number: u64,
}

impl Draws {
    /// The next number below that.
    pub fn below(&mut self, bound: u64) -> u64
        requires { 0 < bound }
        ensures number { self.new.number ≡ next_number self.old.number }
        ensures drawn { result ≡ draw_below self.new.number bound }
    {
        self.number = self
            .number
            .wrapping_mul(6_364_136_223_846_793_005)
            .wrapping_add(1_442_695_040_888_963_407);
        (self.number >> 33) % bound
    }
}
