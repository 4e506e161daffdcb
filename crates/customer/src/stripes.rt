// A noise source of a customer's own.
ghost use Rattle.std.specs.Prelude.{◌≡◌, ◌≤◌};
ghost use Rattle.customer.specs.Own.{striped, striped_lawful};

use noise::{Noise, is_covered};

// The same level at every bit, up at even bits and down at odd ones.
#[derive(Clone, Copy, Debug, PartialEq, Eq)]
pub struct Stripes {
    level: u8,
    // Kept: `lawful` speaks of every level that a proof can name, and this bounds those.
    ghost few: { level ≤ 255 },
}

impl Noise for Stripes {
    ghost noise = { λ s. striped s.level };

    ghost lawful = { λ s. striped_lawful s.level s.few };

    fn at(&self, round: usize, bit: usize) -> i16 {
        if !is_covered(round, bit) {
            0
        } else if bit % 2 == 0 {
            i16::from(self.level)
        } else {
            -i16::from(self.level)
        }
    }
}

impl Stripes {
    pub fn new(level: u8) -> Stripes
        ensures { result.level ≡ level }
    {
        Stripes { level }
    }
}
