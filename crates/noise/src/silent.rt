// No noise.
ghost use Rattle.noise.specs.Lawfuls.{silence_lawful};
ghost use Rattle.noise.specs.Sources.{silence};

use crate::source::Noise;

#[derive(Clone, Copy, Debug, Default, PartialEq, Eq)]
pub struct Silent;

impl Noise for Silent {
    ghost noise = { λ _. silence };

    ghost lawful = { λ _. silence_lawful };

    fn at(&self, _round: usize, _bit: usize) -> i16 {
        0
    }
}
