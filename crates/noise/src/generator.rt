// Noise that a generator makes of a seed.
ghost use Rattle.std.specs.Prelude.{◌≡◌, ◌≤◌, Some, None, MatchResult};
ghost use Rattle.faults.specs.Rows.{row_of};
ghost use Rattle.noise.specs.Lawfuls.{generated_lawful};
ghost use Rattle.noise.specs.Sources.{most_amplitude, mixed, spread, generated, amplitude_fault};

use crate::limits::{MOST_AMPLITUDE, SPAN, is_covered};
use crate::source::Noise;
use faults::Fault;

// A seed, and an amplitude: the noise is at most so far from 0.
#[derive(Clone, Copy, Debug, PartialEq, Eq)]
pub struct Generator {
    seed: u32,
    amplitude: u8,
    // Kept: `lawful` speaks of every amplitude that a proof can name, and this bounds those.
    ghost few: { amplitude ≤ most_amplitude },
}

// Mixes the bits of a number.
fn mixed_of(u: u32) -> u32
    ensures { result ≡ mixed u }
{
    let u = u ^ (u << 13);
    let u = u ^ (u >> 17);
    u ^ (u << 5)
}

// A number from −amplitude to amplitude.
fn spread_of(amplitude: u8, u: u32) -> i16
    ensures { result ≡ spread amplitude u }
{
    (u % (2 * u32::from(amplitude) + 1)) as i16 - i16::from(amplitude)
}

impl Noise for Generator {
    ghost noise = { λ g. generated g.seed g.amplitude };

    ghost lawful = { λ g. generated_lawful g.seed g.amplitude g.few };

    fn at(&self, round: usize, bit: usize) -> i16 {
        if !is_covered(round, bit) {
            return 0;
        }
        let u = self.seed.wrapping_add((round * SPAN + bit) as u32);
        spread_of(self.amplitude, mixed_of(u))
    }
}

impl Generator {
    // The generator, or N3 for an amplitude above 255.
    pub fn new(seed: u32, amplitude: u32) -> Result<Generator, Fault>
        ensures { MatchResult result (λ g. (amplitude_fault amplitude ≡ None) × (g.seed ≡ seed) × (g.amplitude ≡ amplitude)) (λ e. amplitude_fault amplitude ≡ Some (row_of e)) }
    {
        if amplitude > MOST_AMPLITUDE {
            return Err(Fault::AmplitudeRange);
        }
        let amplitude = amplitude as u8;
        Ok(Generator { seed, amplitude })
    }
}
