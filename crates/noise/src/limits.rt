// The limits of every source.
ghost use Rattle.std.specs.Prelude.{◌≡◌};
ghost use Rattle.noise.specs.Sources.{is_covered};

// The rounds for which a source has noise.
pub const MOST_ROUNDS: usize = 1_000;
// The bits for which it has.
pub const MOST_BITS: usize = 4_096;
// The least noise, and the most.
pub const LEAST_NOISE: i16 = -255;

pub const MOST_NOISE: i16 = 255;
// The most entries of a table.
pub const MOST_ENTRIES: usize = 16_384;
// The largest amplitude of a generator, which is held as a u8.
pub const MOST_AMPLITUDE: u32 = u8::MAX as u32;
// How far the numbers of a round are from those of the next, in a generator.
pub const SPAN: usize = 4_096;

// Whether a source has noise for this round and this bit.
pub fn is_covered(round: usize, bit: usize) -> bool
    ensures { result ≡ is_covered round bit }
{
    round < MOST_ROUNDS && bit < MOST_BITS
}
