// What a noise source is.
ghost use Rattle.std.specs.Prelude.{◌≡◌, ℕ, ℤ, ◌≤ℤ◌};
ghost use Rattle.noise.specs.Sources.{least_noise, most_noise, Lawful};

// A number for each round and each bit. It neither refuses nor fails, and asking changes nothing.
pub trait Noise {
    // The number of each round and bit, and that they are within the limits, and 0 beyond.
    ghost noise: { Self → ℕ → ℕ → ℤ };

    ghost lawful: { (s : Self) → Lawful (noise s) };

    // The noise of a round at a bit.
    fn at(&self, round: usize, bit: usize) -> i16
        ensures value { result ≡ noise self.now round bit }
        ensures low { least_noise ≤ℤ result }
        ensures high { result ≤ℤ most_noise };
}
