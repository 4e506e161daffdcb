// The limits of every code.
ghost use Rattle.std.specs.Prelude.{◌≡◌};
ghost use Rattle.codes.specs.Limits.{sizes_fit};

// Every bit and every check is numbered below this.
pub const STRIDE: usize = 4_096;
// The most bits of a code.
pub const MOST_BITS: usize = STRIDE;
// The most checks of a code.
pub const MOST_CHECKS: usize = STRIDE;
// The most bits that a check holds.
pub const MOST_CHECK_DEGREE: usize = 64;
// The most checks that hold a bit.
pub const MOST_BIT_DEGREE: usize = 16;
// The largest size of a circulant.
pub const MOST_SIZE: usize = 256;

// Whether a code may have so many bits and checks.
pub fn sizes_fit(bits: usize, checks: usize) -> bool
    ensures { result ≡ sizes_fit bits checks }
{
    (1..=MOST_BITS).contains(&bits) && (1..=MOST_CHECKS).contains(&checks)
}
