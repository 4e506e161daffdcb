// The limits of every quantiser, and of the levels that it gives.

// The least step of a uniform quantiser, 2^-10.
pub const LEAST_STEP: f32 = 1.0 / 1_024.0;
// The largest step, 2^10.
pub const MOST_STEP: f32 = 1_024.0;
// How many boundaries a uniform quantiser has.
pub const UNIFORM_BOUNDARIES: u8 = 15;
// The largest of three boundaries may be this, 2^14.
pub const MOST_BOUNDARY: f32 = 16_384.0;
// The largest magnitude of a level.
pub const MOST_LEVEL: i8 = 31;
