// What the decoder works on a frame's memory with.

// A code, and the weight of its checks.
// Kept: records and signs are handed to its methods as two lent slices: in one struct, which was tried, each has to promise too that both stay the same lent ones.
#[derive_where(Clone, Copy)]
pub struct Weighted<'a, C> {
    pub code: &'a C,
    pub weight: u8,
}
