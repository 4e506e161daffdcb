// The sizes of a grid of cells.
ghost use Rattle.std.specs.Prelude.{◌*◌, ◌≤◌};
ghost use Rattle.codes.specs.Limits.{most_bits, most_checks, most_size};

#[derive(Clone, Copy)]
pub struct Grid {
    pub rows: usize,
    pub columns: usize,
    // The bits and checks that each row and each column stands for.
    pub size: usize,
    ghost some: { 1 ≤ size },
    ghost small: { size ≤ most_size },
    ghost wide: { columns ≤ most_bits },
    ghost high: { rows ≤ most_checks },
    ghost bits: { columns * size ≤ most_bits },
    ghost checks: { rows * size ≤ most_checks },
}
