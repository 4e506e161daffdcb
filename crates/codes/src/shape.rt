// The counts of the two parts of a product.
ghost use Rattle.std.specs.Prelude.{◌+◌, ◌*◌, ◌≤◌};
ghost use Rattle.codes.specs.Limits.{most_bits, most_checks};

#[derive(Clone, Copy)]
pub struct Shape {
    // The bits of the first part: the rows.
    pub rows: usize,
    // The bits of the second: the columns.
    pub columns: usize,
    // The checks of the first, on each column.
    pub downs: usize,
    // The checks of the second, on each row.
    pub acrosses: usize,
    ghost bits: { rows * columns ≤ most_bits },
    ghost checks: { rows * acrosses + downs * columns ≤ most_checks },
}
