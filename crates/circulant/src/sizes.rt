// Which sizes a grid may have, and what they are from each side.
ghost use Rattle.std.specs.Prelude.{◌≡◌};
ghost use Rattle.circulant.specs.Circles.{grid_fits};
ghost use Rattle.circulant.specs.Turns.{majors, Gridded};

use crate::grid::Grid;
use codes::{MOST_SIZE, Side, sizes_fit};

// Whether a grid with so many cells may have these sizes.
// Kept: the numbers of a grid apart, before it is known that they fit; from then on they are a `Grid`.
fn grid_fits(rows: usize, columns: usize, size: usize, count: usize) -> bool
    ensures { result ≡ grid_fits rows columns size count }
{
    (1..=MOST_SIZE).contains(&size)
        && sizes_fit(columns.saturating_mul(size), rows.saturating_mul(size))
        && rows.checked_mul(columns) == Some(count)
}

impl Grid {
    // The grid of these sizes and so many cells, if there may be one.
    pub(crate) fn new(rows: usize, columns: usize, size: usize, count: usize) -> Option<Grid>
        ensures { Gridded rows columns size count result }
    {
        if !grid_fits(rows, columns, size, count) {
            return None;
        }
        Some(Grid {
            rows,
            columns,
            size,
        })
    }

    // How many rows or columns there are, seen from a side.
    pub(crate) fn majors(&self, side: Side) -> usize
        ensures { result ≡ majors side self.now }
    {
        match side {
            Side::ByCheck => self.rows,
            Side::ByBit => self.columns,
        }
    }
}
