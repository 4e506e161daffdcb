// A code that is given as a grid of cells, each empty or a shift of the identity matrix.
#![tactic(auto)]

ghost use Rattle.std.specs.Prelude.{MatchResult};
ghost use Rattle.faults.specs.Rows.{row_of, Refused};
ghost use Rattle.circulant.specs.Circles.{circulant_fault, MadeCirculant};
ghost use Rattle.circulant.specs.Means.{circulant_of};

mod cells;
mod grid;
mod line;
mod sizes;
mod turn;

use cells::Cells;
use codes::{AsMatrix, Matrix, Side};
use faults::Fault;
use std::alloc::Global;

// A code made of circulants.
#[derive(Drop)]
pub struct Circulant {
    matrix: Matrix,
}

impl AsMatrix for Circulant {
    ghost matrix = { λ c. c.matrix };

    fn as_matrix(&self) -> &Matrix {
        &self.matrix
    }
}

impl Circulant {
    // The code of a grid of `rows` by `columns` cells, row by row, each −1 or a shift below the size.
    pub fn new(
        heap: Global,
        rows: usize,
        columns: usize,
        size: usize,
        cells: &[i16],
    ) -> Result<Circulant, Fault>
        ensures { MatchResult result (λ k. MadeCirculant rows columns size cells.now (circulant_of k)) (λ e. Refused (circulant_fault rows columns size cells.now) (row_of e)) }
    {
        let cells = Cells::new(rows, columns, size, cells)?;
        let rows = cells.lists(heap, Side::ByCheck)?;
        let columns = cells.lists(heap, Side::ByBit)?;
        Ok(Circulant {
            matrix: Matrix::new(rows, columns),
        })
    }
}
