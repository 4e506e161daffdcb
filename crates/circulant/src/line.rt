// A row or a column of a grid, and its cells that are not empty.
ghost use Rattle.std.specs.Prelude.{◌≡◌, ◌<◌, length, IfOk};
ghost use Rattle.circulant.specs.Turns.{majors, minors, cell_of, turn_at, turns_of};

use crate::cells::Cells;
use crate::turn::Turn;
use codes::Side;
use std::alloc::{AllocError, Global};

#[derive(Clone, Copy)]
pub struct Line<'a> {
    pub cells: Cells<'a>,
    // From the side of the checks a row, from that of the bits a column.
    pub side: Side,
    pub number: usize,
    ghost inside: { number < majors side cells.grid },
}

impl Line<'_> {
    fn cell(&self, place: usize) -> i16
        requires { place < minors self.now.side self.now.cells.grid }
        ensures { result ≡ cell_of self.now.side self.now.cells.grid.columns self.now.cells.cells.now self.now.number place }
    {
        match self.side {
            Side::ByCheck => self.cells.at(self.number, place),
            Side::ByBit => self.cells.at(place, self.number),
        }
    }

    // The turn of a cell, unless it is empty: from a bit it leads back.
    fn turn(&self, place: usize) -> Option<Turn>
        requires { place < minors self.now.side self.now.cells.grid }
        ensures { result ≡ turn_at self.now.side self.now.cells.grid self.now.cells.cells.now self.now.number place }
    {
        let shift = u16::try_from(self.cell(place)).ok()?;
        let size = self.cells.grid.size;
        let by = match self.side {
            Side::ByCheck => shift,
            Side::ByBit => (size as u16).saturating_sub(shift),
        };
        Some(Turn {
            start: place * size,
            by,
        })
    }

    // How many cells are not empty.
    pub(crate) fn degree(&self) -> usize
        ensures { result ≡ length (turns_of self.now.side self.now.cells.grid self.now.cells.cells.now self.now.number) }
    {
        (0..self.cells.grid.majors(self.side.other()))
            .filter_map(|place| self.turn(place))
            .count()
    }

    // The turns of the cells that are not empty.
    pub(crate) fn turns(&self, heap: Global) -> Result<Vec<Turn>, AllocError>
        ensures { IfOk result (λ v. v.items ≡ turns_of self.now.side self.now.cells.grid self.now.cells.cells.now self.now.number) }
    {
        (0..self.cells.grid.majors(self.side.other()))
            .filter_map(|place| self.turn(place))
            .collect(heap)
    }
}
