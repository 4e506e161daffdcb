// A grid with its cells: their first fault, and the lists that they make.
ghost use Rattle.std.specs.Prelude.{◌≡◌, ◌*◌, ◌<◌, ◌≤◌, [], ◌∷◌, ◌++◌, length, map, not, position, None, Some, All, IfOk, OnOk, MatchResult};
ghost use Rattle.std.specs.List.{find, range_with_len};
ghost use Rattle.faults.specs.First.{fault_at};
ghost use Rattle.faults.specs.Rows.{row_of, C};
ghost use Rattle.codes.specs.Degrees.{outside, degree_fault};
ghost use Rattle.codes.specs.Held.{lists_in, open_in};
ghost use Rattle.codes.specs.Limits.{stride};
ghost use Rattle.circulant.specs.Circles.{bad_cell, cell_at, circulant_pairs, circulant_fault};
ghost use Rattle.circulant.specs.Turns.{majors, minors, cell_of, turn_at, turns_of, landing, lists_of, wrong_at, Accepted};

use crate::grid::Grid;
use crate::line::Line;
use crate::turn::Turn;
use codes::{Lists, MOST_BIT_DEGREE, MOST_CHECK_DEGREE, Side};
use faults::Fault;
use std::alloc::{AllocError, Global};

// Kept: −1 stands for an empty cell, since `Circulant::new` is promised to take it so.
fn is_bad(size: usize, cell: i16) -> bool
    ensures { result ≡ bad_cell size cell }
{
    u16::try_from(cell).map_or(cell != -1, |shift| usize::from(shift) >= size)
}

// The first cell that is neither −1 nor a shift below the size.
fn first_bad(size: usize, cells: &[i16]) -> Option<usize>
    ensures { result ≡ position (bad_cell size) cells.now }
{
    cells.iter().position(|cell| is_bad(size, *cell))
}

// A grid with its cells, row by row, each −1 or a shift below the size.
#[derive(Clone, Copy)]
pub struct Cells<'a> {
    pub grid: Grid,
    pub cells: &'a [i16],
    ghost many: { length cells.now ≡ grid.rows * grid.columns },
    ghost good: { position (bad_cell grid.size) cells.now ≡ None },
}

impl<'a> Cells<'a> {
    // The cells of a grid of these sizes, or their first fault.
    pub(crate) fn new(
        rows: usize,
        columns: usize,
        size: usize,
        cells: &'a [i16],
    ) -> Result<Cells<'a>, Fault>
        ensures { MatchResult result (λ c. Accepted rows columns size cells.now c.grid c.cells.now) (λ e. circulant_fault rows columns size cells.now ≡ Some (row_of e)) }
    {
        let grid = Grid::new(rows, columns, size, cells.len()).ok_or(Fault::CodeSize)?;
        if let Some(i) = first_bad(grid.size, cells) {
            return Err(Fault::BadEntry(i));
        }
        let cells = Cells { grid, cells };
        cells.check_degrees()?;
        Ok(cells)
    }

    // The cell at a row and a column.
    pub(crate) fn at(&self, row: usize, column: usize) -> i16
        requires row { row < self.now.grid.rows }
        requires column { column < self.now.grid.columns }
        ensures { result ≡ cell_at self.now.grid.columns self.now.cells.now row column }
    {
        self.cells[row * self.grid.columns + column]
    }

    // A row or a column, by its number.
    fn line(&self, side: Side, number: usize) -> Line<'a>
        requires { number < majors side self.now.grid }
        ensures cells { result.cells ≡ self.now }
        ensures side { result.side ≡ side }
        ensures number { result.number ≡ number }
    {
        Line {
            cells: *self,
            side,
            number,
        }
    }

    // Kept: two numbers here and in check_side: a range is not `Copy`, and the clause says both ends.
    // The first row or column with too few cells that are not empty, or too many.
    fn first_wrong(&self, side: Side, least: usize, most: usize) -> Option<usize>
        ensures { result ≡ find (λ x. outside least most (length (turns_of side self.now.grid self.now.cells.now x))) (range_with_len 0 (majors side self.now.grid)) }
    {
        (0..self.grid.majors(side)).find(|number| !(least..=most).contains(
            &self.line(side, *number).degree(),
        ))
    }

    // The first check or bit with too few pairs or too many: all of a row or a column have as many.
    fn check_side(&self, side: Side, least: usize, most: usize) -> Result<(), Fault>
        ensures { MatchResult result (λ _. wrong_at side least most self.now.grid self.now.cells.now ≡ None) (λ e. fault_at (C 4) (wrong_at side least most self.now.grid self.now.cells.now) None ≡ Some (row_of e)) }
    {
        match self.first_wrong(side, least, most) {
            Some(number) => Err(Fault::DegreeRange(number * self.grid.size)),
            None => Ok(()),
        }
    }

    // The first check with too few pairs or too many, or else the first such bit.
    fn check_degrees(&self) -> Result<(), Fault>
        ensures { MatchResult result (λ _. degree_fault (circulant_pairs self.now.grid.rows self.now.grid.columns self.now.grid.size self.now.cells.now) ≡ None) (λ e. degree_fault (circulant_pairs self.now.grid.rows self.now.grid.columns self.now.grid.size self.now.cells.now) ≡ Some (row_of e)) }
    {
        self.check_side(Side::ByCheck, 1, MOST_CHECK_DEGREE)?;
        self.check_side(Side::ByBit, 0, MOST_BIT_DEGREE)
    }

    // Adds the list of one check, or of one bit.
    fn add_list(&self, lists: &mut Lists, turns: &[Turn], offset: usize) -> Result<(), AllocError>
        requires near { All (λ t. t.start ≤ stride) turns.now }
        requires place { offset < self.now.grid.size }
        ensures { OnOk result ((lists_in lists.new ≡ lists_in lists.old ++ (open_in lists.old ++ map (landing self.now.grid.size offset) turns.now) ∷ []) × (open_in lists.new ≡ [])) }
    {
        for turn in turns {
            lists.add(turn.landing(self.grid.size, offset))?;
        }
        lists.close()
    }

    // The list of each check, or of each bit. All of a row or a column share its turns.
    // Kept: two ranges with nothing to walk; one chain over both would find the turns again at each offset.
    pub(crate) fn lists(&self, heap: Global, side: Side) -> Result<Lists, AllocError>
        ensures { IfOk result (λ l. lists_in l ≡ lists_of side self.now.grid self.now.cells.now) }
    {
        let mut lists = Lists::new(heap)?;
        for number in 0..self.grid.majors(side) {
            let turns = self.line(side, number).turns(heap)?;
            for offset in 0..self.grid.size {
                self.add_list(&mut lists, &turns, offset)?;
            }
        }
        Ok(lists)
    }
}
