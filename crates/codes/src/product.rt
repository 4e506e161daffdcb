// The product of two codes.
ghost use Rattle.std.specs.Prelude.{◌≡◌, ◌+◌, ◌*◌, ◌<◌, ◌≤◌, Some, MatchResult};
ghost use Rattle.faults.specs.Rows.{row_of};
ghost use Rattle.codes.specs.Cross.{in_row, in_column, added, product_fault, MadeProduct};
ghost use Rattle.codes.specs.Limits.{stride};
ghost use Rattle.codes.specs.Means.{product_of};

use crate::code::Code;
use crate::limits::{MOST_BIT_DEGREE, sizes_fit};
use crate::shape::Shape;
use faults::Fault;

// The number at a row and a column.
fn in_row(width: usize, row: usize, found: Option<usize>) -> Option<usize>
    requires { row * width + width ≤ stride }
    ensures { result ≡ in_row width row found }
{
    match found {
        Some(column) if column < width => Some(row * width + column),
        _ => None,
    }
}

// The number at a row and a column, past the first `start`.
fn in_column(
    start: usize,
    height: usize,
    width: usize,
    column: usize,
    found: Option<usize>,
) -> Option<usize>
    requires { (start + height * width ≤ stride) × (column < width) }
    ensures { result ≡ in_column start height width column found }
{
    match found {
        Some(row) if row < height => Some(start + (row * width + column)),
        _ => None,
    }
}

// Both sizes together.
fn added_sizes(first: Option<usize>, second: Option<usize>) -> Option<usize>
    ensures { result ≡ added first second }
{
    first?.checked_add(second?)
}

// The product of two codes, which it holds: a grid of bits, with a row of the second for each bit of
// the first.
#[derive(Drop)]
pub struct Product<A, B> {
    first: A,
    second: B,
    shape: Shape,
    widest: usize,
}

impl<A: Code, B: Code> Code for Product<A, B> {
    ghost answers = { product_of A.Code.answers B.Code.answers };

    fn bits(&self) -> usize {
        self.shape.rows * self.shape.columns
    }

    fn checks(&self) -> usize {
        self.shape.rows * self.shape.acrosses + self.shape.downs * self.shape.columns
    }

    fn widest(&self) -> usize {
        self.widest
    }

    fn check_degree(&self, check: usize) -> Option<usize> {
        let s = self.shape;
        let start = s.rows * s.acrosses;
        if check < start {
            self.second.check_degree(check % s.acrosses)
        } else if check - start < s.downs * s.columns {
            self.first.check_degree((check - start) / s.columns)
        } else {
            None
        }
    }

    fn check_bit(&self, check: usize, place: usize) -> Option<usize> {
        let s = self.shape;
        let start = s.rows * s.acrosses;
        if check < start {
            let found = self.second.check_bit(check % s.acrosses, place);
            in_row(s.columns, check / s.acrosses, found)
        } else if check - start < s.downs * s.columns {
            let found = self.first.check_bit((check - start) / s.columns, place);
            in_column(0, s.rows, s.columns, (check - start) % s.columns, found)
        } else {
            None
        }
    }

    fn bit_degree(&self, bit: usize) -> Option<usize> {
        let s = self.shape;
        if bit < s.rows * s.columns {
            added_sizes(
                self.second.bit_degree(bit % s.columns),
                self.first.bit_degree(bit / s.columns),
            )
        } else {
            None
        }
    }

    fn bit_check(&self, bit: usize, place: usize) -> Option<usize> {
        let s = self.shape;
        if bit >= s.rows * s.columns {
            return None;
        }
        match self.second.bit_degree(bit % s.columns) {
            Some(size) if place < size => {
                let found = self.second.bit_check(bit % s.columns, place);
                in_row(s.acrosses, bit / s.columns, found)
            }
            Some(size) => {
                let found = self.first.bit_check(bit / s.columns, place - size);
                in_column(
                    s.rows * s.acrosses,
                    s.downs,
                    s.columns,
                    bit % s.columns,
                    found,
                )
            }
            None => None,
        }
    }
}

impl<A: Code + Drop, B: Code + Drop> Product<A, B> {
    // The product of two codes, unless it has too many bits or checks, or too wide a bit.
    pub fn new(first: A, second: B) -> Result<Product<A, B>, Fault>
        ensures { MatchResult result (λ p. MadeProduct (A.Code.answers first) (B.Code.answers second) (product_of A.Code.answers B.Code.answers p)) (λ e. product_fault (A.Code.answers first) (B.Code.answers second) ≡ Some (row_of e)) }
    {
        let rows = first.bits();
        let columns = second.bits();
        let downs = first.checks();
        let acrosses = second.checks();
        let bits = rows.saturating_mul(columns);
        let checks = rows
            .saturating_mul(acrosses)
            .saturating_add(downs.saturating_mul(columns));
        if !sizes_fit(bits, checks) {
            return Err(Fault::CodeSize);
        }
        let widest = first.widest().saturating_add(second.widest());
        if widest > MOST_BIT_DEGREE {
            return Err(Fault::DegreeRange(0));
        }
        Ok(Product {
            first,
            second,
            shape: Shape {
                rows,
                columns,
                downs,
                acrosses,
            },
            widest,
        })
    }
}
