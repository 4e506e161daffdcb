// A parity-check matrix held both ways: the bits of each check, and the checks of each bit.
ghost use Rattle.std.specs.Prelude.{◌≡◌};
ghost use Rattle.codes.specs.Lists.{size_in, place_in, longest, held_by};
ghost use Rattle.codes.specs.Means.{matrix_by};

use crate::as_lists::AsLists;
use crate::code::Code;
use crate::lists::Lists;

// The lists of both sides, and the most items that one column has.
#[derive(Drop)]
pub struct Matrix<L = Lists> {
    pub rows: L,
    pub columns: L,
    pub widest: usize,
}

// How many items a list has.
fn size<L: AsLists>(lists: &L, at: usize) -> Option<usize>
    ensures { result ≡ size_in (L.AsLists.lists lists.now) at }
{
    lists.list(at).map(|list| list.len())
}

// The item at a place of a list.
fn item<L: AsLists>(lists: &L, at: usize, place: usize) -> Option<usize>
    ensures { result ≡ place_in (L.AsLists.lists lists.now) at place }
{
    lists.list(at)?.get(place).map(|item| usize::from(*item))
}

// The most items that one list has.
fn longest<L: AsLists>(lists: &L) -> usize
    ensures { result ≡ longest (L.AsLists.lists lists.now) }
{
    let mut most = 0;
    for at in 0..lists.count() {
        most = most.max(size(lists, at).unwrap_or(0));
    }
    most
}

impl<L: AsLists> Matrix<L> {
    // The matrix of these lists; nothing is asked of them.
    pub fn new(rows: L, columns: L) -> Matrix<L>
        ensures { matrix_by L.AsLists.lists result ≡ held_by (L.AsLists.lists rows) (L.AsLists.lists columns) }
    {
        let widest = longest(&columns);
        Matrix {
            rows,
            columns,
            widest,
        }
    }
}

// A code that holds a matrix, however it holds its lists, and answers as the matrix does.
pub trait LendsMatrix {
    ghost use Rattle.codes.specs.declared.matrix.Matrix.{Matrix};

    type Lists: AsLists;

    ghost lent: { Self → Matrix Self.Lists };

    fn lend(&self) -> &Matrix<Self::Lists>
        ensures { result.now ≡ lent self.now };
}

impl LendsMatrix for Matrix<Vec<Vec<u16>>> {
    type Lists = Vec<Vec<u16>>;

    ghost lent = { λ m. m };

    fn lend(&self) -> &Matrix<Vec<Vec<u16>>> {
        self
    }
}

// A code that holds a matrix of lists end to end, and answers as the matrix does.
pub trait AsMatrix {
    ghost use Rattle.codes.specs.declared.matrix.Matrix.{Matrix};
    ghost use Rattle.codes.specs.declared.lists.Lists.{Lists};

    ghost matrix: { Self → Matrix Lists };

    fn as_matrix(&self) -> &Matrix
        ensures { result.now ≡ matrix self.now };
}

impl AsMatrix for Matrix {
    ghost matrix = { λ m. m };

    fn as_matrix(&self) -> &Matrix {
        self
    }
}

impl<T: AsMatrix> LendsMatrix for T {
    type Lists = Lists;

    ghost lent = { T.AsMatrix.matrix };

    fn lend(&self) -> &Matrix {
        self.as_matrix()
    }
}

impl<T: LendsMatrix> Code for T {
    ghost answers = { λ t. matrix_by T.Lists.AsLists.lists (T.LendsMatrix.lent t) };

    fn bits(&self) -> usize {
        self.lend().columns.count()
    }

    fn checks(&self) -> usize {
        self.lend().rows.count()
    }

    fn widest(&self) -> usize {
        self.lend().widest
    }

    fn check_degree(&self, check: usize) -> Option<usize> {
        size(&self.lend().rows, check)
    }

    fn check_bit(&self, check: usize, place: usize) -> Option<usize> {
        item(&self.lend().rows, check, place)
    }

    fn bit_degree(&self, bit: usize) -> Option<usize> {
        size(&self.lend().columns, bit)
    }

    fn bit_check(&self, bit: usize, place: usize) -> Option<usize> {
        item(&self.lend().columns, bit, place)
    }
}

#[cfg(test)]
mod tests {
    use super::*;
    use std::alloc::{AllocError, Global};
    use std::test::Fail;

    // Checks {0,1} and {1,2}.
    const ROWS: [&[u16]; 2] = [&[0, 1], &[1, 2]];

    const COLUMNS: [&[u16]; 3] = [&[0], &[0, 1], &[1]];

    fn vectors(heap: Global, lists: &[&[u16]]) -> Result<Vec<Vec<u16>>, AllocError> {
        let mut made = Vec::new(heap);
        for list in lists {
            made.push(Vec::from_slice(heap, *list)?)?;
        }
        Ok(made)
    }

    fn joined(heap: Global, lists: &[&[u16]]) -> Result<Lists, AllocError> {
        let mut made = Lists::new(heap)?;
        for list in lists {
            for item in *list {
                made.add(*item)?;
            }
            made.close()?;
        }
        Ok(made)
    }

    // A code that holds a matrix of vectors.
    #[derive(Drop)]
    struct Held {
        matrix: Matrix<Vec<Vec<u16>>>,
    }

    impl LendsMatrix for Held {
        type Lists = Vec<Vec<u16>>;

        ghost lent = { λ h. h.matrix };

        fn lend(&self) -> &Matrix<Vec<Vec<u16>>> {
            &self.matrix
        }
    }

    fn asked<C: Code>(code: &C) -> [Option<usize>; 8] {
        [
            Some(code.bits()),
            Some(code.checks()),
            Some(code.widest()),
            code.check_degree(1),
            code.check_bit(1, 1),
            code.bit_degree(1),
            code.bit_check(2, 0),
            code.bit_check(2, 1).or(code.bit_degree(3)),
        ]
    }

    #[test]
    fn matrices_answer(rt: HostRuntime) -> Result<(), Fail> {
        let heap = rt.alloc();
        let answers = [
            Some(3),
            Some(2),
            Some(2),
            Some(2),
            Some(2),
            Some(2),
            Some(1),
            None,
        ];
        let matrix = Matrix::new(vectors(heap, &ROWS)?, vectors(heap, &COLUMNS)?);
        assert_eq!(rt; asked(&matrix), answers);
        assert_eq!(rt; asked(&Held { matrix }), answers);
        let matrix = Matrix::new(joined(heap, &ROWS)?, joined(heap, &COLUMNS)?);
        assert_eq!(rt; asked(&matrix), answers);
        Ok(())
    }
}
