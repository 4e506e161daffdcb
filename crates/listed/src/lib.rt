// A code that is given as its pairs, listed twice.
#![tactic(auto)]

ghost use Rattle.std.specs.Prelude.{◌≡◌, None, Some, MatchResult};
ghost use Rattle.faults.specs.Rows.{row_of, Refused};
ghost use Rattle.codes.specs.Degrees.{degree_fault};
ghost use Rattle.codes.specs.declared.side.Side.TheVariants.{ByCheck, ByBit};
ghost use Rattle.listed.specs.Listing.{listed_pairs, mismatch_fault, list_fault, MadeListed};
ghost use Rattle.listed.specs.Means.{listed_of};

use order::{Rising, first_bad};
pub use pair::Pair;

mod order;
mod pair;

use codes::{AsMatrix, MOST_BIT_DEGREE, MOST_CHECK_DEGREE, Matrix, Side, sizes_fit};
use faults::Fault;
use std::alloc::Global;

// Refuses with the fault at the place that was found, if one was.
fn none_found<F: FnOnce(usize) -> Fault>(found: Option<usize>, fault: F) -> Result<(), Fault>
    requires { F.IsAlwaysCallable fault }
    ensures { MatchResult result (λ _. found ≡ None) (λ e. (i : _) × (found ≡ Some i) × F.post fault i e) }
{
    match found {
        Some(i) => Err(fault(i)),
        None => Ok(()),
    }
}

// Refuses two lists that do not match.
fn check_lists(bits: usize, checks: usize, by_check: &[Pair], by_bit: &[Pair]) -> Result<(), Fault>
    ensures { MatchResult result (λ _. mismatch_fault bits checks by_check.now by_bit.now ≡ None) (λ e. mismatch_fault bits checks by_check.now by_bit.now ≡ Some (row_of e)) }
{
    if !sizes_fit(bits, checks) {
        return Err(Fault::CodeSize);
    }
    none_found(
        first_bad(bits, checks, Side::ByCheck, by_check),
        Fault::BadEntry,
    )?;
    none_found(
        first_bad(bits, checks, Side::ByBit, by_bit),
        Fault::BadEntry,
    )?;
    if by_check.len() != by_bit.len() {
        return Err(Fault::ListsDiffer(0));
    }
    let rising = Rising {
        side: Side::ByBit,
        pairs: by_bit,
    };
    none_found(rising.first_missing(by_check), Fault::ListsDiffer)
}

// Two lists that match, of a code of so many bits and checks.
#[derive(Clone, Copy)]
struct Matched<'a> {
    bits: usize,
    checks: usize,
    by_check: &'a [Pair],
    by_bit: &'a [Pair],
    ghost matched: { mismatch_fault bits checks by_check.now by_bit.now ≡ None },
}

impl<'a> Matched<'a> {
    // The list by check then bit.
    // Kept: beside columns: one function of the side would match on it to the same two.
    fn rows(&self) -> Rising<'a>
        ensures { (result.side ≡ ByCheck) × (result.pairs.now ≡ self.now.by_check.now) }
    {
        Rising {
            side: Side::ByCheck,
            pairs: self.by_check,
        }
    }

    // The list by bit then check.
    fn columns(&self) -> Rising<'a>
        ensures { (result.side ≡ ByBit) × (result.pairs.now ≡ self.now.by_bit.now) }
    {
        Rising {
            side: Side::ByBit,
            pairs: self.by_bit,
        }
    }

    // Refuses a check or a bit with too few pairs or too many.
    fn check_degrees(&self) -> Result<(), Fault>
        ensures { MatchResult result (λ _. degree_fault (listed_pairs self.now.bits self.now.checks self.now.by_check.now) ≡ None) (λ e. degree_fault (listed_pairs self.now.bits self.now.checks self.now.by_check.now) ≡ Some (row_of e)) }
    {
        let wrong_check = self.rows().first_wrong(1, MOST_CHECK_DEGREE, self.checks);
        none_found(wrong_check, Fault::DegreeRange)?;
        let wrong_bit = self.columns().first_wrong(0, MOST_BIT_DEGREE, self.bits);
        none_found(wrong_bit, Fault::DegreeRange)
    }
}

// A code made of listed pairs.
#[derive(Drop)]
pub struct Listed {
    matrix: Matrix,
}

impl AsMatrix for Listed {
    ghost matrix = { λ l. l.matrix };

    fn as_matrix(&self) -> &Matrix {
        &self.matrix
    }
}

impl Listed {
    // The code of so many bits and checks that holds these pairs, which are listed by check then bit
    // and again by bit then check.
    pub fn new(
        heap: Global,
        bits: usize,
        checks: usize,
        by_check: &[Pair],
        by_bit: &[Pair],
    ) -> Result<Listed, Fault>
        ensures { MatchResult result (λ l. MadeListed bits checks by_check.now by_bit.now (listed_of l)) (λ e. Refused (list_fault bits checks by_check.now by_bit.now) (row_of e)) }
    {
        check_lists(bits, checks, by_check, by_bit)?;
        let lists = Matched {
            bits,
            checks,
            by_check,
            by_bit,
        };
        lists.check_degrees()?;
        let rows = lists.rows().table(heap, checks)?;
        let columns = lists.columns().table(heap, bits)?;
        Ok(Listed {
            matrix: Matrix::new(rows, columns),
        })
    }
}
