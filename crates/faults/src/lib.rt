// The one type of refusal: what went wrong, in which layer, and where.
#![tactic(auto)]

ghost use Rattle.std.specs.Prelude.{◌≡◌, Decides, Some};
ghost use Rattle.faults.specs.declared.Fault.TheVariants.{NoMemory};
ghost use Rattle.faults.specs.Rows.{row_of, printed};

use std::alloc::{AllocError, AllocFailed};
use std::error::Error;
use std::fmt;

// The most bytes that an input of text lines has.
pub const MOST_INPUT: usize = 16_384;

// Why a call is refused: a case for each row of the table in docs/refusals.md, and equal only to itself.
#[derive(Clone, Copy, Debug, PartialEq, Eq)]
pub enum Fault {
    // Q1: there are not as many samples as places for levels; this many samples.
    SampleCount(usize),
    // Q2: a quantiser's step or boundaries are out of range.
    QuantiserRange,
    // Q3: the sample at this index is not a number.
    NotANumber(usize),
    // C1: a code's number of bits or checks, or its grid, is out of range.
    CodeSize,
    // C2: the pair at this index is out of range or does not rise, or the cell there is no shift.
    BadEntry(usize),
    // C3: two lists of pairs differ in length, at 0, or the second lacks this pair of the first.
    ListsDiffer(usize),
    // C4: this check or bit has too few or too many, or a product's widest bit has, at 0.
    DegreeRange(usize),
    // R1: a threshold is out of range.
    ThresholdRange,
    // N1: a noise table has this length, which is out of range.
    TableLength(usize),
    // N2: the noise at this index of a table is out of range.
    TableEntry(usize),
    // N3: an amplitude is out of range.
    AmplitudeRange,
    // F1: levels, records, signs, output or code have this size, which the frame does not.
    FrameSize(usize),
    // F2: the level at this index is even or out of range.
    LevelRange(usize),
    // F3: a weight is out of range.
    WeightRange,
    // F4: a round limit is out of range.
    LimitRange,
    // F5: there is no bit of this number.
    NoSuchBit(usize),
    // T1: an input is too long.
    InputLength,
    // T2: the first line names no rule.
    RuleLine,
    // T3: the byte at this offset of the input is no digit.
    BadDigit(usize),
    // T4: the line at this offset has an odd number of digits, or too many.
    DigitCount(usize),
    // M1: no memory was to be had.
    NoMemory,
}

impl Fault {
    // The row of the table, as its letter, its number and the place.
    // Kept: a letter and a number, as they are printed and promised; the kind itself is the case.
    fn row(&self) -> (char, u8, usize)
        ensures { (result.0 ≡ (row_of self.now).layer) × ((result.1 ≡ (row_of self.now).number) × (result.2 ≡ (row_of self.now).place)) }
    {
        match *self {
            Fault::SampleCount(count) => ('Q', 1, count),
            Fault::QuantiserRange => ('Q', 2, 0),
            Fault::NotANumber(at) => ('Q', 3, at),
            Fault::CodeSize => ('C', 1, 0),
            Fault::BadEntry(at) => ('C', 2, at),
            Fault::ListsDiffer(at) => ('C', 3, at),
            Fault::DegreeRange(at) => ('C', 4, at),
            Fault::ThresholdRange => ('R', 1, 0),
            Fault::TableLength(length) => ('N', 1, length),
            Fault::TableEntry(at) => ('N', 2, at),
            Fault::AmplitudeRange => ('N', 3, 0),
            Fault::FrameSize(size) => ('F', 1, size),
            Fault::LevelRange(at) => ('F', 2, at),
            Fault::WeightRange => ('F', 3, 0),
            Fault::LimitRange => ('F', 4, 0),
            Fault::NoSuchBit(bit) => ('F', 5, bit),
            Fault::InputLength => ('T', 1, MOST_INPUT),
            Fault::RuleLine => ('T', 2, 0),
            Fault::BadDigit(offset) => ('T', 3, offset),
            Fault::DigitCount(offset) => ('T', 4, offset),
            Fault::NoMemory => ('M', 1, 0),
        }
    }

    // Which layer refused, as its letter.
    pub fn layer(&self) -> char
        ensures { result ≡ (row_of self.now).layer }
    {
        self.row().0
    }

    // The number of the row in its layer.
    pub fn number(&self) -> u8
        ensures { result ≡ (row_of self.now).number }
    {
        self.row().1
    }

    // Where the fault is: an index, an offset, a size or a number, as the row says.
    pub fn place(&self) -> usize
        ensures { result ≡ (row_of self.now).place }
    {
        self.row().2
    }

    // Whether it is the same fault, which `==` decides: no two have letter, number and place alike.
    pub fn is_same(&self, other: &Fault) -> bool
        ensures exact { Decides result (self.now ≡ other.now) }
        ensures row { Decides result (row_of self.now ≡ row_of other.now) }
    {
        self == other
    }
}

// Letter and number, a space, and the place, as `F2 1`.
impl fmt::Display for Fault {
    ghost output = { λ f. Some (printed (row_of f)) };

    fn fmt<W: fmt::Write>(&self, f: &mut fmt::Formatter<W>) -> fmt::Result {
        let layer = self.layer();
        let number = self.number();
        let place = self.place();
        write!(f, "{layer}{number} {place}")
    }
}

impl Error for Fault {}

impl From<AllocError> for Fault {
    ghost from_gives = { λ _ f. f ≡ NoMemory };

    fn from(_e: AllocError) -> Fault {
        Self::NoMemory
    }
}

impl<T: Drop> From<AllocFailed<T>> for Fault {
    ghost from_gives = { λ _ f. f ≡ NoMemory };

    fn from(_e: AllocFailed<T>) -> Fault {
        Fault::from(AllocError)
    }
}
