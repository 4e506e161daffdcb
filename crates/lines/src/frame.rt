// The levels of a frame line.
ghost use Rattle.std.specs.Prelude.{◌≡◌, ◌+◌, ◌*◌, ◌<◌, length, IfSome, Some, None, MatchResult};
ghost use Rattle.faults.specs.Rows.{row_of, Refused};
ghost use Rattle.lines.specs.Digits.{nibble as nibble_of, worth, first_bad as first_bad_of, count_fits, frame_fault, levels_of};
ghost use Rattle.lines.specs.Parts.{bytes_of};

use crate::digits::{level_of, nibble};
use crate::part::Part;
use faults::Fault;
use std::alloc::Global;

const MOST_DIGITS: usize = 8192;

// What a digit is worth, and 0 for what is none.
fn worth_of(byte: u8) -> u8
    ensures value { result ≡ worth (nibble_of byte) }
    ensures small { result < 16 }
{
    nibble(byte).unwrap_or(0)
}

fn read_levels(heap: Global, digits: &[u8]) -> Result<Vec<i8>, Fault>
    ensures { MatchResult result (λ v. v.items ≡ levels_of digits.now) (λ e. Refused None (row_of e)) }
{
    let mut out = Vec::new(heap);
    let mut rest = digits;
    // Kept: a project rule wants two digits and the rest taken by this pattern, not by `chunks_exact`.
    while let [first, second, tail @ ..] = rest {
        out.push(level_of(worth_of(*first), worth_of(*second)))?;
        rest = tail;
    }
    Ok(out)
}

fn count_fits(count: usize) -> bool
    ensures { result ≡ count_fits count }
{
    count.is_multiple_of(2) && count <= MOST_DIGITS
}

// The first byte that is no digit.
fn first_bad(bytes: &[u8]) -> Option<usize>
    ensures value { result ≡ first_bad_of bytes.now }
    ensures below { IfSome result (λ i. i < length bytes.now) }
{
    bytes.iter().position(|b| nibble(*b).is_none())
}

impl<'a> Part<'a> {
    // T3 for the first byte that is no digit, by its place in the input, and then T4 for an odd number
    // of digits, or more than 8,192, with the place of the part.
    fn check_digits(&self) -> Result<(), Fault>
        ensures { MatchResult result (λ _. frame_fault self.now.place (bytes_of self.now) ≡ None) (λ e. frame_fault self.now.place (bytes_of self.now) ≡ Some (row_of e)) }
    {
        if let Some(i) = first_bad(self.bytes) {
            return Err(Fault::BadDigit(self.place + i));
        }
        if !count_fits(self.bytes.len()) {
            return Err(Fault::DigitCount(self.place));
        }
        Ok(())
    }

    // The levels of these digits, or why they make none: T3 or T4, or want of memory.
    pub fn levels(&self, heap: Global) -> Result<Vec<i8>, Fault>
        ensures { MatchResult result (λ v. (frame_fault self.now.place (bytes_of self.now) ≡ None) × (v.items ≡ levels_of (bytes_of self.now))) (λ e. Refused (frame_fault self.now.place (bytes_of self.now)) (row_of e)) }
    {
        self.check_digits()?;
        read_levels(heap, self.bytes)
    }
}
