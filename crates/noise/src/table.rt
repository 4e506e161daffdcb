// Noise that is read from a table, round and round.
ghost use Rattle.std.specs.Prelude.{◌≡◌, ◌≤◌, false, length, is_some, None, MatchResult};
ghost use Rattle.faults.specs.Rows.{row_of, Refused};
ghost use Rattle.noise.specs.Lawfuls.{tabled_lawful};
ghost use Rattle.noise.specs.Sources.{entry_fits, tabled, first_bad, table_fault};

use crate::limits::{LEAST_NOISE, MOST_ENTRIES, MOST_NOISE, is_covered};
use crate::source::Noise;
use faults::Fault;
use std::alloc::Global;

// The entries, each within the limits.
#[derive(Debug, Drop, PartialEq, Eq)]
pub struct Table {
    entries: Vec<i16>,
    ghost some: { 1 ≤ length entries.items },
    ghost good: { is_some (first_bad entries.items) ≡ false },
}

// Whether an entry is within the limits.
fn entry_fits(entry: i16) -> bool
    ensures { result ≡ entry_fits entry }
{
    (LEAST_NOISE..=MOST_NOISE).contains(&entry)
}

// The index of the first entry out of range.
fn first_bad(entries: &[i16]) -> Option<usize>
    ensures { result ≡ first_bad entries.now }
{
    entries.iter().position(|entry| !entry_fits(*entry))
}

// The entry that a round and a bit lead to.
fn entry_at(entries: &[i16], round: usize, bit: usize) -> i16
    requires { 1 ≤ length entries.now }
    ensures { result ≡ tabled entries.now round bit }
{
    if !is_covered(round, bit) {
        return 0;
    }
    entries[(round + bit) % entries.len()]
}

impl Noise for Table {
    ghost noise = { λ t. tabled t.entries.items };

    ghost lawful = { λ t. tabled_lawful t.entries.items t.good };

    fn at(&self, round: usize, bit: usize) -> i16 {
        entry_at(&self.entries, round, bit)
    }
}

impl Table {
    // A table of these entries: N1 for a length that is not from 1 to 16,384, N2 for the first entry
    // that is not from −255 to 255.
    pub fn new(heap: Global, entries: &[i16]) -> Result<Table, Fault>
        ensures { MatchResult result (λ t. (table_fault entries.now ≡ None) × (t.entries.items ≡ entries.now)) (λ e. Refused (table_fault entries.now) (row_of e)) }
    {
        let length = entries.len();
        if !(1..=MOST_ENTRIES).contains(&length) {
            return Err(Fault::TableLength(length));
        }
        if let Some(i) = first_bad(entries) {
            return Err(Fault::TableEntry(i));
        }
        let entries = Vec::from_slice(heap, entries)?;
        Ok(Table { entries })
    }
}
