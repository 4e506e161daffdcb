// Lists of pairs in the two orders: what is wrong with one, and what one that rises holds.
ghost use Rattle.std.specs.Prelude.{◌≡◌, ◌<◌, ◌==◌, ◌++◌, not, map, filter, position, length, IfOk, OnOk};
ghost use Rattle.std.specs.List.{prefix_len, range_with_len};
ghost use Rattle.faults.specs.First.{first};
ghost use Rattle.codes.specs.Held.{lists_in, open_in};
ghost use Rattle.listed.specs.Listing.{wrong_count};
ghost use Rattle.listed.specs.Order.{major_of, bad_at, has_pair, row_of, Sorted};

use crate::pair::Pair;
use codes::{Lists, Side};
use std::alloc::{AllocError, Global};

// Whether the pair at i is out of range, or not above the one before it.
fn bad_at(bits: usize, checks: usize, side: Side, pairs: &[Pair], i: usize) -> bool
    requires { i < length pairs.now }
    ensures { result ≡ bad_at bits checks side pairs.now i }
{
    let p = pairs[i];
    let in_range = p.check < checks && p.bit < bits;
    let rises = i == 0 || pairs[i - 1].numbers(side) < p.numbers(side);
    !(in_range && rises)
}

// The first such pair.
// Kept: by index, since a pair is compared with the one before it, and the first has none.
pub(crate) fn first_bad(bits: usize, checks: usize, side: Side, pairs: &[Pair]) -> Option<usize>
    ensures { result ≡ first (bad_at bits checks side pairs.now) (length pairs.now) }
{
    (0..pairs.len()).find(|i| bad_at(bits, checks, side, pairs, *i))
}

// How many pairs of a number stand first.
fn count_first(side: Side, at: usize, pairs: &[Pair]) -> usize
    ensures { result ≡ prefix_len (λ p. major_of side p == at) pairs.now }
{
    pairs.iter().take_while(|p| p.number(side) == at).count()
}

// Pairs that rise in a side's order, with numbers within the limits.
#[derive(Clone, Copy)]
pub(crate) struct Rising<'a> {
    pub side: Side,
    pub pairs: &'a [Pair],
    ghost rises: { Sorted side pairs.now },
}

impl<'a> Rising<'a> {
    // Whether the pair is in the list.
    pub(crate) fn has_pair(&self, p: Pair) -> bool
        ensures { result ≡ has_pair self.now.pairs.now p }
    {
        let key = p.numbers(self.side);
        self.pairs
            .binary_search_by_key(&key, |q| q.numbers(self.side))
            .is_ok()
    }

    // The first of these pairs that is not in the list.
    pub(crate) fn first_missing(&self, others: &[Pair]) -> Option<usize>
        ensures { result ≡ position (λ p. not (has_pair self.now.pairs.now p)) others.now }
    {
        others.iter().position(|p| !self.has_pair(*p))
    }

    // The pairs of a number.
    fn pairs_of(&self, at: usize) -> &'a [Pair]
        ensures { result.now ≡ filter (λ p. major_of self.now.side p == at) self.now.pairs.now }
    {
        let start = self.pairs.partition_point(|p| p.number(self.side) < at);
        let rest = &self.pairs[start..];
        &rest[..count_first(self.side, at, rest)]
    }

    // Whether a number has too few pairs or too many.
    // Kept: two numbers here and in first_wrong: a range is not `Copy`, and the clause says both ends.
    fn wrong_count(&self, least: usize, most: usize, at: usize) -> bool
        ensures { result ≡ wrong_count least most self.now.side self.now.pairs.now at }
    {
        !(least..=most).contains(&self.pairs_of(at).len())
    }

    // The first such number below `count`.
    pub(crate) fn first_wrong(&self, least: usize, most: usize, count: usize) -> Option<usize>
        ensures { result ≡ first (wrong_count least most self.now.side self.now.pairs.now) count }
    {
        (0..count).find(move |at| self.wrong_count(least, most, *at))
    }

    // Adds the row of a number to the list that is being made: the other numbers of its pairs.
    fn add_row(&self, lists: &mut Lists, at: usize) -> Result<(), AllocError>
        ensures { OnOk result ((lists_in lists.new ≡ lists_in lists.old) × (open_in lists.new ≡ open_in lists.old ++ row_of self.now.side self.now.pairs.now at)) }
    {
        let other = self.side.other();
        let pairs = self.pairs_of(at);
        for p in pairs {
            lists.add(p.number(other) as u16)?;
        }
        Ok(())
    }

    // The rows of the numbers below `count`.
    pub(crate) fn table(&self, heap: Global, count: usize) -> Result<Lists, AllocError>
        ensures { IfOk result (λ l. lists_in l ≡ map (row_of self.now.side self.now.pairs.now) (range_with_len 0 count)) }
    {
        let mut lists = Lists::new(heap)?;
        for at in 0..count {
            self.add_row(&mut lists, at)?;
            lists.close()?;
        }
        Ok(lists)
    }
}
