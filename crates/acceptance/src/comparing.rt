// In what answers and readings differ.
ghost use Rattle.std.specs.Prelude.{◌≡◌, map, cond, count_by, fold, None, Some, vec_items, Decides};
ghost use Rattle.std.specs.List.{find, range_with_len};
ghost use Rattle.decoder.specs.Replays.{unpacked};
ghost use Rattle.acceptance.specs.Comparing.{bit_of, differs_at, DifferExactly, Equals, Turned, Turns};

use plain::Answer;

// Whether two answers are equal, packed digits too.
// Kept: it is `==`, and stands here for its clause, which says what that equality means.
pub(crate) fn same_answer(a: &Answer<Vec<u8>>, b: &Answer<Vec<u8>>) -> bool
    ensures { Decides result (unpacked vec_items a.now ≡ unpacked vec_items b.now) }
{
    *a == *b
}

// How many answers are equal, place by place.
// Kept: counted in a loop: a `filter` wants the function that a test computes, and its clause says what it decides.
pub(crate) fn equal_answers(first: &[Answer<Vec<u8>>], second: &[Answer<Vec<u8>>]) -> usize
    ensures { Equals (map (unpacked vec_items) first.now) (map (unpacked vec_items) second.now) result }
{
    let mut count = 0;
    for (a, b) in first.iter().zip(second) {
        if same_answer(a, b) {
            count += 1;
        }
    }
    count
}

// Bit k of a reading, the first at the top of the first byte; 0 beyond its end.
fn bit_of(bytes: &[u8], k: usize) -> bool
    ensures { result ≡ bit_of bytes.now k }
{
    bytes
        .get(k / 8)
        .is_some_and(|byte| (byte >> (7 - k % 8)) % 2 == 1)
}

// A reading of the frame, and one of its image.
#[derive(Clone, Copy, Debug)]
pub(crate) struct Readings<'a> {
    pub(crate) first: &'a [u8],
    pub(crate) second: &'a [u8],
}

impl Readings<'_> {
    fn differ_at(&self, k: usize) -> bool
        ensures { result ≡ differs_at self.now.first.now self.now.second.now k }
    {
        bit_of(self.first, k) != bit_of(self.second, k)
    }

    // In how many of so many bits they differ.
    pub(crate) fn differing(&self, bits: usize) -> usize
        ensures { result ≡ count_by (differs_at self.now.first.now self.now.second.now) (range_with_len 0 bits) }
    {
        (0..bits).filter(|k| self.differ_at(*k)).count()
    }

    // The first of so many bits in which they differ.
    pub(crate) fn first_differing(&self, bits: usize) -> Option<usize>
        ensures { result ≡ find (differs_at self.now.first.now self.now.second.now) (range_with_len 0 bits) }
    {
        (0..bits).find(|k| self.differ_at(*k))
    }

    // The last of them.
    pub(crate) fn last_differing(&self, bits: usize) -> Option<usize>
        ensures { result ≡ fold (λ last k. cond (differs_at self.now.first.now self.now.second.now k) (Some k) last) None (range_with_len 0 bits) }
    {
        (0..bits).fold(
            None,
            |last, k| if self.differ_at(k) { Some(k) } else { last },
        )
    }

    // Whether they differ exactly at the ones of a word.
    pub(crate) fn differ_exactly(&self, word: &[bool]) -> bool
        ensures { Decides result (DifferExactly word.now self.now.first.now self.now.second.now) }
    {
        word.iter()
            .enumerate()
            .all(|(k, one)| self.differ_at(k) == *one)
    }
}

// Whether two answers are readings that do.
fn turned(a: &Answer<Vec<u8>>, b: &Answer<Vec<u8>>, word: &[bool]) -> bool
    ensures { Decides result (Turned word.now (unpacked vec_items a.now) (unpacked vec_items b.now)) }
{
    match (a, b) {
        (Answer::Packed(xs), Answer::Packed(ys)) => {
            let readings = Readings {
                first: xs,
                second: ys,
            };
            readings.differ_exactly(word)
        }
        _ => false,
    }
}

// How many of the answers are, place by place.
// Kept: beside equal_answers, and counted in a loop, since a test is known by what it decides.
pub(crate) fn turned_answers(
    first: &[Answer<Vec<u8>>],
    second: &[Answer<Vec<u8>>],
    word: &[bool],
) -> usize
    ensures { Turns word.now (map (unpacked vec_items) first.now) (map (unpacked vec_items) second.now) result }
{
    let mut count = 0;
    for (a, b) in first.iter().zip(second) {
        if turned(a, b, word) {
            count += 1;
        }
    }
    count
}
