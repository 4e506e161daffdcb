// What the caller's memory holds of a frame: a record for each bit, and a sign for each check.
ghost use Rattle.std.specs.Prelude.{◌≡◌, ◌<◌, ◌≤◌, length, get_or, pos, ◌≤ℤ◌, MatchOption, slice_index_or};
ghost use Rattle.std.specs.Borrow.{sem};
ghost use Rattle.std.specs.Slice.{slice_follows_get};
ghost use Rattle.std.specs.List.{HoldsAt};
ghost use Rattle.engine.specs.Turns.{blank, with_sign, turned_sign, turn_bit};

// A bit's record. Every value may be of the caller's own making.
#[derive(Clone, Copy, Debug, PartialEq, Eq, Default)]
pub struct Bit {
    pub digit: bool,
    pub level: i8,
    pub score: i16,
    pub mark: bool,
}

impl Bit {
    // The digit turned over, and the score negated.
    pub(crate) fn turned(self) -> Bit
        ensures { result ≡ turn_bit self }
    {
        Bit {
            digit: !self.digit,
            score: self.score.saturating_neg(),
            ..self
        }
    }
}

// The score of bit k, or 0 if there is none.
pub fn score_at(records: &[Bit], k: usize) -> i16
    ensures { result ≡ (slice_index_or records.now k blank).score }
{
    records.get(k).map_or(0, |bit| bit.score)
}

// The digit of bit k, or 0 if there is none.
pub(crate) fn digit_at(records: &[Bit], k: usize) -> bool
    ensures { result ≡ (get_or records.now k blank).digit }
{
    records.get(k).is_some_and(|bit| bit.digit)
}

// The item at k, if there is one.
// Kept: a slice's own `get_mut` says nothing of what the slice ends as, so no caller could be proved.
pub(crate) fn item_mut<T>(items: &mut [T], k: usize) -> Option<&mut T>
    ensures* writes_back { sem 𝓛 (slice_follows_get T.row items.entry k result) }
    ensures item { MatchOption result (length items.old ≤ k) (λ x. (k < length items.old) × HoldsAt (λ y. x.now ≡ y) items.old k) }
{
    if k >= items.len() {
        return None;
    }
    Some(&mut items[k])
}

// Whether a check holds an even number of ones.
#[derive(Clone, Copy, Debug, PartialEq, Eq, Default)]
pub enum Sign {
    #[default]
    Met,
    Unmet,
}

impl Sign {
    // The other sign.
    pub(crate) fn turned(self) -> Sign
        ensures { result ≡ turned_sign self }
    {
        match self {
            Sign::Met => Sign::Unmet,
            Sign::Unmet => Sign::Met,
        }
    }

    // An amount, with this sign.
    pub(crate) fn of(self, amount: i16) -> i16
        requires { pos 0 ≤ℤ amount }
        ensures { result ≡ with_sign self amount }
    {
        match self {
            Sign::Met => amount,
            Sign::Unmet => -amount,
        }
    }
}
