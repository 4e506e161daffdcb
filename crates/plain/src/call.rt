// What can be asked of an open frame, and what it answers.
ghost use Rattle.std.specs.Prelude.{Some};
ghost use Rattle.plain.specs.Words.{verdict_text};

use faults::Fault;
use std::fmt;

// A call on an open frame.
#[derive(Clone, Copy, Debug, PartialEq, Eq)]
pub enum Call {
    // One round.
    Round,
    // Rounds until one answers decoded or spent.
    Decode,
    // Flip this bit.
    Toggle(usize),
    // The score of this bit, the objective and the gain.
    Weigh(usize),
    // The number of unmet checks.
    Unmet,
    // The digits, packed into so many bytes.
    Read(usize),
}

// How decoding ends.
#[derive(Clone, Copy, Debug, PartialEq, Eq)]
pub enum Verdict {
    // Every check is met.
    Decoded,
    // Some check is unmet, and the round limit is reached.
    Spent,
}

impl fmt::Display for Verdict {
    ghost output = { λ v. Some (verdict_text v) };

    fn fmt<W: fmt::Write>(&self, f: &mut fmt::Formatter<W>) -> fmt::Result {
        match self {
            Verdict::Decoded => write!(f, "decoded"),
            Verdict::Spent => write!(f, "spent"),
        }
    }
}

// An answer, with packed digits held as a `B`.
#[derive(Debug, PartialEq, Eq, Drop)]
pub enum Answer<B> {
    // A round that changed nothing.
    Stopped(Verdict),
    // A round that flipped so many bits.
    Flipped(usize),
    // A decode, with the rounds done since opening.
    Ended(Verdict, usize),
    // A toggle: the bit's new score.
    Toggled(i16),
    // A weighing: score, objective and gain.
    Weighed(i16, i32, i32),
    // So many checks are unmet.
    Unmet(usize),
    // A reading.
    Packed(B),
    // The call is refused, and changed nothing.
    Refused(Fault),
}
