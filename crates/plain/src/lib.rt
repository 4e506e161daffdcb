// The plain machine: what a frame is, as mathematics, and its laws.
#![tactic(auto)]

ghost use Rattle.plain.specs.Bounds.{BoundsLaw};
ghost use Rattle.plain.specs.Laws.{GainLaw, PicksLaw, VerdictLaw};
ghost use Rattle.plain.specs.Mirror.{MirrorLaw, OpeningsMirror};
ghost use Rattle.plain.specs.Symmetry.{SymmetryLaw};
ghost use Rattle.plain.specs.Turning.{FlipLaw};

mod call;

pub use call::{Answer, Call, Verdict};

// What a flip does to signs, scores and the objective.
pub fn flip_law()
    ensures { FlipLaw }
{}

// A frame and its mirror image at a codeword's ones have the same signs, scores and objective, from
// the opening on.
pub fn mirror_law()
    ensures same { MirrorLaw }
    ensures opening { OpeningsMirror }
{}

// No score is further from 0 than 31 + 16 × 16, no perturbed one by more than 255 further, and no
// objective than 31 × n + 16 × m.
pub fn bounds_law()
    ensures { BoundsLaw }
{}

// After every run, the objective's gain is minus twice the sum of the flips' scores, for a rule of
// any type of states.
pub fn gain_law<S>()
    ensures { GainLaw S }
{}

// After every run, a counted round turns over exactly the bits that the rule says yes to, and
// answers their number, for a rule of any type of states.
pub fn picks_law<S>()
    ensures { PicksLaw S }
{}

// After every run, a decode ends, and answers decoded exactly at a codeword and spent only at the
// limit, for a rule of any type of states.
pub fn verdict_law<S>()
    ensures { VerdictLaw S }
{}

// A frame and its image under a codeword answer every list of calls alike, but that packed digits
// differ exactly at the codeword's ones, for rules of any two types of states.
pub fn symmetry_law<S, T>()
    ensures { SymmetryLaw S T }
{}
