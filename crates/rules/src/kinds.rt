// The single, multi and switch rules.
ghost use Rattle.std.specs.Prelude.{◌≡◌, Some, None, MatchResult};
ghost use Rattle.faults.specs.Rows.{row_of};
ghost use Rattle.rules.specs.Kinds.{threshold_fault, single, multi, switch};
ghost use Rattle.rules.specs.declared.mode.Mode.{Mode as ModeState};
ghost use Rattle.rules.specs.declared.mode.Mode.TheVariants.{Many};

use crate::mode::Mode;
use crate::rule::Rule;
use faults::Fault;

// The least threshold of a rule.
pub const LEAST_THRESHOLD: i32 = -128;
// The largest.
pub const MOST_THRESHOLD: i32 = -1;

// Flips the lowest alone.
#[derive(Clone, Copy, Debug, Default, PartialEq, Eq)]
pub struct Single;

impl Rule for Single {
    ghost State = { Unit {0} };

    ghost state = { λ _. tt };

    ghost meaning = { λ _. single };

    fn restart(&mut self) {}

    fn flips(&self, _score: i16, lowest: bool) -> bool {
        lowest
    }

    fn tell(&mut self, _before: i32, _after: i32) {}
}

// Flips every bit with a score below the threshold.
#[derive(Clone, Copy, Debug, PartialEq, Eq)]
pub struct Multi {
    threshold: i8,
}

impl Rule for Multi {
    ghost State = { Unit {0} };

    ghost state = { λ _. tt };

    ghost meaning = { λ m. multi m.threshold };

    fn restart(&mut self) {}

    fn flips(&self, score: i16, _lowest: bool) -> bool {
        score < i16::from(self.threshold)
    }

    fn tell(&mut self, _before: i32, _after: i32) {}
}

impl Multi {
    // The multi rule, or R1 for a threshold that is not from −128 to −1.
    pub fn new(threshold: i32) -> Result<Multi, Fault>
        ensures { MatchResult result (λ m. (threshold_fault threshold ≡ None) × (m.threshold ≡ threshold)) (λ e. threshold_fault threshold ≡ Some (row_of e)) }
    {
        if !(LEAST_THRESHOLD..=MOST_THRESHOLD).contains(&threshold) {
            return Err(Fault::ThresholdRange);
        }
        let threshold = threshold as i8;
        Ok(Multi { threshold })
    }
}

// Flips as multi does until a round lowers the objective, and from then on as single does.
#[derive(Clone, Copy, Debug, PartialEq, Eq)]
pub struct Switch {
    multi: Multi,
    mode: Mode,
}

impl Rule for Switch {
    ghost State = { ModeState };

    ghost state = { λ s. s.mode };

    ghost meaning = { λ s. switch s.multi.threshold };

    fn restart(&mut self) {
        self.mode = Mode::Many;
    }

    fn flips(&self, score: i16, lowest: bool) -> bool {
        match self.mode {
            Mode::Many => self.multi.flips(score, lowest),
            Mode::One => Single.flips(score, lowest),
        }
    }

    fn tell(&mut self, before: i32, after: i32) {
        match (self.mode, before, after) {
            (Mode::Many, b, a) if a < b => self.mode = Mode::One,
            _ => {}
        }
    }
}

impl Switch {
    // The switch rule in its first state, or R1 for a threshold that is not from −128 to −1.
    pub fn new(threshold: i32) -> Result<Switch, Fault>
        ensures { MatchResult result (λ s. (threshold_fault threshold ≡ None) × (s.multi.threshold ≡ threshold) × (s.mode ≡ Many)) (λ e. threshold_fault threshold ≡ Some (row_of e)) }
    {
        let multi = Multi::new(threshold)?;
        let mode = Mode::Many;
        Ok(Switch { multi, mode })
    }
}
