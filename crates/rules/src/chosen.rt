// A rule that is chosen when the program runs.
ghost use Rattle.rules.specs.Chosen.{meaning_of, state_of};
ghost use Rattle.rules.specs.declared.mode.Mode.{Mode as ModeState};

use crate::kinds::{Multi, Single, Switch};
use crate::rule::Rule;

#[derive(Clone, Copy, Debug, PartialEq, Eq)]
pub enum Chosen {
    Single(Single),
    Multi(Multi),
    Switch(Switch),
}

// Kept: three matches that forward to the held rule: a `dyn Rule` from one method was tried; it hides state and meaning, and `rt ci` refuses it.
impl Rule for Chosen {
    ghost State = { ModeState };

    ghost state = { state_of };

    ghost meaning = { meaning_of };

    fn restart(&mut self) {
        match self {
            Chosen::Single(r) => r.restart(),
            Chosen::Multi(r) => r.restart(),
            Chosen::Switch(r) => r.restart(),
        }
    }

    fn flips(&self, score: i16, lowest: bool) -> bool {
        match self {
            Chosen::Single(r) => r.flips(score, lowest),
            Chosen::Multi(r) => r.flips(score, lowest),
            Chosen::Switch(r) => r.flips(score, lowest),
        }
    }

    fn tell(&mut self, before: i32, after: i32) {
        match self {
            Chosen::Single(r) => r.tell(before, after),
            Chosen::Multi(r) => r.tell(before, after),
            Chosen::Switch(r) => r.tell(before, after),
        }
    }
}
