// The first line: a rule.
ghost use Rattle.std.specs.Prelude.{◌≡◌, pos, ◌<ℤ◌, IfSome, Some, None, MatchOption, MatchResult};
ghost use Rattle.faults.specs.Rows.{row_of, T};
ghost use Rattle.rules.specs.Chosen.{meaning_of, state_of};
ghost use Rattle.rules.specs.declared.mode.Mode.TheVariants.{Many};
ghost use Rattle.lines.specs.Parts.{bytes_of};
ghost use Rattle.lines.specs.Rule.{after as after_of, threshold as threshold_of, rule_line};

use crate::digits::{level_of, nibble};
use crate::part::Part;
use faults::Fault;
use rules::{Chosen, Multi, Single, Switch};

// What follows a word at the start of a line.
#[tactic(auto, using(crate::proofs::Words::stripped))]
fn after<'a>(line: &'a [u8], word: &[u8]) -> Option<&'a [u8]>
    ensures { MatchOption result (after_of word.now line.now ≡ None) (λ x. after_of word.now line.now ≡ Some x.now) }
{
    line.strip_prefix(word)
}

// Two digits, from 80 to ff.
fn threshold(digits: &[u8]) -> Option<i8>
    ensures negative { IfSome result (λ t. t <ℤ pos 0) }
    ensures value { result ≡ threshold_of (Some digits.now) }
{
    let [high, low] = digits else {
        return None;
    };
    let level = level_of(nibble(*high)?, nibble(*low)?);
    (level < 0).then_some(level)
}

// The threshold after a word.
fn threshold_after(line: &[u8], word: &[u8]) -> Option<i8>
    ensures negative { IfSome result (λ t. t <ℤ pos 0) }
    ensures value { result ≡ threshold_of (after_of word.now line.now) }
{
    after(line, word).and_then(threshold)
}

impl<'a> Part<'a> {
    // The rule that this line means, in its first state, or T2.
    pub fn rule(&self) -> Result<Chosen, Fault>
        ensures { MatchResult result (λ c. (rule_line (bytes_of self.now) ≡ Some (meaning_of c)) × (state_of c ≡ Many)) (λ e. (rule_line (bytes_of self.now) ≡ None) × (row_of e ≡ T 2 0)) }
    {
        let line = self.bytes;
        if line == b"single".as_slice() {
            Ok(Chosen::Single(Single))
        } else if let Some(t) = threshold_after(line, b"multi ") {
            Multi::new(i32::from(t)).map(Chosen::Multi)
        } else if let Some(t) = threshold_after(line, b"switch ") {
            Switch::new(i32::from(t)).map(Chosen::Switch)
        } else {
            Err(Fault::RuleLine)
        }
    }
}
