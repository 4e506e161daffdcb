// The opening of a frame.
ghost use Rattle.std.specs.Prelude.{◌≡◌, length, IfOk, Some, None, MatchResult};
ghost use Rattle.decoder.specs.Memory.{held};
ghost use Rattle.decoder.specs.Openings.{level_fits, first_bad_level, level_fault, weight_fault, limit_fault, open_fault, opened_in, OpenedExactly};

use crate::calls::check_size;
use crate::frame::Frame;
use codes::Code;
use engine::{Bit, Sign, Weighted};
use faults::Fault;
use quantiser::most_level;
use rules::Rule;

// The largest weight.
const MOST_WEIGHT: u8 = 16;

// The most rounds that a limit allows.
const MOST_LIMIT: usize = 1000;

// Whether a level is odd, and from -31 to 31.
fn level_fits(level: i8) -> bool
    ensures { result ≡ level_fits level }
{
    let size = level.unsigned_abs();
    size <= most_level().unsigned_abs() && size % 2 == 1
}

// The least index of a level that does not fit.
fn first_bad_level(levels: &[i8]) -> Option<usize>
    ensures { result ≡ first_bad_level levels.now }
{
    levels.iter().position(|level| !level_fits(*level))
}

// Refuses the first level that does not fit.
fn check_levels(levels: &[i8]) -> Result<(), Fault>
    ensures { MatchResult result (λ _. first_bad_level levels.now ≡ None) (λ e. level_fault (first_bad_level levels.now) None ≡ Some e) }
{
    match first_bad_level(levels) {
        Some(at) => Err(Fault::LevelRange(at)),
        None => Ok(()),
    }
}

// Refuses a weight that is out of range.
fn check_weight(weight: u8) -> Result<(), Fault>
    ensures { MatchResult result (λ _. weight_fault weight None ≡ None) (λ e. weight_fault weight None ≡ Some e) }
{
    if (1..=MOST_WEIGHT).contains(&weight) {
        Ok(())
    } else {
        Err(Fault::WeightRange)
    }
}

// Refuses a limit that is too large.
fn check_limit(limit: usize) -> Result<(), Fault>
    ensures { MatchResult result (λ _. limit_fault limit ≡ None) (λ e. limit_fault limit ≡ Some e) }
{
    if limit <= MOST_LIMIT {
        Ok(())
    } else {
        Err(Fault::LimitRange)
    }
}

// Refuses an opening for its first fault.
fn check_open<C: Code>(
    code: &C,
    levels: &[i8],
    weight: u8,
    limit: usize,
    records: usize,
    signs: usize,
) -> Result<(), Fault>
    ensures { MatchResult result (λ _. open_fault (C.Code.answers code.now) levels.now weight limit records signs ≡ None) (λ e. open_fault (C.Code.answers code.now) levels.now weight limit records signs ≡ Some e) }
{
    check_size(levels.len(), code.bits())?;
    check_size(records, code.bits())?;
    check_size(signs, code.checks())?;
    check_levels(levels)?;
    check_weight(weight)?;
    check_limit(limit)
}

impl Frame {
    // Opens a frame: sets every record and sign from the levels, and the rule's first state.
    pub fn open<C: Code, R: Rule>(
        code: &C,
        rule: &mut R,
        levels: &[i8],
        weight: u8,
        limit: usize,
        records: &mut [Bit],
        signs: &mut [Sign],
    ) -> Result<Frame, Fault>
        ensures all { MatchResult result (λ f. (open_fault (C.Code.answers code.now) levels.now weight limit (length records.old) (length signs.old) ≡ None) × (held f records.new signs.new (R.Rule.state rule.new) ≡ opened_in (R.Rule.meaning rule.old) (C.Code.answers code.now) levels.now weight limit records.old signs.old)) (λ e. (open_fault (C.Code.answers code.now) levels.now weight limit (length records.old) (length signs.old) ≡ Some e) × (records.new ≡ records.old) × (signs.new ≡ signs.old) × (R.Rule.state rule.new ≡ R.Rule.state rule.old)) }
        ensures exact { IfOk result (λ f. OpenedExactly (C.Code.answers code.now) (R.Rule.meaning rule.old) levels.now weight limit (held f records.new signs.new (R.Rule.state rule.new))) }
        ensures meaning { R.Rule.meaning rule.new ≡ R.Rule.meaning rule.old }
    {
        check_open(code, levels, weight, limit, records.len(), signs.len())?;
        let objective = Weighted { code, weight }.fill(records, signs, levels);
        rule.restart();
        Ok(Frame {
            bits: code.bits(),
            checks: code.checks(),
            weight,
            limit,
            rounds: 0,
            objective,
            opening: objective,
        })
    }
}
