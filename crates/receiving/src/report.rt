// Frames of the seven-bit code: what the levels of one come to.
ghost use Rattle.std.specs.Prelude.{◌≡◌, Some, None, MatchResult};
ghost use Rattle.rules.specs.Chosen.{meaning_of};
ghost use Rattle.receiving.specs.Frames.{levels_fault, answers_with};
ghost use Rattle.receiving.specs.Reports.{answers_of_report};

use decoder::{Ended, Frame, Weights};
use engine::{Bit, Sign};
use faults::Fault;
use noise::Silent;
use rules::Chosen;
use seven::{BITS, CHECKS, Seven};

// How many bytes the code's bits are packed into.
const BYTES: usize = 1;

// What each frame is opened with.
const WEIGHT: u8 = 1;

const LIMIT: usize = 10;

// How a decode ended, what bit 0 weighs then, and the packed digits.
#[derive(Clone, Copy, Debug)]
pub(crate) struct Report {
    pub(crate) ended: Ended,
    pub(crate) weights: Weights,
    pub(crate) bytes: [u8; BYTES],
}

// Opens a frame with the levels, decodes it, weighs bit 0 and reads the digits.
pub(crate) fn decode_levels(code: &Seven, rule: &mut Chosen, levels: &[i8]) -> Result<Report, Fault>
    ensures outcome { MatchResult result (λ x. (levels_fault levels.now ≡ None) × (answers_of_report x ≡ answers_with (meaning_of rule.old) levels.now)) (λ e. levels_fault levels.now ≡ Some e) }
    ensures meaning { meaning_of rule.new ≡ meaning_of rule.old }
{
    let mut records = [Bit::default(); BITS];
    let mut signs = [Sign::default(); CHECKS];
    let mut frame = Frame::open(code, rule, levels, WEIGHT, LIMIT, &mut records, &mut signs)?;
    let ended = frame.decode(code, rule, &Silent, &mut records, &mut signs)?;
    let weights = frame.weigh(&records, 0)?;
    let mut bytes = [0; BYTES];
    frame.read(&records, &mut bytes)?;
    Ok(Report {
        ended,
        weights,
        bytes,
    })
}
