// Whole lists of calls on a frame.
ghost use Rattle.std.specs.Prelude.{◌≡◌, map, IfOk, Err, vec_items, MatchResult};
ghost use Rattle.faults.specs.declared.Fault.TheVariants.{NoMemory};
ghost use Rattle.decoder.specs.Memory.{held, reply, step_in, read_in, Performed};
ghost use Rattle.decoder.specs.Replays.{unpacked, given, handed, left, lent, Outcome, ExactOutcome};
ghost use Rattle.decoder.specs.Trials.{Lasting, CodewordSymmetry};

use crate::frame::Frame;
use codes::Code;
use engine::{Bit, Sign, pack};
use faults::Fault;
use noise::Noise;
use plain::{Answer, Call};
use quantiser::{Quantiser, quantise};
use rules::Rule;
use std::alloc::Global;

// What a recorded list of calls is replayed with, and what frames that are treated alike share.
#[derive_where(Clone, Copy)]
pub struct Terms<'a, C> {
    pub code: &'a C,
    pub quantiser: &'a Quantiser,
    pub weight: u8,
    pub limit: usize,
    pub calls: &'a [Call],
}

// What a replay comes to: the frame, and the answer of each call.
#[derive(Debug, PartialEq, Eq, Drop)]
pub struct Replayed {
    pub frame: Frame,
    pub answers: Vec<Answer<Vec<u8>>>,
}

// What one frame is replayed on: its rule, the caller's memory, its source and its samples.
#[derive(Drop)]
pub struct Side<'a, R, N> {
    pub rule: &'a mut R,
    pub levels: &'a mut [i8],
    pub records: &'a mut [Bit],
    pub signs: &'a mut [Sign],
    pub noise: &'a N,
    pub samples: &'a [f32],
}

// Both sides of a trial, each performed or refused.
#[derive(Debug, PartialEq, Eq, Drop)]
pub struct Trial {
    pub first: Result<Replayed, Fault>,
    pub second: Result<Replayed, Fault>,
}

// Reads into so many bytes of its own, which it makes only if they are not refused.
fn answer_read(
    heap: Global,
    frame: &Frame,
    records: &[Bit],
    size: usize,
) -> Result<Answer<Vec<u8>>, Fault>
    ensures { MatchResult result (λ x. unpacked vec_items x ≡ read_in size frame.now records.now) (λ e. e ≡ NoMemory) }
{
    if let Err(fault) = frame.check_read(records.len(), size) {
        return Ok(Answer::Refused(fault));
    }
    let mut bytes = vec![in heap; 0; size]?;
    pack(records, &mut bytes);
    Ok(Answer::Packed(bytes))
}

// Performs one call.
// Kept: all that a call lends, apart: with a struct that refers to it, a call that writes through two of its fields was tried and gets no proof.
fn perform<C: Code, R: Rule, N: Noise>(
    heap: Global,
    frame: &mut Frame,
    code: &C,
    rule: &mut R,
    noise: &N,
    records: &mut [Bit],
    signs: &mut [Sign],
    call: Call,
) -> Result<Answer<Vec<u8>>, Fault>
    ensures all { MatchResult result (λ x. reply (unpacked vec_items x) (held frame.new records.new signs.new (R.Rule.state rule.new)) ≡ step_in (R.Rule.meaning rule.old) (N.Noise.noise noise.now) (C.Code.answers code.now) call (held frame.old records.old signs.old (R.Rule.state rule.old))) (λ e. e ≡ NoMemory) }
    ensures meaning { R.Rule.meaning rule.new ≡ R.Rule.meaning rule.old }
{
    let answer = match call {
        Call::Round => frame
            .round(code, rule, noise, records, signs)
            .map(Answer::from),
        Call::Decode => frame
            .decode(code, rule, noise, records, signs)
            .map(Answer::from),
        Call::Toggle(bit) => frame.toggle(code, records, signs, bit).map(Answer::Toggled),
        Call::Weigh(bit) => frame.weigh(records, bit).map(Answer::from),
        Call::Unmet => frame.unmet(signs).map(Answer::Unmet),
        Call::Read(size) => Ok(answer_read(heap, frame, records, size)?),
    };
    Ok(answer.unwrap_or_else(Answer::Refused))
}

// Performs the calls one after another.
// Kept: a `for`, and not a chain: each call changes what the next one is performed on.
fn perform_all<C: Code, R: Rule, N: Noise>(
    heap: Global,
    frame: &mut Frame,
    code: &C,
    rule: &mut R,
    noise: &N,
    records: &mut [Bit],
    signs: &mut [Sign],
    calls: &[Call],
) -> Result<Vec<Answer<Vec<u8>>>, Fault>
    ensures all { MatchResult result (λ v. Performed (R.Rule.meaning rule.old) (N.Noise.noise noise.now) (C.Code.answers code.now) calls.now (held frame.old records.old signs.old (R.Rule.state rule.old)) (map (unpacked vec_items) v.items) (held frame.new records.new signs.new (R.Rule.state rule.new))) (λ e. e ≡ NoMemory) }
    ensures meaning { R.Rule.meaning rule.new ≡ R.Rule.meaning rule.old }
{
    let mut answers = Vec::new(heap);
    for call in calls {
        answers.push(perform(heap, frame, code, rule, noise, records, signs, *call)?)?;
    }
    Ok(answers)
}

// Quantises the samples of a side, opens a frame with their levels, and performs the calls.
pub fn replay<C: Code, R: Rule, N: Noise>(
    heap: Global,
    terms: &Terms<C>,
    side: Side<R, N>,
) -> Result<Replayed, Fault>
    ensures outcome { Outcome (given C.Code.answers terms.now) (R.Rule.meaning side.entry.rule.now) (N.Noise.noise side.entry.noise.now) side.entry.samples.now (handed R.Rule.state side.entry) (left R.Rule.state side.exit) result }
    ensures exact { ExactOutcome (given C.Code.answers terms.now) (R.Rule.meaning side.entry.rule.now) (N.Noise.noise side.entry.noise.now) side.entry.samples.now (left R.Rule.state side.exit) result }
    ensures meaning { R.Rule.meaning side.exit.0.now ≡ R.Rule.meaning side.entry.rule.now }
{
    let Side {
        rule,
        levels,
        records,
        signs,
        noise,
        samples,
    } = side;
    replay_on(heap, terms, rule, levels, records, signs, noise, samples)
}

// The same, of all that a side holds, apart.
// Kept: moving the Side on whole was tried, and then nothing is known of what it leaves behind its references; and of a list of its own that a caller lends through a Side it knows nothing afterwards.
pub fn replay_on<C: Code, R: Rule, N: Noise>(
    heap: Global,
    terms: &Terms<C>,
    rule: &mut R,
    levels: &mut [i8],
    records: &mut [Bit],
    signs: &mut [Sign],
    noise: &N,
    samples: &[f32],
) -> Result<Replayed, Fault>
    ensures outcome { Outcome (given C.Code.answers terms.now) (R.Rule.meaning rule.old) (N.Noise.noise noise.now) samples.now (lent levels.old records.old signs.old (R.Rule.state rule.old)) (lent levels.new records.new signs.new (R.Rule.state rule.new)) result }
    ensures exact { ExactOutcome (given C.Code.answers terms.now) (R.Rule.meaning rule.old) (N.Noise.noise noise.now) samples.now (lent levels.new records.new signs.new (R.Rule.state rule.new)) result }
    ensures meaning { R.Rule.meaning rule.new ≡ R.Rule.meaning rule.old }
{
    quantise(terms.quantiser, samples, levels)?;
    let mut frame = Frame::open(
        terms.code,
        rule,
        levels,
        terms.weight,
        terms.limit,
        records,
        signs,
    )?;
    let answers = perform_all(
        heap,
        &mut frame,
        terms.code,
        rule,
        noise,
        records,
        signs,
        terms.calls,
    )?;
    Ok(Replayed { frame, answers })
}

// The outcome of a replay, but want of memory by itself.
// Kept: a Result in a Result: want of memory ends a trial, and any other refusal is what one side came to.
fn lasting(res: Result<Replayed, Fault>) -> Result<Result<Replayed, Fault>, Fault>
    ensures { MatchResult result (λ x. (x ≡ res) × Lasting x) (λ e. (e ≡ NoMemory) × (res ≡ Err NoMemory)) }
{
    match res {
        Err(Fault::NoMemory) => Err(Fault::NoMemory),
        other => Ok(other),
    }
}

// Replays the same calls on two frames, and hands back what both came to. Samples and their image
// under a codeword come to the same.
pub fn symmetry_trial<C: Code, R: Rule, Q: Rule, N: Noise, M: Noise>(
    heap: Global,
    terms: &Terms<C>,
    side: Side<R, N>,
    other: Side<Q, M>,
) -> Result<Trial, Fault>
    ensures outcomes { MatchResult result (λ t. Outcome (given C.Code.answers terms.now) (R.Rule.meaning side.entry.rule.now) (N.Noise.noise side.entry.noise.now) side.entry.samples.now (handed R.Rule.state side.entry) (left R.Rule.state side.exit) t.first × Outcome (given C.Code.answers terms.now) (Q.Rule.meaning other.entry.rule.now) (M.Noise.noise other.entry.noise.now) other.entry.samples.now (handed Q.Rule.state other.entry) (left Q.Rule.state other.exit) t.second × Lasting t.first × Lasting t.second) (λ e. e ≡ NoMemory) }
    ensures symmetry { IfOk result (λ t. CodewordSymmetry (given C.Code.answers terms.now) (R.Rule.meaning side.entry.rule.now) (Q.Rule.meaning other.entry.rule.now) (N.Noise.noise side.entry.noise.now) (M.Noise.noise other.entry.noise.now) side.entry.samples.now other.entry.samples.now (handed R.Rule.state side.entry) (handed Q.Rule.state other.entry) (left R.Rule.state side.exit) (left Q.Rule.state other.exit) t.first t.second) }
    ensures meaning { R.Rule.meaning side.exit.0.now ≡ R.Rule.meaning side.entry.rule.now }
    ensures other_meaning { Q.Rule.meaning other.exit.0.now ≡ Q.Rule.meaning other.entry.rule.now }
{
    let Side {
        rule,
        levels,
        records,
        signs,
        noise,
        samples,
    } = side;
    let Side {
        rule: other_rule,
        levels: other_levels,
        records: other_records,
        signs: other_signs,
        noise: other_noise,
        samples: other_samples,
    } = other;
    symmetry_trial_on(
        heap,
        terms,
        rule,
        levels,
        records,
        signs,
        noise,
        samples,
        other_rule,
        other_levels,
        other_records,
        other_signs,
        other_noise,
        other_samples,
    )
}

// The same, of all that both sides hold, apart.
pub fn symmetry_trial_on<C: Code, R: Rule, Q: Rule, N: Noise, M: Noise>(
    heap: Global,
    terms: &Terms<C>,
    rule: &mut R,
    levels: &mut [i8],
    records: &mut [Bit],
    signs: &mut [Sign],
    noise: &N,
    samples: &[f32],
    other_rule: &mut Q,
    other_levels: &mut [i8],
    other_records: &mut [Bit],
    other_signs: &mut [Sign],
    other_noise: &M,
    other_samples: &[f32],
) -> Result<Trial, Fault>
    ensures outcomes { MatchResult result (λ t. Outcome (given C.Code.answers terms.now) (R.Rule.meaning rule.old) (N.Noise.noise noise.now) samples.now (lent levels.old records.old signs.old (R.Rule.state rule.old)) (lent levels.new records.new signs.new (R.Rule.state rule.new)) t.first × Outcome (given C.Code.answers terms.now) (Q.Rule.meaning other_rule.old) (M.Noise.noise other_noise.now) other_samples.now (lent other_levels.old other_records.old other_signs.old (Q.Rule.state other_rule.old)) (lent other_levels.new other_records.new other_signs.new (Q.Rule.state other_rule.new)) t.second × Lasting t.first × Lasting t.second) (λ e. e ≡ NoMemory) }
    ensures symmetry { IfOk result (λ t. CodewordSymmetry (given C.Code.answers terms.now) (R.Rule.meaning rule.old) (Q.Rule.meaning other_rule.old) (N.Noise.noise noise.now) (M.Noise.noise other_noise.now) samples.now other_samples.now (lent levels.old records.old signs.old (R.Rule.state rule.old)) (lent other_levels.old other_records.old other_signs.old (Q.Rule.state other_rule.old)) (lent levels.new records.new signs.new (R.Rule.state rule.new)) (lent other_levels.new other_records.new other_signs.new (Q.Rule.state other_rule.new)) t.first t.second) }
    ensures meaning { R.Rule.meaning rule.new ≡ R.Rule.meaning rule.old }
    ensures other_meaning { Q.Rule.meaning other_rule.new ≡ Q.Rule.meaning other_rule.old }
{
    let first = lasting(replay_on(heap, terms, rule, levels, records, signs, noise, samples))?;
    let second = lasting(replay_on(
        heap,
        terms,
        other_rule,
        other_levels,
        other_records,
        other_signs,
        other_noise,
        other_samples,
    ))?;
    Ok(Trial { first, second })
}
