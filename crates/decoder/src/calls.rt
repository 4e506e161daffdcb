// The calls on an open frame.
ghost use Rattle.std.specs.Prelude.{◌≡◌, ◌≢◌, length, Some, None, OnErr, MatchResult};
ghost use Rattle.faults.specs.declared.Fault.TheVariants.{FrameSize};
ghost use Rattle.plain.specs.declared.call.Call.TheVariants.{Round, Decode};
ghost use Rattle.decoder.specs.Answering.{ended_answer, round_answer, decode_answer, toggle_answer, weigh_answer, unmet_answer, read_answer};
ghost use Rattle.decoder.specs.Memory.{core, held, reply, said, sizes_fault, bit_fault, verdict_in, rounded, flips_in, ended_in, step_in, toggled_in, weighed_in, unmet_in, read_fault, read_in};
ghost use Rattle.decoder.specs.Standing.{StepsExactly, TogglesExactly, WeighsExactly, CountsExactly, ReadsExactly};

use crate::frame::{Ended, Frame, Turn, Weights};
use codes::Code;
use engine::{Bit, Sign, Weighted, pack, score_at, unmet};
use faults::Fault;
use noise::Noise;
use plain::Verdict;
use rules::Rule;

// Refuses a size that is not the one needed.
pub(crate) fn check_size(given: usize, needed: usize) -> Result<(), Fault>
    ensures { MatchResult result (λ _. given ≡ needed) (λ e. (given ≢ needed) × (e ≡ FrameSize given)) }
{
    if given == needed {
        Ok(())
    } else {
        Err(Fault::FrameSize(given))
    }
}

impl Frame {
    // Refuses the first size that is not the frame's.
    fn check_sizes<C: Code>(&self, code: &C, records: usize, signs: usize) -> Result<(), Fault>
        ensures { MatchResult result (λ _. sizes_fault self.now (C.Code.answers code.now) records signs ≡ None) (λ e. sizes_fault self.now (C.Code.answers code.now) records signs ≡ Some e) }
    {
        check_size(records, self.bits)?;
        check_size(signs, self.checks)?;
        check_size(code.bits(), self.bits)?;
        check_size(code.checks(), self.checks)
    }

    // Refuses a bit that there is not.
    fn check_bit(&self, bit: usize) -> Result<(), Fault>
        ensures { MatchResult result (λ _. bit_fault self.now bit ≡ None) (λ e. bit_fault self.now bit ≡ Some e) }
    {
        if bit < self.bits {
            Ok(())
        } else {
            Err(Fault::NoSuchBit(bit))
        }
    }

    // The code, with the frame's weight at each check.
    fn weighted<'a, C>(&self, code: &'a C) -> Weighted<'a, C>
        ensures code { result.code.now ≡ code.now }
        ensures weight { result.weight ≡ self.now.weight }
    {
        Weighted {
            code,
            weight: self.weight,
        }
    }

    // Decoded if every check is met, and else spent if the limit is reached.
    fn verdict(&self, signs: &[Sign]) -> Option<Verdict>
        ensures { result ≡ verdict_in self.now signs.now }
    {
        if unmet(signs) == 0 {
            Some(Verdict::Decoded)
        } else if self.rounds >= self.limit {
            Some(Verdict::Spent)
        } else {
            None
        }
    }

    // Kept: code, rule, source and memory apart, here and below: with a struct that refers to them, a call that writes through two of its fields was tried and gets no proof.
    // Makes a round that is to be counted, and answers how many bits it flipped.
    fn make_round<C: Code, R: Rule, N: Noise>(
        &mut self,
        code: &C,
        rule: &mut R,
        noise: &N,
        records: &mut [Bit],
        signs: &mut [Sign],
    ) -> usize
        requires { verdict_in self.old signs.old ≡ None }
        ensures held { held self.new records.new signs.new (R.Rule.state rule.new) ≡ rounded (R.Rule.meaning rule.old) (N.Noise.noise noise.now) (C.Code.answers code.now) (held self.old records.old signs.old (R.Rule.state rule.old)) }
        ensures flips { result ≡ flips_in (R.Rule.meaning rule.old) (N.Noise.noise noise.now) (held self.old records.old signs.old (R.Rule.state rule.old)) }
        ensures meaning { R.Rule.meaning rule.new ≡ R.Rule.meaning rule.old }
    {
        let before = self.objective;
        let weighted = self.weighted(code);
        let swept = weighted.sweep(rule, noise, records, signs, self.rounds, before);
        rule.tell(before, swept.objective);
        self.objective = swept.objective;
        self.rounds += 1;
        swept.flips
    }

    // One round.
    pub fn round<C: Code, R: Rule, N: Noise>(
        &mut self,
        code: &C,
        rule: &mut R,
        noise: &N,
        records: &mut [Bit],
        signs: &mut [Sign],
    ) -> Result<Turn, Fault>
        ensures all { reply (round_answer result) (held self.new records.new signs.new (R.Rule.state rule.new)) ≡ step_in (R.Rule.meaning rule.old) (N.Noise.noise noise.now) (C.Code.answers code.now) Round (held self.old records.old signs.old (R.Rule.state rule.old)) }
        ensures exact { StepsExactly (C.Code.answers code.now) (R.Rule.meaning rule.old) (N.Noise.noise noise.now) Round (held self.old records.old signs.old (R.Rule.state rule.old)) (reply (round_answer result) (held self.new records.new signs.new (R.Rule.state rule.new))) }
        ensures meaning { R.Rule.meaning rule.new ≡ R.Rule.meaning rule.old }
    {
        self.check_sizes(code, records.len(), signs.len())?;
        Ok(match self.verdict(signs) {
            Some(verdict) => Turn::Stopped(verdict),
            None => Turn::Flipped(self.make_round(code, rule, noise, records, signs)),
        })
    }

    // Makes rounds until one would stop, and answers how that is.
    fn run<C: Code, R: Rule, N: Noise>(
        &mut self,
        code: &C,
        rule: &mut R,
        noise: &N,
        records: &mut [Bit],
        signs: &mut [Sign],
    ) -> Ended
        ensures all { reply (ended_answer result) (held self.new records.new signs.new (R.Rule.state rule.new)) ≡ ended_in (R.Rule.meaning rule.old) (N.Noise.noise noise.now) (C.Code.answers code.now) (held self.old records.old signs.old (R.Rule.state rule.old)) }
        ensures meaning { R.Rule.meaning rule.new ≡ R.Rule.meaning rule.old }
    {
        loop {
            if let Some(verdict) = self.verdict(signs) {
                return Ended {
                    verdict,
                    rounds: self.rounds,
                };
            }
            self.make_round(code, rule, noise, records, signs);
        }
    }

    // Rounds until one answers decoded or spent, which it answers with the rounds done since opening.
    pub fn decode<C: Code, R: Rule, N: Noise>(
        &mut self,
        code: &C,
        rule: &mut R,
        noise: &N,
        records: &mut [Bit],
        signs: &mut [Sign],
    ) -> Result<Ended, Fault>
        ensures all { reply (decode_answer result) (held self.new records.new signs.new (R.Rule.state rule.new)) ≡ step_in (R.Rule.meaning rule.old) (N.Noise.noise noise.now) (C.Code.answers code.now) Decode (held self.old records.old signs.old (R.Rule.state rule.old)) }
        ensures exact { StepsExactly (C.Code.answers code.now) (R.Rule.meaning rule.old) (N.Noise.noise noise.now) Decode (held self.old records.old signs.old (R.Rule.state rule.old)) (reply (decode_answer result) (held self.new records.new signs.new (R.Rule.state rule.new))) }
        ensures meaning { R.Rule.meaning rule.new ≡ R.Rule.meaning rule.old }
    {
        self.check_sizes(code, records.len(), signs.len())?;
        Ok(self.run(code, rule, noise, records, signs))
    }

    // Flips a bit, and answers its new score.
    pub fn toggle<C: Code>(
        &mut self,
        code: &C,
        records: &mut [Bit],
        signs: &mut [Sign],
        bit: usize,
    ) -> Result<i16, Fault>
        ensures all { said (toggle_answer result) (core self.new records.new signs.new) ≡ toggled_in (C.Code.answers code.now) bit (core self.old records.old signs.old) }
        ensures exact { TogglesExactly (C.Code.answers code.now) bit (core self.old records.old signs.old) (said (toggle_answer result) (core self.new records.new signs.new)) }
    {
        self.check_sizes(code, records.len(), signs.len())?;
        self.check_bit(bit)?;
        self.objective = self
            .weighted(code)
            .flip(records, signs, self.objective, bit);
        Ok(score_at(records, bit))
    }

    // The score of a bit, the objective, and the gain since the opening.
    pub fn weigh(&self, records: &[Bit], bit: usize) -> Result<Weights, Fault>
        ensures all { weigh_answer result ≡ weighed_in bit self.now records.now }
        ensures exact { WeighsExactly bit self.now records.now (weigh_answer result) }
    {
        check_size(records.len(), self.bits)?;
        self.check_bit(bit)?;
        Ok(Weights {
            score: score_at(records, bit),
            objective: self.objective,
            gain: self.objective.saturating_sub(self.opening),
        })
    }

    // The number of unmet checks.
    pub fn unmet(&self, signs: &[Sign]) -> Result<usize, Fault>
        ensures all { unmet_answer result ≡ unmet_in self.now signs.now }
        ensures exact { CountsExactly self.now signs.now (unmet_answer result) }
    {
        check_size(signs.len(), self.checks)?;
        Ok(unmet(signs))
    }

    // Refuses the first size that a reading does not have.
    pub(crate) fn check_read(&self, records: usize, output: usize) -> Result<(), Fault>
        ensures { MatchResult result (λ _. read_fault self.now records output ≡ None) (λ e. read_fault self.now records output ≡ Some e) }
    {
        check_size(records, self.bits)?;
        check_size(output, self.bits.div_ceil(8))
    }

    // Packs the digits into the output, which has to have a byte for each eight bits or fewer.
    pub fn read(&self, records: &[Bit], output: &mut [u8]) -> Result<(), Fault>
        ensures all { read_answer result output.new ≡ read_in (length output.old) self.now records.now }
        ensures kept { OnErr result (output.new ≡ output.old) }
        ensures exact { ReadsExactly (length output.old) self.now records.now (read_answer result output.new) }
    {
        self.check_read(records.len(), output.len())?;
        pack(records, output);
        Ok(())
    }
}
