// The flips of a round: every bit that the rule picks is marked, and then the marked bits flip.
ghost use Rattle.std.specs.Prelude.{◌≡◌, length, ◌+ℤ◌};
ghost use Rattle.std.specs.Int.{saturate_to_bits};
ghost use Rattle.engine.specs.Opening.{whole};
ghost use Rattle.engine.specs.Sweeps.{lowest_of, picks_at, mark_places, flip_marked, flip_places, swept, swept_count, SweepsExactly};

use crate::bit::item_mut;
use crate::{Bit, Sign, Weighted};
use codes::Code;
use noise::Noise;
use rules::Rule;

// What is answered of the marked bits: the objective after their flips, and how many they are.
#[derive(Clone, Copy, Debug, PartialEq, Eq)]
pub struct Swept {
    pub objective: i32,
    pub flips: usize,
}

// What picks the bits of a round.
#[derive_where(Clone, Copy)]
struct Picker<'a, R, N> {
    rule: &'a R,
    noise: &'a N,
    round: usize,
}

impl<R: Rule, N: Noise> Picker<'_, R, N> {
    // The score of bit k, with the noise of the round.
    fn sum(&self, k: usize, bit: Bit) -> i16
        ensures { result ≡ saturate_to_bits 15 (bit.score +ℤ N.Noise.noise self.now.noise.now self.now.round k) }
    {
        bit.score.saturating_add(self.noise.at(self.round, k))
    }

    // Whether the rule picks bit k, which is the lowest or not.
    fn picks(&self, k: usize, bit: Bit, lowest: bool) -> bool
        ensures { result ≡ (R.Rule.meaning self.now.rule.now).says (R.Rule.state self.now.rule.now) (saturate_to_bits 15 (bit.score +ℤ N.Noise.noise self.now.noise.now self.now.round k)) lowest }
    {
        self.rule.flips(self.sum(k, bit), lowest)
    }

    // The first bit with the least sum, or 0 if there is none.
    fn lowest(&self, records: &[Bit]) -> usize
        ensures { result ≡ lowest_of (N.Noise.noise self.now.noise.now self.now.round) records.now }
    {
        records
            .iter()
            .enumerate()
            .min_by_key(|(k, bit)| self.sum(*k, **bit))
            .map_or(0, |(k, _)| k)
    }

    // Marks every bit that the rule picks, clears every other mark, and answers how many are
    // marked.
    fn mark_all(&self, records: &mut [Bit]) -> usize
        ensures records { records.new ≡ mark_places (picks_at ((R.Rule.meaning self.now.rule.now).says (R.Rule.state self.now.rule.now)) (N.Noise.noise self.now.noise.now self.now.round) (lowest_of (N.Noise.noise self.now.noise.now self.now.round) records.old) records.old) (length records.old) records.old }
        ensures count { result ≡ swept_count ((R.Rule.meaning self.now.rule.now).says (R.Rule.state self.now.rule.now)) (N.Noise.noise self.now.noise.now self.now.round) records.old }
    {
        let low = self.lowest(records);
        let mut count = 0;
        for (k, bit) in records.iter_mut().enumerate() {
            bit.mark = self.picks(k, *bit, k == low);
            count += usize::from(bit.mark);
        }
        count
    }
}

impl<C: Code> Weighted<'_, C> {
    // Flips bit k if it is marked, takes its mark off, and answers the objective then.
    fn flip_marked(&self, records: &mut [Bit], signs: &mut [Sign], objective: i32, k: usize) -> i32
        ensures { whole records.new signs.new result ≡ flip_marked (C.Code.answers self.now.code.now) self.now.weight k (whole records.old signs.old objective) }
    {
        match item_mut(records, k) {
            Some(bit) if bit.mark => {
                bit.mark = false;
                self.flip(records, signs, objective, k)
            }
            _ => objective,
        }
    }

    // Flips every marked bit, rising, and answers the objective then.
    // Kept: by index, since each flip changes other records than the one at k.
    fn flip_all(&self, records: &mut [Bit], signs: &mut [Sign], objective: i32) -> i32
        ensures { whole records.new signs.new result ≡ flip_places (C.Code.answers self.now.code.now) self.now.weight (length records.old) (whole records.old signs.old objective) }
    {
        let mut now = objective;
        for k in 0..records.len() {
            now = self.flip_marked(records, signs, now, k);
        }
        now
    }

    // Flips the bits that the rule picks in this round, and answers the objective then and how
    // many.
    pub fn sweep<R: Rule, N: Noise>(
        &self,
        rule: &R,
        noise: &N,
        records: &mut [Bit],
        signs: &mut [Sign],
        round: usize,
        objective: i32,
    ) -> Swept
        ensures whole { whole records.new signs.new result.objective ≡ swept (C.Code.answers self.now.code.now) self.now.weight ((R.Rule.meaning rule.now).says (R.Rule.state rule.now)) (N.Noise.noise noise.now round) (whole records.old signs.old objective) }
        ensures flips { result.flips ≡ swept_count ((R.Rule.meaning rule.now).says (R.Rule.state rule.now)) (N.Noise.noise noise.now round) records.old }
        ensures exact { SweepsExactly (C.Code.answers self.now.code.now) self.now.weight (R.Rule.meaning rule.now) (R.Rule.state rule.now) (N.Noise.noise noise.now) round (whole records.old signs.old objective) (whole records.new signs.new result.objective) result.flips }
    {
        let flips = Picker { rule, noise, round }.mark_all(records);
        let objective = self.flip_all(records, signs, objective);
        Swept { objective, flips }
    }
}
