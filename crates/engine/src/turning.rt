// The flip of one bit: its digit and score, its checks' signs, the scores of their bits, and the
// objective.
ghost use Rattle.std.specs.Prelude.{◌≡◌, pos, ◌-ℤ◌, ◌*ℤ◌};
ghost use Rattle.std.specs.Int.{saturate_to_bits};
ghost use Rattle.engine.specs.Stands.{FlipsExactly};
ghost use Rattle.engine.specs.Turns.{alter, raised, raise_check, memory, turn_sign, turn_checks, flipped, fallen};

use crate::bit::item_mut;
use crate::{Bit, Sign, Weighted};
use codes::Code;

// Adds to the score of bit b, if there is one.
fn raise_at(records: &mut [Bit], b: usize, by: i16)
    ensures { records.new ≡ alter (raised by) b records.old }
{
    if let Some(bit) = item_mut(records, b) {
        bit.score = bit.score.saturating_add(by);
    }
}

// Adds to the scores of the bits of check c, but not of k.
pub(crate) fn raise_check<C: Code>(code: &C, records: &mut [Bit], c: usize, k: usize, by: i16)
    ensures { records.new ≡ raise_check (C.Code.answers code.now) c k by records.old }
{
    if let Some(n) = code.check_degree(c) {
        // Kept: by number, as a code is asked, with nothing else to walk.
        for p in 0..n {
            match code.check_bit(c, p) {
                Some(b) if b != k => raise_at(records, b, by),
                _ => {}
            }
        }
    }
}

// The objective, less twice the score.
fn fall(objective: i32, score: i16) -> i32
    ensures { result ≡ saturate_to_bits 31 (objective -ℤ pos 2 *ℤ score) }
{
    objective.saturating_sub(2 * i32::from(score))
}

impl<C: Code> Weighted<'_, C> {
    // Turns the sign of check c over, if there is one, and adds to its bits other than k.
    fn turn_sign(&self, records: &mut [Bit], signs: &mut [Sign], k: usize, c: usize)
        ensures { memory records.new signs.new ≡ turn_sign (C.Code.answers self.now.code.now) k self.now.weight c (memory records.old signs.old) }
    {
        if let Some(place) = item_mut(signs, c) {
            let sign = place.turned();
            *place = sign;
            let by = sign.of(2 * i16::from(self.weight));
            raise_check(self.code, records, c, k, by);
        }
    }

    // The same for all checks of bit k.
    fn turn_checks(&self, records: &mut [Bit], signs: &mut [Sign], k: usize)
        ensures { memory records.new signs.new ≡ turn_checks (C.Code.answers self.now.code.now) k self.now.weight (memory records.old signs.old) }
    {
        if let Some(n) = self.code.bit_degree(k) {
            // Kept: by number, as a code is asked, with nothing else to walk.
            for p in 0..n {
                if let Some(c) = self.code.bit_check(k, p) {
                    self.turn_sign(records, signs, k, c);
                }
            }
        }
    }

    // Flips bit k, if there is one, and answers the objective then.
    pub fn flip(&self, records: &mut [Bit], signs: &mut [Sign], objective: i32, k: usize) -> i32
        ensures memory { memory records.new signs.new ≡ flipped (C.Code.answers self.now.code.now) k self.now.weight (memory records.old signs.old) }
        ensures objective { result ≡ fallen k records.old objective }
        ensures exact { FlipsExactly (C.Code.answers self.now.code.now) k self.now.weight (memory records.old signs.old) objective (memory records.new signs.new) result }
    {
        let Some(bit) = item_mut(records, k) else {
            return objective;
        };
        let score = bit.score;
        *bit = bit.turned();
        self.turn_checks(records, signs, k);
        fall(objective, score)
    }
}
