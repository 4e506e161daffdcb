// The opening of a frame: digits, scores and signs, and the objective, from the levels.
ghost use Rattle.std.specs.Prelude.{◌≡◌, length, ◌+ℤ◌};
ghost use Rattle.std.specs.Int.{saturate_to_bits};
ghost use Rattle.engine.specs.Opening.{fresh, fresh_places, score_places, sign_check, voice, whole, open_checks, filled, OpensExactly};
ghost use Rattle.engine.specs.Stands.{Unmarked};
ghost use Rattle.engine.specs.Turns.{memory, raise_check};

use crate::bit::digit_at;
use crate::turning::raise_check;
use crate::{Bit, Sign, Weighted};
use codes::Code;

// The record of a level, before a check is heard.
fn fresh_bit(level: i8) -> Bit
    ensures { result ≡ fresh level }
{
    Bit {
        digit: level < 0,
        level,
        score: i16::from(level).abs(),
        ..Bit::default()
    }
}

// Puts the level of each bit down; one that is not there counts as 0.
fn put_levels(records: &mut [Bit], levels: &[i8])
    ensures { records.new ≡ fresh_places levels.now (length records.old) records.old }
{
    for (k, bit) in records.iter_mut().enumerate() {
        *bit = fresh_bit(levels.get(k).copied().unwrap_or_default());
    }
}

// The objective, and by more.
fn rise(objective: i32, by: i16) -> i32
    ensures { result ≡ saturate_to_bits 31 (objective +ℤ by) }
{
    objective.saturating_add(i32::from(by))
}

// The sum of the scores.
fn score_sum(records: &[Bit]) -> i32
    ensures { result ≡ score_places records.now (length records.now) }
{
    let mut sum = 0;
    for bit in records {
        sum = rise(sum, bit.score);
    }
    sum
}

// The sign of check c.
fn sign_of<C: Code>(code: &C, records: &[Bit], c: usize) -> Sign
    ensures { result ≡ sign_check (C.Code.answers code.now) c records.now }
{
    let mut sign = Sign::Met;
    if let Some(n) = code.check_degree(c) {
        // Kept: by number, as a code is asked, with nothing else to walk.
        for p in 0..n {
            if code.check_bit(c, p).is_some_and(|b| digit_at(records, b)) {
                sign = sign.turned();
            }
        }
    }
    sign
}

impl<C: Code> Weighted<'_, C> {
    // Hears check c, which has this sign: adds to its bits' scores, and answers the objective then.
    fn hear(&self, records: &mut [Bit], objective: i32, c: usize, sign: Sign) -> i32
        ensures records { records.new ≡ raise_check (C.Code.answers self.now.code.now) c (length records.old) (voice self.now.weight sign) records.old }
        ensures objective { result ≡ saturate_to_bits 31 (objective +ℤ voice self.now.weight sign) }
    {
        let by = sign.of(i16::from(self.weight));
        raise_check(self.code, records, c, records.len(), by);
        rise(objective, by)
    }

    // Hears every check: puts its sign down, adds to its bits' scores, and answers the objective
    // then.
    fn open_checks(&self, records: &mut [Bit], signs: &mut [Sign], first: i32) -> i32
        ensures { whole records.new signs.new result ≡ open_checks (C.Code.answers self.now.code.now) self.now.weight (length signs.old) (whole records.old signs.old first) }
    {
        let mut objective = first;
        for (c, place) in signs.iter_mut().enumerate() {
            let sign = sign_of(self.code, records, c);
            *place = sign;
            objective = self.hear(records, objective, c, sign);
        }
        objective
    }

    // Sets every record and every sign from the levels, and answers the objective.
    pub fn fill(&self, records: &mut [Bit], signs: &mut [Sign], levels: &[i8]) -> i32
        ensures whole { whole records.new signs.new result ≡ filled (C.Code.answers self.now.code.now) self.now.weight levels.now records.old signs.old }
        ensures exact { OpensExactly (C.Code.answers self.now.code.now) self.now.weight levels.now records.old signs.old (memory records.new signs.new) result }
        ensures unmarked { Unmarked records.new }
    {
        put_levels(records, levels);
        let first = score_sum(records);
        self.open_checks(records, signs, first)
    }
}
