// Code over any rule and any source, proved once.
ghost use Rattle.std.specs.Prelude.{◌≡◌, ◌+ℤ◌};
ghost use Rattle.std.specs.Int.{saturate_to_bits};

use noise::Noise;
use rules::Rule;

// Whether a rule flips a bit with this score in a round, with the noise of a source.
pub fn asked<R: Rule, N: Noise>(
    rule: &R,
    noise: &N,
    round: usize,
    bit: usize,
    score: i16,
    lowest: bool,
) -> bool
    ensures { result ≡ (R.Rule.meaning rule.now).says (R.Rule.state rule.now) (saturate_to_bits 15 (score +ℤ N.Noise.noise noise.now round bit)) lowest }
{
    rule.flips(score.saturating_add(noise.at(round, bit)), lowest)
}
