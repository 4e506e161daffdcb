// The trials: frames and their images, with rules and sources that are alike.
ghost use Rattle.std.specs.Prelude.{◌≡◌, IfOk, MatchResult};
ghost use Rattle.faults.specs.declared.Fault.TheVariants.{NoMemory};
ghost use Rattle.rules.specs.Meaning.{Alike};
ghost use Rattle.acceptance.specs.Sides.{Imaged, SameSides};

use crate::given::Given;
use crate::memory::Memory;
use crate::recorded::CALLS;
use customer::{Logged, Stripes};
use decoder::{Side, Trial, symmetry_trial};
use faults::Fault;
use noise::{Generator, Noise, Silent};
use rules::{Chosen, Rule, Single, Switch};
use std::alloc::Global;

// Replays the recorded calls on both frames, each with memory of its own.
fn replay_both<R: Rule, Q: Rule, N: Noise, M: Noise>(
    heap: Global,
    given: &Given,
    weight: u8,
    rule: &mut R,
    noise: &N,
    other_rule: &mut Q,
    other_noise: &M,
) -> Result<Trial, Fault>
    ensures { MatchResult result (λ t. Imaged given.now → Alike (R.Rule.meaning rule.old) (Q.Rule.meaning other_rule.old) → M.Noise.noise other_noise.now ≡ N.Noise.noise noise.now → SameSides t.first t.second) (λ e. e ≡ NoMemory) }
{
    let mut memory = Memory::new(heap)?;
    let mut other_memory = Memory::new(heap)?;
    let side = Side {
        rule,
        levels: &mut memory.levels,
        records: &mut memory.records,
        signs: &mut memory.signs,
        noise,
        samples: &given.samples,
    };
    let other = Side {
        rule: other_rule,
        levels: &mut other_memory.levels,
        records: &mut other_memory.records,
        signs: &mut other_memory.signs,
        noise: other_noise,
        samples: &given.other_samples,
    };
    symmetry_trial(heap, &given.terms(weight, &CALLS), side, other)
}

// A chosen switch rule and the same as its own type, with equal generators.
pub(crate) fn switches(heap: Global, given: &Given) -> Result<Trial, Fault>
    ensures { IfOk result (λ t. Imaged given.now → SameSides t.first t.second) }
{
    let switch = Switch::new(-1)?;
    let noise = Generator::new(2024, 3)?;
    let other_noise = Generator::new(2024, 3)?;
    replay_both(
        heap,
        given,
        2,
        &mut Chosen::Switch(switch),
        &noise,
        &mut Switch::new(-1)?,
        &other_noise,
    )
}

// A customer's rule and the library's single rule, with a customer's source.
pub(crate) fn of_customer(heap: Global, given: &Given) -> Result<Trial, Fault>
    ensures { IfOk result (λ t. Imaged given.now → SameSides t.first t.second) }
{
    let mut logged = Logged::new(heap);
    replay_both(
        heap,
        given,
        2,
        &mut logged,
        &Stripes::new(1),
        &mut Single,
        &Stripes::new(1),
    )
}

// A chosen single rule and the same as its own type, with no noise and any weight.
pub(crate) fn singles(heap: Global, given: &Given, weight: u8) -> Result<Trial, Fault>
    ensures { IfOk result (λ t. Imaged given.now → SameSides t.first t.second) }
{
    replay_both(
        heap,
        given,
        weight,
        &mut Chosen::Single(Single),
        &Silent,
        &mut Single,
        &Silent,
    )
}
