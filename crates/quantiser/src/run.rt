// Many samples to as many levels.
ghost use Rattle.std.specs.Prelude.{◌≡◌, position, is_nan, map, length, Some, None, MatchResult};
ghost use Rattle.faults.specs.Rows.{row_of};
ghost use Rattle.quantiser.specs.Levels.{level_of};
ghost use Rattle.quantiser.specs.Runs.{quantise_fault};

use crate::Quantiser;
use faults::Fault;

// The least index of a sample that is not a number.
fn first_nan(samples: &[f32]) -> Option<usize>
    ensures { result ≡ position is_nan samples.now }
{
    samples.iter().position(|x| x.is_nan())
}

// Whether there are as many samples as levels, and each is a number, or the first fault.
#[tactic(auto, using(crate::proofs::Nans::nan_position))]
fn checked(samples: &[f32], count: usize) -> Result<(), Fault>
    ensures { MatchResult result (λ _. quantise_fault samples.now count ≡ None) (λ e. quantise_fault samples.now count ≡ Some (row_of e)) }
{
    if samples.len() != count {
        return Err(Fault::SampleCount(samples.len()));
    }
    match first_nan(samples) {
        Some(i) => Err(Fault::NotANumber(i)),
        None => Ok(()),
    }
}

// Writes the level of each sample.
#[tactic(auto, using(std::proofs::lemmas::List::map_more, std::proofs::lemmas::List::take_more_set))]
fn fill(quantiser: &Quantiser, samples: &[f32], levels: &mut [i8])
    requires { length samples.now ≡ length levels.old }
    ensures { levels.new ≡ map (level_of quantiser.now.shape) samples.now }
{
    // Kept: by index: zipped with `iter_mut` was tried, and its proof stays open; `enumerate` on the levels would index the samples.
    for (i, x) in samples.iter().enumerate() {
        levels[i] = quantiser.level(*x);
    }
}

// Writes the level of each sample, or leaves the levels as they were.
pub fn quantise(quantiser: &Quantiser, samples: &[f32], levels: &mut [i8]) -> Result<(), Fault>
    ensures { MatchResult result (λ _. (quantise_fault samples.now (length levels.old) ≡ None) × (levels.new ≡ map (level_of quantiser.now.shape) samples.now)) (λ e. (quantise_fault samples.now (length levels.old) ≡ Some (row_of e)) × (levels.new ≡ levels.old)) }
{
    checked(samples, levels.len())?;
    fill(quantiser, samples, levels);
    Ok(())
}
