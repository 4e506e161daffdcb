// What the frames are made of: a code, a codeword of it, and samples.
ghost use Rattle.std.specs.Prelude.{◌≡◌, false, map, IfOk, vec_len};
ghost use Rattle.std.specs.Float.Ieee.{eq};
ghost use Rattle.std.specs.List.{range_with_len};
ghost use Rattle.quantiser.specs.Limits.{plus_zero};
ghost use Rattle.acceptance.specs.Frames.{is_one, OnesAreCodeword, NonZero, image_of};
ghost use Rattle.acceptance.specs.Sides.{Imaged};

use circulant::Circulant;
use decoder::Terms;
use faults::Fault;
use plain::Call;
use quantiser::Quantiser;
use std::alloc::Global;

// A grid of 3 by 8 shifts, each of 48 places.
const ROWS: usize = 3;

const COLUMNS: usize = 8;

const SIZE: usize = 48;

pub(crate) const BITS: usize = COLUMNS * SIZE;

pub(crate) const CHECKS: usize = ROWS * SIZE;

const SHIFTS: [i16; 24] = [
    0, 0, 0, 0, 0, 0, 0, 0, 0, 1, 3, 7, 12, 20, 30, 41, 0, 5, 11, 26, 40, 9, 33, 17,
];

// Whether a bit stands in one of the two block columns that are ones of the codeword.
fn is_one(bit: usize) -> bool
    ensures { result ≡ is_one bit }
{
    bit / SIZE == 1 || bit / SIZE == 4
}

// The codeword: no cell is empty, so each check holds one bit of each block column, and two ones.
fn codeword(heap: Global) -> Result<Vec<bool>, Fault>
    ensures digits { IfOk result (λ v. v.items ≡ map is_one (range_with_len 0 384)) }
    ensures even { OnesAreCodeword }
{
    Ok((0..BITS).map(is_one).collect(heap)?)
}

// Of 256 numbers the first few make a sample that is weak and below zero, and none makes zero.
fn sample_of(number: u8) -> f32
    ensures { eq result plus_zero ≡ false }
{
    match number {
        0..=12 => -0.125,
        13..=19 => -0.3,
        20..=99 => 0.7,
        100..=179 => 1.1,
        _ => 1.9,
    }
}

// Samples of a word of zeros, some of them wrong.
fn noisy_zeros(heap: Global) -> Result<Vec<f32>, Fault>
    ensures { IfOk result (λ v. (vec_len v ≡ 384) × NonZero v.items) }
{
    let mut samples = Vec::new(heap);
    let mut state = 1u32;
    // Kept: so many times, each sample from the state that the last one left; nothing is indexed.
    for _ in 0..BITS {
        state = state.wrapping_mul(1_664_525).wrapping_add(1_013_904_223);
        samples.push(sample_of((state >> 24) as u8))?;
    }
    Ok(samples)
}

// The samples, negated at the ones of the codeword.
fn image(heap: Global, samples: &[f32]) -> Result<Vec<f32>, Fault>
    ensures { IfOk result (λ v. v.items ≡ image_of samples.now) }
{
    Ok(
        samples
            .iter()
            .enumerate()
            .map(|(bit, sample)| if is_one(bit) { -*sample } else { *sample })
            .collect(heap)?,
    )
}

// A code and a quantiser, a codeword, and the samples of a frame and of its image.
#[derive(Drop)]
pub(crate) struct Given {
    code: Circulant,
    quantiser: Quantiser,
    pub(crate) word: Vec<bool>,
    pub(crate) samples: Vec<f32>,
    pub(crate) other_samples: Vec<f32>,
}

impl Given {
    pub(crate) fn new(heap: Global) -> Result<Given, Fault>
        ensures { IfOk result Imaged }
    {
        let code = Circulant::new(heap, ROWS, COLUMNS, SIZE, &SHIFTS)?;
        let quantiser = Quantiser::uniform(0.25)?;
        let word = codeword(heap)?;
        let samples = noisy_zeros(heap)?;
        let other_samples = image(heap, &samples)?;
        Ok(Given {
            code,
            quantiser,
            word,
            samples,
            other_samples,
        })
    }

    // What both frames share.
    pub(crate) fn terms<'a>(&'a self, weight: u8, calls: &'a [Call]) -> Terms<'a, Circulant>
        ensures code { result.code.now ≡ self.now.code }
        ensures quantiser { result.quantiser.now ≡ self.now.quantiser }
        ensures weight { result.weight ≡ weight }
        ensures limit { result.limit ≡ 50 }
        ensures calls { result.calls.now ≡ calls.now }
    {
        Terms {
            code: &self.code,
            quantiser: &self.quantiser,
            weight,
            limit: 50,
            calls,
        }
    }

    // Makes a sample of both frames a NaN.
    pub(crate) fn spoil(&mut self, at: usize) {
        if let Some(sample) = self.samples.get_mut(at) {
            *sample = f32::NAN;
        }
        if let Some(sample) = self.other_samples.get_mut(at) {
            *sample = f32::NAN;
        }
    }
}
