// The level of one sample: how many boundaries its absolute value reaches, and its sign.
ghost use Rattle.std.specs.Prelude.{◌≡◌, ◌≤◌, pos};
ghost use Rattle.std.specs.Float.Ieee.{le};
ghost use Rattle.quantiser.specs.Levels.{boundary, steps_reached, bounds_reached, by_bounds, magnitude, level_of};
ghost use Rattle.quantiser.specs.Limits.{uniform_boundaries};

use crate::limits::UNIFORM_BOUNDARIES;
use crate::shape::{Boundaries, Shape};

// Boundary k of a uniform quantiser: the product, rounded once.
fn boundary_at(step: f32, k: u8) -> f32
    ensures { result ≡ boundary step k }
{
    k as f32 * step
}

// Whether the size is at the bound or above it.
fn reaches(bound: f32, size: f32) -> bool
    ensures { result ≡ le bound size }
{
    bound <= size
}

// How many boundaries of a step the size reaches.
// Kept: counted in a loop: by `filter` and `count` each boundary costs a jump.
fn steps_reached(step: f32, size: f32) -> usize
    ensures value { result ≡ steps_reached step size uniform_boundaries }
    ensures few { result ≤ uniform_boundaries }
{
    let mut reached = 0;
    for k in 0..UNIFORM_BOUNDARIES {
        reached += usize::from(reaches(boundary_at(step, k + 1), size));
    }
    reached
}

// The magnitude at so many of three boundaries.
fn by_bounds(reached: usize) -> i8
    ensures { result ≡ pos (by_bounds reached) }
{
    match reached {
        0 => 1,
        1 => 5,
        2 => 13,
        _ => 31,
    }
}

impl Boundaries {
    // How many of the three the size reaches.
    fn reached(&self, size: f32) -> usize
        ensures { result ≡ bounds_reached self.now size }
    {
        let a = reaches(self.a, size);
        let b = reaches(self.b, size);
        let c = reaches(self.c, size);
        usize::from(a) + usize::from(b) + usize::from(c)
    }
}

impl Shape {
    // The magnitude of a level, at the absolute value of a sample.
    #[tactic(auto, using(crate::proofs::Counts::reached_le))]
    fn magnitude(&self, size: f32) -> i8
        ensures { result ≡ pos (magnitude self.now size) }
    {
        match self {
            Shape::Uniform(step) => (2 * steps_reached(*step, size) + 1) as i8,
            Shape::Bounded(bounds) => by_bounds(bounds.reached(size)),
        }
    }

    // The magnitude, negative exactly for a sample below zero.
    pub(crate) fn level(&self, x: f32) -> i8
        ensures { result ≡ level_of self.now x }
    {
        let magnitude = self.magnitude(x.abs());
        if x < 0.0 { -magnitude } else { magnitude }
    }
}
