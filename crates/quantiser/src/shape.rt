// The shapes of a quantiser: where its boundaries are, and which may be.
ghost use Rattle.std.specs.Prelude.{◌≡◌};
ghost use Rattle.quantiser.specs.Shapes.{is_step, is_rising, is_allowed};

use crate::limits::{LEAST_STEP, MOST_BOUNDARY, MOST_STEP};

// Three boundaries, the least first.
#[derive(Clone, Copy, Debug, PartialEq)]
pub struct Boundaries {
    pub a: f32,
    pub b: f32,
    pub c: f32,
}

// Boundaries at each multiple of a step, or three of them.
#[derive(Clone, Copy, Debug, PartialEq)]
pub enum Shape {
    Uniform(f32),
    Bounded(Boundaries),
}

// Whether it is a step that a quantiser may have. A NaN passes no comparison.
#[tactic(auto, using(crate::proofs::Above::le_compared))]
fn is_step(step: f32) -> bool
    ensures { result ≡ is_step step }
{
    (LEAST_STEP..=MOST_STEP).contains(&step)
}

impl Boundaries {
    // Whether the three are above zero, rise, and end within the limit.
    fn is_rising(&self) -> bool
        ensures { result ≡ is_rising self.now }
    {
        0.0 < self.a && self.a < self.b && self.b < self.c && self.c <= MOST_BOUNDARY
    }
}

impl Shape {
    // Whether a quantiser may have the shape.
    pub(crate) fn is_allowed(&self) -> bool
        ensures { result ≡ is_allowed self.now }
    {
        match self {
            Shape::Uniform(step) => is_step(*step),
            Shape::Bounded(bounds) => bounds.is_rising(),
        }
    }
}
