// A quantiser of samples, each an `f32`, to odd levels from -31 to 31.
#![tactic(auto)]

ghost use Rattle.std.specs.Prelude.{◌≡◌, true, Some, None, MatchResult};
ghost use Rattle.faults.specs.Rows.{row_of};
ghost use Rattle.quantiser.specs.Levels.{level_of};
ghost use Rattle.quantiser.specs.Shapes.{is_allowed, shape_fault, of_step, of_bounds};

pub use laws::most_level;
pub use limits::{LEAST_STEP, MOST_BOUNDARY, MOST_STEP, UNIFORM_BOUNDARIES};
pub use run::quantise;
use shape::{Boundaries, Shape};

mod laws;
mod level;
mod limits;
mod run;
mod shape;

use faults::Fault;

// A shape that is allowed.
#[derive(Clone, Copy, Debug, PartialEq)]
pub struct Quantiser {
    shape: Shape,
    ghost ok: { is_allowed shape ≡ true },
}

impl Quantiser {
    // The quantiser of a shape, unless the shape is out of range.
    fn new(shape: Shape) -> Result<Quantiser, Fault>
        ensures { MatchResult result (λ q. (shape_fault shape ≡ None) × (q.shape ≡ shape)) (λ e. shape_fault shape ≡ Some (row_of e)) }
    {
        if shape.is_allowed() {
            Ok(Quantiser { shape })
        } else {
            Err(Fault::QuantiserRange)
        }
    }

    // Boundary k, for k from 1 to 15, is k times the step.
    pub fn uniform(step: f32) -> Result<Quantiser, Fault>
        ensures { MatchResult result (λ q. (shape_fault (of_step step) ≡ None) × (q.shape ≡ of_step step)) (λ e. shape_fault (of_step step) ≡ Some (row_of e)) }
    {
        Quantiser::new(Shape::Uniform(step))
    }

    // Three boundaries.
    pub fn bounded(a: f32, b: f32, c: f32) -> Result<Quantiser, Fault>
        ensures { MatchResult result (λ q. (shape_fault (of_bounds a b c) ≡ None) × (q.shape ≡ of_bounds a b c)) (λ e. shape_fault (of_bounds a b c) ≡ Some (row_of e)) }
    {
        Quantiser::new(Shape::Bounded(Boundaries { a, b, c }))
    }

    // The level of a sample.
    pub fn level(&self, x: f32) -> i8
        ensures { result ≡ level_of self.now.shape x }
    {
        self.shape.level(x)
    }
}
