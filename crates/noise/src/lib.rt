// Noise sources: what is added to the scores of a round.
#![tactic(auto)]

mod generator;
mod limits;
mod silent;
mod source;
mod table;

pub use generator::Generator;
pub use limits::{
    LEAST_NOISE, MOST_AMPLITUDE, MOST_BITS, MOST_ENTRIES, MOST_NOISE, MOST_ROUNDS, SPAN, is_covered,
};
pub use silent::Silent;
pub use source::Noise;
pub use table::Table;
