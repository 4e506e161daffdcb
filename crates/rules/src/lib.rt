// Flip rules: which bits a round flips.
#![tactic(auto)]

mod chosen;
mod kinds;
mod laws;
mod mode;
mod rule;

pub use chosen::Chosen;
pub use kinds::{LEAST_THRESHOLD, MOST_THRESHOLD, Multi, Single, Switch};
pub use laws::chosen_alike;
pub use mode::Mode;
pub use rule::Rule;
