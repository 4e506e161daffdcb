// A frame, and the calls on it.
#![tactic(auto)]

mod calls;
mod frame;
mod opening;
mod replaying;

pub use frame::{Ended, Frame, Turn, Weights};
pub use replaying::{
    Replayed, Side, Terms, Trial, replay, replay_on, symmetry_trial, symmetry_trial_on,
};
