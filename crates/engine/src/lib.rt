// The caller's memory of a frame, a record for each bit and a sign for each check, and what the
// decoder does to it.
#![tactic(auto)]

mod bit;
mod opening;
mod packing;
mod sweeping;
mod turning;
mod weighted;

pub use bit::{Bit, Sign, score_at};
pub use packing::{pack, unmet};
pub use sweeping::Swept;
pub use weighted::Weighted;
