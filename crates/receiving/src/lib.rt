// What is answered to an input of text lines: a line of text for each frame line.
#![tactic(auto)]

mod line;
mod receiving;
mod report;

pub use receiving::received;
