// What a frame is, besides the caller's memory.
ghost use Rattle.std.specs.Prelude.{◌≡◌};
ghost use Rattle.decoder.specs.Answering.{turn_answer, ended_answer, weights_answer};

use plain::{Answer, Verdict};

// The numbers of an open frame: its sizes, what it was opened with, and what its rounds have come
// to.
#[derive(Clone, Copy, Debug, PartialEq, Eq)]
pub struct Frame {
    pub(crate) bits: usize,
    pub(crate) checks: usize,
    pub(crate) weight: u8,
    pub(crate) limit: usize,
    pub(crate) rounds: usize,
    pub(crate) objective: i32,
    pub(crate) opening: i32,
}

// What a round answers.
#[derive(Clone, Copy, Debug, PartialEq, Eq)]
pub enum Turn {
    // It changed nothing.
    Stopped(Verdict),
    // It flipped so many bits.
    Flipped(usize),
}

// What a decode answers: how it ended, and the rounds done since opening.
#[derive(Clone, Copy, Debug, PartialEq, Eq)]
pub struct Ended {
    pub verdict: Verdict,
    pub rounds: usize,
}

// What a weighing answers.
#[derive(Clone, Copy, Debug, PartialEq, Eq)]
pub struct Weights {
    pub score: i16,
    pub objective: i32,
    pub gain: i32,
}

impl<B> From<Turn> for Answer<B> {
    ghost from_gives = { λ t x. x ≡ turn_answer t };

    fn from(turn: Turn) -> Answer<B> {
        match turn {
            Turn::Stopped(verdict) => Answer::Stopped(verdict),
            Turn::Flipped(count) => Answer::Flipped(count),
        }
    }
}

impl<B> From<Ended> for Answer<B> {
    ghost from_gives = { λ e x. x ≡ ended_answer e };

    fn from(ended: Ended) -> Answer<B> {
        Answer::Ended(ended.verdict, ended.rounds)
    }
}

impl<B> From<Weights> for Answer<B> {
    ghost from_gives = { λ w x. x ≡ weights_answer w };

    fn from(weights: Weights) -> Answer<B> {
        Answer::Weighed(weights.score, weights.objective, weights.gain)
    }
}
