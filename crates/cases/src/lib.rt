// The worked cases: small codes, frames and sources, and what the definitions make of them.
#![tactic(auto)]

ghost use Rattle.cases.specs.Cases.{WorkedCases};

// Codes, noise, scores and rounds of small examples, as one can work them out by hand.
pub fn worked_cases()
    ensures { WorkedCases }
{}
