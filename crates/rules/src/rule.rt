// What a flip rule is.
ghost use Rattle.std.specs.Prelude.{◌≡◌};
ghost use Rattle.rules.specs.Meaning.{RuleMeaning};

// A rule that says which bits a round flips. It neither refuses nor fails.
pub trait Rule {
    // The states that it can be in, the one it is in, and what it means.
    ghost State: { Type 0 };

    ghost state: { Self → State };

    ghost meaning: { Self → RuleMeaning State };

    // Sets the first state, as an opening does.
    fn restart(&mut self)
        ensures state { state self.new ≡ (meaning self.old).first }
        ensures meaning { meaning self.new ≡ meaning self.old };

    // Whether a bit flips that has this perturbed score, and is or is not the round's lowest.
    fn flips(&self, score: i16, lowest: bool) -> bool
        ensures { result ≡ (meaning self.now).says (state self.now) score lowest };

    // Hears the objectives before and after a round.
    fn tell(&mut self, before: i32, after: i32)
        ensures state { state self.new ≡ (meaning self.old).next (state self.old) before after }
        ensures meaning { meaning self.new ≡ meaning self.old };
}
