// The laws of the rules, as statements that the check holds us to.
ghost use Rattle.rules.specs.Laws.{ChosenAlike};

// A chosen rule is alike to the one that it holds.
pub fn chosen_alike()
    ensures { ChosenAlike }
{}
