// A rule of a customer's own, which owns memory.
ghost use Rattle.std.specs.Prelude.{◌≡◌, []};
ghost use Rattle.customer.specs.Own.{logged, LoggedAlike};

use rules::Rule;
use std::alloc::Global;

// Flips the lowest alone, and writes down each objective that it is told, where there is memory.
// What it writes down is left open: a rule's contract pins its state and its meaning, and no more.
#[derive(Debug, Drop, PartialEq, Eq)]
pub struct Logged {
    objectives: Vec<i32>,
}

impl Rule for Logged {
    ghost State = { Unit {0} };

    ghost state = { λ _. tt };

    ghost meaning = { λ _. logged };

    fn restart(&mut self) {
        self.objectives.clear();
    }

    fn flips(&self, _score: i16, lowest: bool) -> bool {
        lowest
    }

    fn tell(&mut self, _before: i32, after: i32) {
        let _ = self.objectives.push(after);
    }
}

impl Logged {
    // The rule, with nothing written down. It is alike to the library's single rule.
    pub fn new(heap: Global) -> Logged
        ensures empty { result.objectives.items ≡ [] }
        ensures alike { LoggedAlike }
    {
        Logged {
            objectives: Vec::new(heap),
        }
    }
}
