// The seven-bit code with the checks {0,2,4,6}, {1,2,5,6} and {3,4,5,6}.
#![tactic(auto)]

ghost use Rattle.std.specs.Prelude.{◌≡◌, MatchResult};
ghost use Rattle.faults.specs.declared.Fault.TheVariants.{NoMemory};
ghost use Rattle.codes.specs.Lawful.{Lawful};
ghost use Rattle.listed.specs.Means.{listed_of};
ghost use Rattle.seven.specs.Seven.{seven_by_check, seven_by_bit, seven_pairs};

use codes::{AsMatrix, Matrix};
use faults::Fault;
use listed::{Listed, Pair};
use std::alloc::Global;

// How many bits the code has.
pub const BITS: usize = 7;

// How many checks the code has.
pub const CHECKS: usize = 3;

// The pairs of the code, by check then bit.
fn by_check() -> [Pair; 12]
    ensures { result ≡ seven_by_check }
{
    [
        Pair { check: 0, bit: 0 },
        Pair { check: 0, bit: 2 },
        Pair { check: 0, bit: 4 },
        Pair { check: 0, bit: 6 },
        Pair { check: 1, bit: 1 },
        Pair { check: 1, bit: 2 },
        Pair { check: 1, bit: 5 },
        Pair { check: 1, bit: 6 },
        Pair { check: 2, bit: 3 },
        Pair { check: 2, bit: 4 },
        Pair { check: 2, bit: 5 },
        Pair { check: 2, bit: 6 },
    ]
}

// The same, by bit then check.
fn by_bit() -> [Pair; 12]
    ensures { result ≡ seven_by_bit }
{
    [
        Pair { check: 0, bit: 0 },
        Pair { check: 1, bit: 1 },
        Pair { check: 0, bit: 2 },
        Pair { check: 1, bit: 2 },
        Pair { check: 2, bit: 3 },
        Pair { check: 0, bit: 4 },
        Pair { check: 2, bit: 4 },
        Pair { check: 1, bit: 5 },
        Pair { check: 2, bit: 5 },
        Pair { check: 0, bit: 6 },
        Pair { check: 1, bit: 6 },
        Pair { check: 2, bit: 6 },
    ]
}

// The code as a listed one, unless there is no memory for it.
pub fn listed(heap: Global) -> Result<Listed, Fault>
    ensures { MatchResult result (λ l. Lawful (listed_of l) seven_pairs) (λ e. e ≡ NoMemory) }
{
    Listed::new(heap, BITS, CHECKS, &by_check(), &by_bit())
}

// The code, which answers as its checks are.
#[derive(Drop)]
pub struct Seven {
    listed: Listed,
    ghost lawful: { ∥ Lawful (listed_of listed) seven_pairs ∥₁ },
}

impl AsMatrix for Seven {
    ghost matrix = { λ s. ⟦<Listed as AsMatrix>⟧.matrix s.listed };

    fn as_matrix(&self) -> &Matrix {
        self.listed.as_matrix()
    }
}

impl Seven {
    ghost use Rattle.seven.specs.Means.{seven_of};

    // The code, unless there is no memory for it.
    pub fn new(heap: Global) -> Result<Seven, Fault>
        ensures { MatchResult result (λ s. Lawful (seven_of s) seven_pairs) (λ e. e ≡ NoMemory) }
    {
        let listed = listed(heap)?;
        Ok(Seven { listed })
    }
}

#[cfg(test)]
mod tests {
    use super::*;
    use codes::Code;
    use std::test::Fail;

    #[test]
    fn is_made(rt: HostRuntime) -> Result<(), Fail> {
        let code = Seven::new(rt.alloc())?;
        assert_eq!(rt; code.bits(), 7);
        assert_eq!(rt; code.checks(), 3);
        Ok(())
    }
}
