// The memory that is lent to a frame.
ghost use Rattle.std.specs.Prelude.{◌≡◌, vec_len, MatchResult};
ghost use Rattle.faults.specs.declared.Fault.TheVariants.{NoMemory};

use crate::given::{BITS, CHECKS};
use engine::{Bit, Sign};
use faults::Fault;
use std::alloc::Global;

// A place for each level, a record for each bit and a sign for each check.
#[derive(Drop)]
pub(crate) struct Memory {
    pub(crate) levels: Vec<i8>,
    pub(crate) records: Vec<Bit>,
    pub(crate) signs: Vec<Sign>,
}

impl Memory {
    pub(crate) fn new(heap: Global) -> Result<Memory, Fault>
        ensures { MatchResult result (λ m. (vec_len m.levels ≡ 384) × (vec_len m.records ≡ 384) × (vec_len m.signs ≡ 144)) (λ e. e ≡ NoMemory) }
    {
        let levels = vec![in heap; 0i8; BITS]?;
        let records = vec![in heap; Bit::default(); BITS]?;
        let signs = vec![in heap; Sign::default(); CHECKS]?;
        Ok(Memory {
            levels,
            records,
            signs,
        })
    }
}
