// The questions that every code answers.
ghost use Rattle.std.specs.Prelude.{◌≡◌};
ghost use Rattle.codes.specs.Answers.{Answers};

// A parity-check matrix. Bits, checks and places are numbered from 0, both kinds of lists rise
// strictly, and a number out of range is answered by `None`.
pub trait Code {
    ghost answers: { Self → Answers };

    // The number of bits.
    fn bits(&self) -> usize
        ensures { result ≡ (answers self.now).bits };

    // The number of checks.
    fn checks(&self) -> usize
        ensures { result ≡ (answers self.now).checks };

    // The most checks that hold one bit.
    fn widest(&self) -> usize
        ensures { result ≡ (answers self.now).widest };

    // How many bits a check holds.
    fn check_degree(&self, check: usize) -> Option<usize>
        ensures { result ≡ (answers self.now).check_degree check };

    // The bit at a place of a check.
    fn check_bit(&self, check: usize, place: usize) -> Option<usize>
        ensures { result ≡ (answers self.now).check_bit check place };

    // How many checks hold a bit.
    fn bit_degree(&self, bit: usize) -> Option<usize>
        ensures { result ≡ (answers self.now).bit_degree bit };

    // The check at a place of a bit.
    fn bit_check(&self, bit: usize, place: usize) -> Option<usize>
        ensures { result ≡ (answers self.now).bit_check bit place };
}
