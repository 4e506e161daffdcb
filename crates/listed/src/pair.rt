// A check and a bit that it holds.
ghost use Rattle.std.specs.Prelude.{◌≡◌};

use codes::Side;

#[derive(Clone, Copy, Debug, PartialEq, Eq)]
pub struct Pair {
    pub check: usize,
    pub bit: usize,
}

impl Pair {
    ghost use Rattle.listed.specs.Order.{major_of, minor_of};

    // The number that a side looks at first.
    pub(crate) fn number(self, side: Side) -> usize
        ensures { result ≡ major_of side self }
    {
        match side {
            Side::ByCheck => self.check,
            Side::ByBit => self.bit,
        }
    }

    // Both numbers, in the order in which a side looks at them.
    pub(crate) fn numbers(self, side: Side) -> (usize, usize)
        ensures { result ≡ (major_of side self, minor_of side self) }
    {
        (self.number(side), self.number(side.other()))
    }
}
