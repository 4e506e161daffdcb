// The two ways to go through the pairs of a matrix: by check then bit, or by bit then check.
ghost use Rattle.std.specs.Prelude.{◌≡◌};
ghost use Rattle.codes.specs.Sides.{other};

#[derive(Clone, Copy, Debug, PartialEq, Eq)]
pub enum Side {
    ByCheck,
    ByBit,
}

impl Side {
    // The other way.
    pub fn other(self) -> Side
        ensures { result ≡ other self }
    {
        match self {
            Side::ByCheck => Side::ByBit,
            Side::ByBit => Side::ByCheck,
        }
    }
}
