// The laws of the levels, as statements that the check holds us to.
ghost use Rattle.std.specs.Prelude.{◌≡◌, pos};
ghost use Rattle.quantiser.specs.Laws.{Mirrored, ZeroIsOne, OddAndSmall, NeverShrinks, LimitsAre, NeverFall};
ghost use Rattle.quantiser.specs.Limits.{most_level};

use crate::limits::MOST_LEVEL;

// The largest level, and what holds of all of them.
pub fn most_level() -> i8
    ensures value { result ≡ pos most_level }
    ensures mirrored { Mirrored }
    ensures zero { ZeroIsOne }
    ensures odd { OddAndSmall }
    ensures grows { NeverShrinks }
    ensures limits { LimitsAre }
    ensures rise { NeverFall }
{
    MOST_LEVEL
}
