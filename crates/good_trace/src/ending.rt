// How a window ends.

ghost use Rattle.std.specs.Prelude.{◌≡◌};

use vf_base::Pair;

/// How a window of the good first run ends: slots come after it, the run is through, or the last slot has a race.
#[derive(Clone, Copy, PartialEq, Eq, Debug)]
pub enum GoodEnd {
    Open,
    Through,
    Raced(Pair),
}
