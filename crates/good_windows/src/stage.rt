// How the good first run goes on.

ghost use Rattle.std.specs.Prelude.{◌≡◌};
ghost use Rattle.good_windows.specs.Stages.{ending, stage_by};

use good_trace::GoodEnd;
use vf_base::Pair;

/// How the good first run goes on after its slots so far: another slot may come, it is through its plan's end, its last slot has a race, or its next slot is
/// hyperactive and begins at this time, in steps. A run that ran out of memory is spent.
#[derive(Clone, Copy, PartialEq, Eq, Debug)]
pub enum Stage {
    Open,
    Through,
    Raced(Pair),
    Looped(u64),
    Spent,
}

/// How a window ends after which the run goes on so.
pub(crate) fn ending(stage: Stage) -> GoodEnd
    ensures { result ≡ ending stage }
{
    match stage {
        Stage::Open => GoodEnd::Open,
        Stage::Through => GoodEnd::Through,
        Stage::Raced(pair) => GoodEnd::Raced(pair),
        Stage::Looped(_) => GoodEnd::Open,
        Stage::Spent => GoodEnd::Open,
    }
}

/// How the run goes on whose slots so far are fine, by the time of the slot that comes next.
pub(crate) fn stage_by(next: Option<u64>) -> Stage
    ensures { result ≡ stage_by next }
{
    match next {
        Some(_) => Stage::Open,
        None => Stage::Through,
    }
}
