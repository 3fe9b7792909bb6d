// How far faults have come.

ghost use Rattle.std.specs.Prelude.{◌≡◌, ℕ, ◌≤◌, Some, length};
ghost use Rattle.shard_slots.specs.window_strobes.Strobes.{passed_behind};

use good_trace::Setup;
use shard_slots::WindowStrobes;
use v_design::World;

/// How many of the plan's strobes come up to the last slot through which some faults have gone, and the time, in steps, of this slot.
#[derive(Clone, Copy, Debug)]
pub struct Reached {
    pub passed: usize,
    pub time: u64,
}

/// The same behind a window.
pub(crate) fn reached_behind<N: World>(setup: &Setup<'_, N>, strobes: &WindowStrobes) -> Reached
    requires { passed_behind strobes.now ≤ length N.plan.strobes }
    ensures passed { result.passed ≡ passed_behind strobes.now }
    ensures time { (until : ℕ) → strobes.now.until ≡ Some until → result.time ≡ until }
{
    let _plan = setup.plan();
    Reached {
        passed: strobes.passed + strobes.samples.len(),
        time: strobes.until.unwrap_or(0),
    }
}
