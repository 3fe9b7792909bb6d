// How far a fault has come in a window.

ghost use Rattle.std.specs.Prelude.{◌≡◌, ◌≤◌, length};
ghost use Rattle.slot_strobes.specs.window_strobes.Strobes.{passed_behind};

use good_trace::Setup;
use slot_strobes::WindowStrobes;
use v_design::World;

/// Through how many slots of a window a fault has gone, and how many of the plan's strobes come up to the last one; and where it enters the next slot in lockstep, how many come
/// before that slot's time, and the time, in steps, of the first possible detection among them, if they judged the fault and there was one.
#[derive(Clone, Copy, Debug)]
pub struct FaultAt {
    pub slot: u32,
    pub passed: usize,
    pub seen: usize,
    pub possible: Option<u64>,
}

/// A fault that has gone through so many slots of a window, up to which so many of the plan's strobes come.
pub fn comes_to(slot: u32, passed: usize) -> FaultAt
    ensures slot { result.slot ≡ slot }
    ensures passed { result.passed ≡ passed }
{
    FaultAt {
        slot,
        passed,
        seen: passed,
        possible: None,
    }
}

/// How many of the plan's strobes come up to the time to which faults are graded in a window.
pub fn count_behind<N: World>(setup: &Setup<'_, N>, strobes: &WindowStrobes) -> usize
    requires { passed_behind strobes.now ≤ length N.plan.strobes }
    ensures { result ≡ passed_behind strobes.now }
{
    let _plan = setup.plan();
    strobes.passed + strobes.samples.len()
}
