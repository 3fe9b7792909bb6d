// The time to which faults are graded in a window.

ghost use Rattle.std.specs.Prelude.{◌≡◌};
ghost use Rattle.window_strobes.specs.Known.{IsKnown};
ghost use Rattle.window_strobes.specs.Leading.{LeadsTo, last_before};

use good_trace::{GoodEnd, Setup, TraceWindow};
use v_design::World;

/// The last time before another, in steps, if there is one.
fn time_before(time: u64) -> Option<u64>
    ensures { result ≡ last_before time }
{
    time.checked_sub(1)
}

/// The time, in steps, to which faults are graded in a window: that of its last slot, or the plan's end, or the last time before the good machine's race, if there is
/// one.
pub(crate) fn last_time<N: World>(setup: &Setup<'_, N>, window: &TraceWindow<N>) -> Option<u64>
    requires { IsKnown N.design N.plan window.now.before window.now.through window.now.ending }
    ensures { LeadsTo N.design N.plan window.now.before window.now.through window.now.ending result }
{
    beside_laws::good_run_goes_on();
    beside_laws::windows_end();
    let plan = setup.plan();
    let count = window.slots();
    match window.ending() {
        GoodEnd::Open => Some(window.slot_time(count - 1)),
        GoodEnd::Through => Some(plan.end),
        GoodEnd::Raced(pair) => time_before(pair.time),
    }
}
