// What the faults of a shard are graded beside in a window.

ghost use Rattle.std.specs.Prelude.{◌≡◌, IfOk};
ghost use Rattle.window_strobes.specs.Passed.{HasPassed};
ghost use Rattle.window_strobes.specs.Strobes.{AreStrobesOf, passed_behind};

use crate::ending::last_time;
use crate::samples::samples_by;
use good_trace::{GoodEnd, Setup, TraceWindow};
use kept_samples::Sample;
use std::alloc::Global;
use v_design::World;
use vf_base::NoMemory;

/// What the strobes of a window see of the good machine, in order, and how many of the plan's strobes come before them; the time, in steps, to which faults are
/// graded in the window; and how the window ends.
///
/// No time is there where the good machine has its race at time 0.
#[derive(Drop)]
pub struct WindowStrobes {
    pub passed: usize,
    pub samples: Vec<Sample>,
    pub until: Option<u64>,
    pub ending: GoodEnd,
}

/// What the strobes of a window see of the good machine, where so many of the plan's strobes come up to the window's beginning.
///
/// # Errors
///
/// Want of memory.
pub fn strobes_of<N: World>(
    alloc: Global,
    setup: &Setup<'_, N>,
    window: &TraceWindow<N>,
    passed: usize,
) -> Result<WindowStrobes, NoMemory>
    requires { HasPassed N.design N.plan window.now.before passed }
    ensures strobes { IfOk result (λ strobes. AreStrobesOf N.design N.plan window.now.before window.now.through strobes) }
    ensures before { IfOk result (λ strobes. strobes.passed ≡ passed) }
    ensures behind { IfOk result (λ strobes. HasPassed N.design N.plan window.now.through (passed_behind strobes)) }
{
    beside_laws::good_run_goes_on();
    let design = setup.design();
    let plan = setup.plan();
    let _first = window.begins();
    window.rests_before(window.slots());
    let until = last_time(setup, window);
    let samples = samples_by(alloc, setup, window, passed, until)?;
    Ok(WindowStrobes {
        passed,
        samples,
        until,
        ending: window.ending(),
    })
}
