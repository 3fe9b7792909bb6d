// The strobes of a plan before a slot of a window.

ghost use Rattle.std.specs.Prelude.{◌+◌, ◌<◌, ◌≤◌, length};
ghost use Rattle.copy_laws.specs.Windows.{good_slots};
ghost use Rattle.lockstep_shards.specs.window_strobes.Passed.{HasPassed};

use crate::count::strobes_by;
use good_trace::{Setup, TraceWindow};
use v_design::World;

/// How many of the plan's strobes come up to the slot before one of a window, where so many come up to the slot before the window.
pub fn strobes_before<N: World>(
    setup: &Setup<'_, N>,
    window: &TraceWindow<N>,
    slot: u32,
    passed: usize,
) -> usize
    requires slot { window.now.before + slot ≤ window.now.through }
    requires more { window.now.before + slot < length (good_slots N.design N.plan) }
    requires passed { HasPassed N.design N.plan window.now.before passed }
    ensures since { passed ≤ result }
    ensures passed { HasPassed N.design N.plan (window.now.before + slot) result }
{
    beside_laws::good_run_goes_on();
    let design = setup.design();
    if slot == 0 {
        return passed;
    }
    strobes_by(setup, passed, window.slot_time(slot - 1))
}
