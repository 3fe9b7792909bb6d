// A fault over a window.

ghost use Rattle.std.specs.Prelude.{◌≡◌, ℕ, ◌+◌, ◌<◌, ◌≤◌, None, Some, length};
ghost use Rattle.v_design.specs.Plain.{fault_of};
ghost use Rattle.copy_laws.specs.Windows.{good_slots, time_at};
ghost use Rattle.copy_window.specs.window_strobes.Passed.{HasPassed};
ghost use Rattle.copy_window.specs.window_strobes.Strobes.{passed_behind};
ghost use Rattle.copy_window.specs.Passing.{CanResume};
ghost use Rattle.copy_window.specs.ShardFaults.{IsShardFault, SameFault};

use crate::alone::{fine_slots, slots_alone};
use crate::seen::is_unseen;
use copy_skip::searches_begin;
use copy_window::{ShardFault, WindowStrobes, end_behind};
use fault_strobes::{strobed_faults_go_on, strobed_gradings_end, strobed_gradings_go_on};
use good_trace::{Setup, TraceWindow};
use quiet_index::copies_pass_over;
use quiet_slots::strobes_see;
use run_stands::states_stand;
use v_design::{Fault, World};

/// Passes a fault over the first slots of a window that touch nothing of its copy, if its strobes see nothing of that. `now` is the time, in steps, of the last slot before
/// the window. The answer is how many slots it passes; with none of them the fault stays as it is.
pub fn pass_over<N: World>(
    setup: &Setup<'_, N>,
    window: &TraceWindow<N>,
    strobes: &WindowStrobes,
    fault: Fault,
    now: u64,
    own: &mut ShardFault,
) -> u32
    requires fault { CanResume N.design N.plan window.now.before window.now.through strobes.now (fault_of fault) own.old }
    requires now { window.now.before < length (good_slots N.design N.plan) → time_at N.design N.plan window.now.before ≡ Some now }
    ensures within { window.now.before + result ≤ window.now.through }
    ensures all { window.now.before + result ≡ window.now.through → IsShardFault N.design N.plan window.now.through (passed_behind strobes.now) own.new }
    ensures part { 0 < result → window.now.before + result < window.now.through → (passed : ℕ) → strobes.now.passed ≤ passed → HasPassed N.design N.plan (window.now.before + result) passed →
        IsShardFault N.design N.plan (window.now.before + result) passed own.new }
    ensures goes_on { window.now.before + result < window.now.through → own.new.end ≡ None }
    ensures place { SameFault own.old own.new }
    ensures stays { result ≡ 0 → own.new ≡ own.old }
{
    beside_laws::faults_go_on();
    beside_laws::good_run_goes_on();
    beside_laws::runs_stand();
    between_slots::updates_pend();
    copies_pass_over();
    searches_begin();
    states_stand();
    strobed_faults_go_on();
    strobed_gradings_end();
    strobed_gradings_go_on();
    strobes_see();
    let design = setup.design();
    let plan = setup.plan();
    let _first = window.begins();
    if own.time != now {
        return 0;
    }
    let alone = slots_alone(setup, window, fault, &own.copy);
    if alone == 0 {
        return 0;
    }
    let watched = plan.watched.as_slice();
    if !is_unseen(watched, &own.copy) {
        return 0;
    }
    if alone < fine_slots(strobes.ending, window.slots()) {
        own.time = window.slot_time(alone - 1);
        return alone;
    }
    let Some(until) = strobes.until else {
        return 0;
    };
    own.time = until;
    own.end = end_behind(strobes.ending, &own.strobed);
    window.slots()
}
