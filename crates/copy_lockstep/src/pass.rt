// Slots over which a fault is passed.

ghost use Rattle.std.specs.Prelude.{◌≡◌, ◌+◌, ◌<◌, ◌≤◌, length};
ghost use Rattle.v_design.specs.Plain.{fault_of};
ghost use Rattle.copy_laws.specs.Windows.{good_slots};
ghost use Rattle.lockstep_due.specs.copy_window.ShardFaults.{SameFault};
ghost use Rattle.copy_lockstep.specs.Faults.{IsOpenAtSlot};

use crate::reached::Reached;
use good_trace::{Setup, TraceWindow};
use lockstep_due::{
    ShardFault, is_unseen, next_touched, searches_begin, shards_go_in_lockstep, strobes_by,
};
use v_design::{Fault, World};

/// Copies with more values than this aren't searched for: so many searches would cost more than to try a slot.
const MOST_VALUES: usize = 256;

/// Passes a fault over the slots of a window from one on, and before another, that touch nothing of its copy, if its strobes see nothing of that. With none of them it stays
/// as it is.
pub(crate) fn pass_slots<N: World>(
    setup: &Setup<'_, N>,
    window: &TraceWindow<N>,
    fault: Fault,
    own: &mut ShardFault,
    at: Reached,
    to: u32,
) -> Reached
    requires order { at.slot ≤ to }
    requires within { window.now.before + to ≤ window.now.through }
    requires more { window.now.before + to < length (good_slots N.design N.plan) }
    requires fault { IsOpenAtSlot N.design N.plan (fault_of fault) (window.now.before + at.slot) at.passed own.old }
    ensures since { at.slot ≤ result.slot }
    ensures by { result.slot ≤ to }
    ensures fault { IsOpenAtSlot N.design N.plan (fault_of fault) (window.now.before + result.slot) result.passed own.new }
    ensures place { SameFault own.old own.new }
    ensures stays { result.slot ≡ at.slot → own.new ≡ own.old }
    ensures same { result.slot ≡ at.slot → result.passed ≡ at.passed }
{
    beside_laws::good_run_goes_on();
    searches_begin();
    shards_go_in_lockstep();
    let design = setup.design();
    let plan = setup.plan();
    if at.slot == 0 {
        return at;
    }
    let now = window.slot_time(at.slot - 1);
    if own.time != now {
        return at;
    }
    if own.copy.size() > MOST_VALUES {
        return at;
    }
    if !is_unseen(plan.watched.as_slice(), &own.copy) {
        return at;
    }
    let next = next_touched(setup, window, &own.copy, fault, at.slot).min(to);
    if next <= at.slot {
        return at;
    }
    let time = window.slot_time(next - 1);
    own.time = time;
    Reached {
        slot: next,
        passed: strobes_by(setup, at.passed, time),
    }
}
