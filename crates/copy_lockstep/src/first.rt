// A fault behind the first slot, through which it went in lockstep.

ghost use Rattle.std.specs.Prelude.{◌≡◌, ◌<◌, [], IfOk, None, OnOk, Some, length, slice_get};
ghost use Rattle.v_design.specs.Plain.{fault_of};
ghost use Rattle.v_design.specs.Runs.{FirstSlot};
ghost use Rattle.copy_laws.specs.Windows.{good_slots};
ghost use Rattle.lockstep_due.specs.lockstep_copies.Copies.{IsCopyInLockstep};
ghost use Rattle.lockstep_due.specs.copy_window.ShardFaults.{SameFault};
ghost use Rattle.lockstep_slot.specs.slot_laws.Copies.{lockstep_differences};
ghost use Rattle.copy_lockstep.specs.Faults.{StandsAtSlot};

use crate::behind::see_behind;
use good_trace::{Setup, TraceWindow};
use lockstep_due::{ShardFault, shards_go_in_lockstep};
use lockstep_slot::FaultInSlot;
use std::alloc::Global;
use v_design::{Fault, World};
use vf_base::NoMemory;

/// Takes up a fault behind the first slot, through which it went in lockstep, and behind which another one comes. No strobe comes before; those at the slot's time are shown. The
/// answer is how many of the plan's strobes come up to then.
///
/// # Errors
///
/// Want of memory.
pub fn leave_first<N: World>(
    alloc: Global,
    setup: &Setup<'_, N>,
    window: &TraceWindow<N>,
    fault: Fault,
    one: FaultInSlot,
    own: &mut ShardFault,
) -> Result<usize, NoMemory>
    requires first { window.now.before ≡ 0 }
    requires slot { 0 < window.now.through }
    requires more { 1 < length (good_slots N.design N.plan) }
    requires through { (first : FirstSlot) → slice_get (good_slots N.design N.plan) 0 ≡ Some first →
        IsCopyInLockstep N.design N.plan (fault_of fault) 0 first.begins.time (lockstep_differences one.own.copy) }
    requires states { one.own.copy.states ≡ [] }
    requires place { one.own.copy.fault ≡ own.old.copy.fault }
    requires listed { slice_get N.plan.faults own.old.copy.fault ≡ Some (fault_of fault) }
    requires none { own.old.end ≡ None }
    ensures fault { IfOk result (λ count. StandsAtSlot N.design N.plan 1 count own.new) }
    ensures place { OnOk result (SameFault own.old own.new) }
{
    beside_laws::good_run_goes_on();
    fault_strobes::strobed_gradings_go_on();
    lockstep_slot::first_slot_goes_on();
    shards_go_in_lockstep();
    let design = setup.design();
    own.strobed.forget();
    let FaultInSlot { own: through, .. } = one;
    own.copy = through.copy;
    let begins = window.slot_time(0);
    let behind = see_behind(alloc, setup, window, fault, own, 0, begins, 0)?;
    Ok(behind)
}
