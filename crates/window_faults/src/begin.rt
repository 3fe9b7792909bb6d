// A fault where a window begins.

ghost use Rattle.std.specs.Prelude.{◌≡◌, ◌<◌, length, None, Some, IfOk, OnOk, slice_get};
ghost use Rattle.std.specs.List.{AllZip};
ghost use Rattle.v_design.specs.Plain.{fault_of};
ghost use Rattle.vf_base.specs.Lists.{AllHold};
ghost use Rattle.copy_laws.specs.Windows.{good_slots, time_at};
ghost use Rattle.slot_strobes.specs.window_strobes.Passed.{HasPassed};
ghost use Rattle.slot_strobes.specs.window_strobes.Strobes.{AreStrobesOf, passed_behind};
ghost use Rattle.slot_strobes.specs.copy_window.ShardFaults.{IsShardFault};
ghost use Rattle.window_faults.specs.Steps.{StaysFault};
ghost use Rattle.window_faults.specs.Within.{AreWithin, IsWithin};

use crate::at::{FaultAt, comes_to, count_behind};
use copy_state::FaultCopy;
use good_trace::{Setup, TraceWindow};
use slot_strobes::{ShardFault, WindowStrobes, pass_over, strobes_before};
use std::alloc::Global;
use v_design::{Fault, World};
use vf_base::NoMemory;

/// The fault of a copy.
pub fn listed_fault<N: World>(setup: &Setup<'_, N>, copy: &FaultCopy) -> Fault
    requires { copy.now.fault < length N.plan.faults }
    ensures { slice_get N.plan.faults copy.now.fault ≡ Some (fault_of result) }
{
    let plan = setup.plan();
    let faults = plan.faults.as_slice();
    let place = copy.fault().0 as usize;
    faults[place]
}

/// Passes a fault of which nothing was found over the slots at the beginning of a window, which isn't the first one, that touch nothing of its copy. `now` is the time, in steps,
/// of the last slot before the window. The answer is how far the fault has come.
fn pass_first<N: World>(
    setup: &Setup<'_, N>,
    window: &TraceWindow<N>,
    strobes: &WindowStrobes,
    now: u64,
    own: &mut ShardFault,
) -> FaultAt
    requires some { 0 < window.now.before }
    requires strobes { AreStrobesOf N.design N.plan window.now.before window.now.through strobes.now }
    requires behind { HasPassed N.design N.plan window.now.through (passed_behind strobes.now) }
    requires now { window.now.before < length (good_slots N.design N.plan) → time_at N.design N.plan window.now.before ≡ Some now }
    requires fault { IsShardFault N.design N.plan window.now.before strobes.now.passed own.old }
    requires none { own.old.end ≡ None }
    ensures within { IsWithin N.design N.plan window.now.before window.now.through own.new result }
    ensures stays { StaysFault own.old own.new }
{
    let fault = listed_fault(setup, &own.copy);
    let slots = window.slots();
    let _first = window.begins();
    let slot = pass_over(setup, window, strobes, fault, now, own);
    if slot == slots {
        return comes_to(slot, count_behind(setup, strobes));
    }
    let passed = strobes_before(setup, window, slot, strobes.passed);
    comes_to(slot, passed)
}

/// Where a fault begins a window that isn't the first one.
fn begin_one<N: World>(
    setup: &Setup<'_, N>,
    window: &TraceWindow<N>,
    strobes: &WindowStrobes,
    now: u64,
    own: &mut ShardFault,
) -> FaultAt
    requires some { 0 < window.now.before }
    requires strobes { AreStrobesOf N.design N.plan window.now.before window.now.through strobes.now }
    requires behind { HasPassed N.design N.plan window.now.through (passed_behind strobes.now) }
    requires now { window.now.before < length (good_slots N.design N.plan) → time_at N.design N.plan window.now.before ≡ Some now }
    requires fault { IsShardFault N.design N.plan window.now.before strobes.now.passed own.old }
    ensures within { IsWithin N.design N.plan window.now.before window.now.through own.new result }
    ensures stays { StaysFault own.old own.new }
{
    let _first = window.begins();
    if own.end.is_some() {
        return comes_to(0, strobes.passed);
    }
    pass_first(setup, window, strobes, now, own)
}

/// Where the faults of a shard begin a window that isn't the first one. `now` is the time, in steps, of the last slot before it.
///
/// # Errors
///
/// Want of memory.
pub fn begin_each<N: World>(
    alloc: Global,
    setup: &Setup<'_, N>,
    window: &TraceWindow<N>,
    strobes: &WindowStrobes,
    now: u64,
    faults: &mut Vec<ShardFault>,
) -> Result<Vec<FaultAt>, NoMemory>
    requires some { 0 < window.now.before }
    requires strobes { AreStrobesOf N.design N.plan window.now.before window.now.through strobes.now }
    requires behind { HasPassed N.design N.plan window.now.through (passed_behind strobes.now) }
    requires now { window.now.before < length (good_slots N.design N.plan) → time_at N.design N.plan window.now.before ≡ Some now }
    requires faults { AllHold (IsShardFault N.design N.plan window.now.before strobes.now.passed) faults.old.items }
    ensures within { IfOk result (λ ats. AreWithin N.design N.plan window.now.before window.now.through 0 faults.new.items ats.items) }
    ensures faults { OnOk result (AllZip StaysFault faults.old.items faults.new.items) }
{
    let mut ats = Vec::with_capacity(alloc, faults.len())?;
    'faults: for place in 0..faults.len() {
        let own = &mut faults[place];
        let at = begin_one(setup, window, strobes, now, own);
        ats.push(at)?;
    }
    Ok(ats)
}
