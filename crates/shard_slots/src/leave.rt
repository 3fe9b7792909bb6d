// The faults of a shard behind a slot.

ghost use Rattle.std.specs.Prelude.{◌≡◌, ◌+◌, ◌<◌, ◌≤◌, [], None, IfOk, OnOk, Some, length, slice_get, sum_by};
ghost use Rattle.std.specs.List.{AllZip};
ghost use Rattle.v_design.specs.Plain.{fault_of};
ghost use Rattle.v_design.specs.Runs.{FirstSlot};
ghost use Rattle.copy_laws.specs.Windows.{good_slots};
ghost use Rattle.copy_lockstep.specs.Faults.{StandsAtSlot};
ghost use Rattle.copy_lockstep.specs.Stops.{NoStopThrough};
ghost use Rattle.copy_lockstep.specs.copy_room.Rooms.{IsRoom};
ghost use Rattle.copy_lockstep.specs.copy_window.ShardFaults.{SameFault};
ghost use Rattle.copy_lockstep.specs.lockstep_copies.Copies.{IsCopyInLockstep};
ghost use Rattle.copy_lockstep.specs.slot_laws.Copies.{lockstep_differences};
ghost use Rattle.own_gradings.specs.Numbers.{RisesOwn};
ghost use Rattle.copy_lockstep.specs.window_strobes.Passed.{HasPassed};
ghost use Rattle.copy_lockstep.specs.window_strobes.Strobes.{AreStrobesOf, passed_behind};
ghost use Rattle.copy_lockstep.specs.phase_faults.Beside.{ticked_of};
ghost use Rattle.copy_lockstep.specs.window_faults.Steps.{StaysFault, steps_of_fault, steps_of_faults};
ghost use Rattle.copy_lockstep.specs.window_faults.Within.{AreWithin, IsWithin};
ghost use Rattle.shard_slots.specs.Slots.{EntersAt, HaveGone, Rests, WentIf, WentThrough, tried_if};

use crate::entrants::last_if;
use crate::let_go::let_go_ended;
use causal_monitor::SlotLog;
use copy_lockstep::{
    FaultAt, FaultBeside, Machine, ShardFault, WindowStrobes, begin_fault, comes_to, count_behind,
    leave_first, leave_slot, listed_fault, run_whole, slots_take_own,
};
use good_trace::{Setup, TraceWindow};
use std::alloc::Global;
use std::sync::ledger::Ledger;
use v_design::World;
use vf_base::{NoMemory, Steps};

/// A fault that went through a slot in lockstep, behind it. The answer is how far it has come then.
fn leave_going<N: World>(
    alloc: Global,
    setup: &Setup<'_, N>,
    window: &TraceWindow<N>,
    beside: FaultBeside,
    own: &mut ShardFault,
    at: FaultAt,
    slot: u32,
) -> Result<FaultAt, NoMemory>
    requires slot { window.now.before + slot < window.now.through }
    requires fine { NoStopThrough N.design N.plan (window.now.before + slot + 1) }
    requires one { window.now.before ≡ 0 → window.now.through ≡ 1 }
    requires more { window.now.before ≡ 0 → 1 < length (good_slots N.design N.plan) }
    requires none { own.old.end ≡ None }
    requires listed { slice_get N.plan.faults own.old.copy.fault ≡ Some (fault_of beside.fault) }
    requires entered { EntersAt N.design N.plan (fault_of beside.fault) (window.now.before + slot) own.old at }
    requires through { (first : FirstSlot) → slice_get (good_slots N.design N.plan) (window.now.before + slot) ≡ Some first →
        IsCopyInLockstep N.design N.plan (fault_of beside.fault) (window.now.before + slot) first.begins.time (lockstep_differences beside.one.own.copy) }
    requires states { beside.one.own.copy.states ≡ [] }
    requires place { beside.one.own.copy.fault ≡ own.old.copy.fault }
    ensures slot { IfOk result (λ came. came.slot ≡ slot + 1) }
    ensures fault { IfOk result (λ came. StandsAtSlot N.design N.plan (window.now.before + (slot + 1)) came.passed own.new) }
    ensures place { OnOk result (SameFault own.old own.new) }
{
    if window.begins() == 0 {
        let passed = leave_first(alloc, setup, window, beside.fault, beside.one, own)?;
        return Ok(comes_to(1, passed));
    }
    let reached = leave_slot(
        alloc,
        setup,
        window,
        beside.fault,
        beside.one,
        at.passed,
        at.seen,
        at.possible,
        own,
        slot,
    )?;
    Ok(comes_to(reached.slot, reached.passed))
}

/// A fault behind a slot of which nothing was found before: it went through it in lockstep, or it is run whole through it, if it hasn't passed it.
fn leave_open<N: World, L: Ledger>(
    alloc: Global,
    setup: &Setup<'_, N>,
    window: &TraceWindow<N>,
    strobes: &WindowStrobes,
    machine: &mut Machine<'_>,
    log: &mut SlotLog,
    own: &mut ShardFault,
    at: &mut FaultAt,
    beside: FaultBeside,
    slot: u32,
    steps: &mut Steps<L>,
) -> Result<(), NoMemory>
    requires one { window.now.before ≡ 0 → window.now.through ≡ 1 }
    requires more { window.now.before ≡ 0 → 1 < length (good_slots N.design N.plan) }
    requires slot { window.now.before + slot < window.now.through }
    requires room { IsRoom N.design machine.old }
    requires strobes { AreStrobesOf N.design N.plan window.now.before window.now.through strobes.now }
    requires behind { HasPassed N.design N.plan window.now.through (passed_behind strobes.now) }
    requires none { own.old.end ≡ None }
    requires went { WentThrough N.design N.plan window.now.before window.now.through slot own.old at.old beside }
    ensures within { OnOk result (IsWithin N.design N.plan window.now.before window.now.through own.new at.new) }
    ensures come { OnOk result (own.new.end ≡ None → slot + 1 ≤ at.new.slot) }
    ensures stays { OnOk result (StaysFault own.old own.new) }
    ensures room { OnOk result (IsRoom N.design machine.new) }
    ensures ticks { OnOk result (RisesOwn N.design N.plan (λ tally. steps_of_fault tally (window.now.before + slot) own.old) (λ tally. steps_of_fault tally (window.now.before + (slot + 1)) own.new)
        steps.old (steps.new + length beside.one.tried.items)) }
{
    slots_take_own();
    own_gradings::own_steps_rise();
    let design = setup.design();
    if slot < at.slot {
        return Ok(());
    }
    if beside.goes {
        let came = leave_going(alloc, setup, window, beside, own, *at, slot)?;
        *at = came;
        return Ok(());
    }
    // What it took itself in the slot isn't taken again.
    if window.begins() == 0 {
        begin_fault(
            alloc,
            setup,
            window,
            1,
            strobes,
            beside.fault,
            &beside.one.tried,
            log,
            own,
            steps,
        )?;
        *at = comes_to(1, count_behind(setup, strobes));
        return Ok(());
    }
    let came = run_whole(
        alloc,
        setup,
        window,
        strobes,
        beside.fault,
        &beside.one.tried,
        machine,
        log,
        own,
        *at,
        steps,
    )?;
    *at = came;
    Ok(())
}

/// A fault behind a slot of which nothing was found before, and which didn't enter it: it is run whole through it, if it hasn't passed it.
fn leave_rest<N: World, L: Ledger>(
    alloc: Global,
    setup: &Setup<'_, N>,
    window: &TraceWindow<N>,
    strobes: &WindowStrobes,
    machine: &mut Machine<'_>,
    log: &mut SlotLog,
    own: &mut ShardFault,
    at: &mut FaultAt,
    slot: u32,
    steps: &mut Steps<L>,
) -> Result<(), NoMemory>
    requires slot { window.now.before + slot < window.now.through }
    requires room { IsRoom N.design machine.old }
    requires strobes { AreStrobesOf N.design N.plan window.now.before window.now.through strobes.now }
    requires behind { HasPassed N.design N.plan window.now.through (passed_behind strobes.now) }
    requires none { own.old.end ≡ None }
    requires rests { Rests N.design N.plan window.now.before window.now.through slot own.old at.old }
    ensures within { OnOk result (IsWithin N.design N.plan window.now.before window.now.through own.new at.new) }
    ensures come { OnOk result (own.new.end ≡ None → slot + 1 ≤ at.new.slot) }
    ensures stays { OnOk result (StaysFault own.old own.new) }
    ensures room { OnOk result (IsRoom N.design machine.new) }
    ensures ticks { OnOk result (RisesOwn N.design N.plan (λ tally. steps_of_fault tally (window.now.before + slot) own.old) (λ tally. steps_of_fault tally (window.now.before + (slot + 1)) own.new)
        steps.old steps.new) }
{
    own_gradings::own_steps_rise();
    let design = setup.design();
    if slot < at.slot {
        return Ok(());
    }
    let fault = listed_fault(setup, &own.copy);
    let tried = Vec::new(alloc);
    let came = run_whole(
        alloc, setup, window, strobes, fault, &tried, machine, log, own, *at, steps,
    )?;
    *at = came;
    Ok(())
}

/// A fault behind a slot. If its grading ended there it keeps no copy any more.
fn leave_one<N: World, L: Ledger>(
    alloc: Global,
    setup: &Setup<'_, N>,
    window: &TraceWindow<N>,
    strobes: &WindowStrobes,
    machine: &mut Machine<'_>,
    log: &mut SlotLog,
    own: &mut ShardFault,
    at: &mut FaultAt,
    found: Option<FaultBeside>,
    slot: u32,
    steps: &mut Steps<L>,
) -> Result<(), NoMemory>
    requires one { window.now.before ≡ 0 → window.now.through ≡ 1 }
    requires more { window.now.before ≡ 0 → 1 < length (good_slots N.design N.plan) }
    requires slot { window.now.before + slot < window.now.through }
    requires room { IsRoom N.design machine.old }
    requires strobes { AreStrobesOf N.design N.plan window.now.before window.now.through strobes.now }
    requires behind { HasPassed N.design N.plan window.now.through (passed_behind strobes.now) }
    requires went { WentIf N.design N.plan window.now.before window.now.through slot own.old at.old found }
    ensures within { OnOk result (IsWithin N.design N.plan window.now.before window.now.through own.new at.new) }
    ensures come { OnOk result (own.new.end ≡ None → slot + 1 ≤ at.new.slot) }
    ensures stays { OnOk result (StaysFault own.old own.new) }
    ensures room { OnOk result (IsRoom N.design machine.new) }
    ensures ticks { OnOk result (RisesOwn N.design N.plan (λ tally. steps_of_fault tally (window.now.before + slot) own.old) (λ tally. steps_of_fault tally (window.now.before + (slot + 1)) own.new)
        steps.old (steps.new + tried_if found)) }
{
    own_gradings::own_steps_rise();
    let design = setup.design();
    if own.end.is_some() {
        return Ok(());
    }
    let Some(beside) = found else {
        leave_rest(
            alloc, setup, window, strobes, machine, log, own, at, slot, steps,
        )?;
        let_go_ended(alloc, own);
        return Ok(());
    };
    leave_open(
        alloc, setup, window, strobes, machine, log, own, at, beside, slot, steps,
    )?;
    let_go_ended(alloc, own);
    Ok(())
}

/// The faults of a shard behind a slot.
///
/// # Errors
///
/// Want of memory.
pub(crate) fn leave_each<N: World, L: Ledger>(
    alloc: Global,
    setup: &Setup<'_, N>,
    window: &TraceWindow<N>,
    strobes: &WindowStrobes,
    machine: &mut Machine<'_>,
    log: &mut SlotLog,
    faults: &mut Vec<ShardFault>,
    ats: &mut Vec<FaultAt>,
    entered: Vec<bool>,
    besides: Vec<FaultBeside>,
    slot: u32,
    steps: &mut Steps<L>,
) -> Result<(), NoMemory>
    requires one { window.now.before ≡ 0 → window.now.through ≡ 1 }
    requires more { window.now.before ≡ 0 → 1 < length (good_slots N.design N.plan) }
    requires slot { window.now.before + slot < window.now.through }
    requires room { IsRoom N.design machine.old }
    requires strobes { AreStrobesOf N.design N.plan window.now.before window.now.through strobes.now }
    requires behind { HasPassed N.design N.plan window.now.through (passed_behind strobes.now) }
    requires gone { HaveGone N.design N.plan window.now.before window.now.through slot faults.old.items ats.old.items entered.items besides.items }
    ensures within { OnOk result (AreWithin N.design N.plan window.now.before window.now.through (slot + 1) faults.new.items ats.new.items) }
    ensures faults { OnOk result (AllZip StaysFault faults.old.items faults.new.items) }
    ensures room { OnOk result (IsRoom N.design machine.new) }
    ensures ticks { OnOk result (RisesOwn N.design N.plan (λ tally. steps_of_faults tally (window.now.before + slot) faults.old.items)
        (λ tally. steps_of_faults tally (window.now.before + (slot + 1)) faults.new.items) steps.old (steps.new + sum_by ticked_of besides.items)) }
{
    let mut entered = entered;
    let mut besides = besides;
    'faults: while let Some(goes) = entered.pop() {
        let place = entered.len();
        let found = last_if(&mut besides, goes);
        let own = &mut faults[place];
        let at = &mut ats[place];
        leave_one(
            alloc, setup, window, strobes, machine, log, own, at, found, slot, steps,
        )?;
    }
    Ok(())
}
