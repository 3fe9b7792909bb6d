// A fault run whole through a slot.

ghost use Rattle.std.specs.Prelude.{◌≡◌, ◌+◌, ◌<◌, ◌∷◌, [], length, IfOk, OnOk};
ghost use Rattle.v_design.specs.Plain.{fault_of};
ghost use Rattle.slot_strobes.specs.copy_room.Rooms.{IsRoom};
ghost use Rattle.copy_laws.specs.Windows.{RiseAtMostOwn};
ghost use Rattle.fault_strobes.specs.Said.{plan_by};
ghost use Rattle.slot_strobes.specs.window_strobes.Passed.{HasPassed};
ghost use Rattle.slot_strobes.specs.window_strobes.Strobes.{AreStrobesOf, passed_behind};
ghost use Rattle.slot_strobes.specs.copy_window.ShardFaults.{IsShardFault, SameFault, kept_by};
ghost use Rattle.slot_strobes.specs.window_beside.Tried.{MayTry};
ghost use Rattle.window_faults.specs.Within.{HasComeTo, IsWithin, StandsAfter};

use crate::at::{FaultAt, comes_to, count_behind};
use causal_monitor::SlotLog;
use good_runs::TriedStep;
use good_trace::{Setup, TraceWindow};
use slot_strobes::{
    Machine, ShardFault, WindowStrobes, resume_fault, strobes_after, strobes_of_slot,
};
use std::alloc::Global;
use std::sync::ledger::Ledger;
use v_design::{Fault, World};
use vf_base::{NoMemory, Steps};

/// Grades a fault through the slots of a window that come behind so many.
fn resume_behind<N: World, L: Ledger>(
    alloc: Global,
    setup: &Setup<'_, N>,
    window: &TraceWindow<N>,
    passed: u32,
    strobes: &WindowStrobes,
    fault: Fault,
    tried: &[TriedStep],
    machine: &mut Machine<'_>,
    log: &mut SlotLog,
    own: &mut ShardFault,
    steps: &mut Steps<L>,
) -> Result<(), NoMemory>
    requires some { 0 < window.now.before }
    requires more { window.now.before + passed < window.now.through }
    requires room { IsRoom N.design machine.old }
    requires strobes { AreStrobesOf N.design N.plan window.now.before window.now.through strobes.now }
    requires fault { StandsAfter N.design N.plan (window.now.before + passed) strobes.now.passed (fault_of fault) own.old }
    requires tried { MayTry N.design (plan_by (kept_by own.old) N.plan) (window.now.before + passed) (fault_of fault) tried.now }
    ensures fault { OnOk result (IsShardFault N.design N.plan window.now.through (passed_behind strobes.now) own.new) }
    ensures place { OnOk result (SameFault own.old own.new) }
    ensures room { OnOk result (IsRoom N.design machine.new) }
    ensures ticks { OnOk result (RiseAtMostOwn N.design (plan_by (kept_by own.old) N.plan) (window.now.before + passed) window.now.through (fault_of fault ∷ []) steps.old
        (steps.new + length tried.now)) }
{
    let end = window.slots();
    if passed == 0 {
        resume_fault(
            alloc, setup, window, 0, end, strobes, fault, tried, machine, log, own, steps,
        )?;
        return Ok(());
    }
    let rest = strobes_after(alloc, setup, window, strobes, passed)?;
    resume_fault(
        alloc, setup, window, passed, end, &rest, fault, tried, machine, log, own, steps,
    )?;
    Ok(())
}

/// Runs a fault whole through a slot of a window behind which another one comes, up to which so many of the plan's strobes come. The answer is how many come up to the slot.
fn run_slot<N: World, L: Ledger>(
    alloc: Global,
    setup: &Setup<'_, N>,
    window: &TraceWindow<N>,
    fault: Fault,
    tried: &[TriedStep],
    machine: &mut Machine<'_>,
    log: &mut SlotLog,
    own: &mut ShardFault,
    slot: u32,
    passed: usize,
    steps: &mut Steps<L>,
) -> Result<usize, NoMemory>
    requires some { 0 < window.now.before }
    requires slot { window.now.before + (slot + 1) < window.now.through }
    requires room { IsRoom N.design machine.old }
    requires fault { HasComeTo N.design N.plan (fault_of fault) (window.now.before + slot) passed own.old }
    requires tried { MayTry N.design (plan_by (kept_by own.old) N.plan) (window.now.before + slot) (fault_of fault) tried.now }
    ensures fault { IfOk result (λ behind. IsShardFault N.design N.plan (window.now.before + (slot + 1)) behind own.new) }
    ensures strobes { IfOk result (λ behind. HasPassed N.design N.plan (window.now.before + (slot + 1)) behind) }
    ensures place { OnOk result (SameFault own.old own.new) }
    ensures room { OnOk result (IsRoom N.design machine.new) }
    ensures ticks { OnOk result (RiseAtMostOwn N.design (plan_by (kept_by own.old) N.plan) (window.now.before + slot) (window.now.before + (slot + 1)) (fault_of fault ∷ []) steps.old
        (steps.new + length tried.now)) }
{
    let _first = window.begins();
    // The window has more slots, and their number fits.
    let _all = window.slots();
    let strobes = strobes_of_slot(alloc, setup, window, slot, passed)?;
    let end = slot + 1;
    resume_fault(
        alloc, setup, window, slot, end, &strobes, fault, tried, machine, log, own, steps,
    )?;
    let behind = count_behind(setup, &strobes);
    Ok(behind)
}

/// Runs a fault of which nothing was found whole through a slot of a window. The answer is how far it has come then. `tried` are the steps that the faulty machine took itself in the
/// slot, where it went in lockstep there; `steps` ticks at most once for each own step of the faulty machine, and not for those.
///
/// # Errors
///
/// Want of memory.
pub fn run_whole<N: World, L: Ledger>(
    alloc: Global,
    setup: &Setup<'_, N>,
    window: &TraceWindow<N>,
    strobes: &WindowStrobes,
    fault: Fault,
    tried: &[TriedStep],
    machine: &mut Machine<'_>,
    log: &mut SlotLog,
    own: &mut ShardFault,
    at: FaultAt,
    steps: &mut Steps<L>,
) -> Result<FaultAt, NoMemory>
    requires some { 0 < window.now.before }
    requires slot { window.now.before + at.slot < window.now.through }
    requires room { IsRoom N.design machine.old }
    requires strobes { AreStrobesOf N.design N.plan window.now.before window.now.through strobes.now }
    requires behind { HasPassed N.design N.plan window.now.through (passed_behind strobes.now) }
    requires fault { HasComeTo N.design N.plan (fault_of fault) (window.now.before + at.slot) at.passed own.old }
    requires tried { MayTry N.design (plan_by (kept_by own.old) N.plan) (window.now.before + at.slot) (fault_of fault) tried.now }
    ensures slot { IfOk result (λ came. came.slot ≡ at.slot + 1) }
    ensures within { IfOk result (IsWithin N.design N.plan window.now.before window.now.through own.new) }
    ensures place { OnOk result (SameFault own.old own.new) }
    ensures room { OnOk result (IsRoom N.design machine.new) }
    ensures ticks { OnOk result (RiseAtMostOwn N.design (plan_by (kept_by own.old) N.plan) (window.now.before + at.slot) (window.now.before + (at.slot + 1)) (fault_of fault ∷ []) steps.old
        (steps.new + length tried.now)) }
{
    let slots = window.slots();
    let slot = at.slot;
    let end = slot + 1;
    if end == slots {
        resume_behind(
            alloc, setup, window, slot, strobes, fault, tried, machine, log, own, steps,
        )?;
        let behind = count_behind(setup, strobes);
        return Ok(comes_to(end, behind));
    }
    let behind = run_slot(
        alloc, setup, window, fault, tried, machine, log, own, slot, at.passed, steps,
    )?;
    Ok(comes_to(end, behind))
}
