// The faults of a shard through a window, slot by slot.

ghost use Rattle.std.specs.Prelude.{◌≡◌, ◌+◌, ◌<◌, ◌≤◌, length, Some, OnOk, sum_by};
ghost use Rattle.std.specs.List.{AllZip, list_any};
ghost use Rattle.vf_base.specs.Lists.{AllHold};
ghost use Rattle.copy_laws.specs.Windows.{good_slots, time_at};
ghost use Rattle.copy_lockstep.specs.Stops.{NoStopThrough};
ghost use Rattle.copy_lockstep.specs.copy_room.Rooms.{IsRoom};
ghost use Rattle.copy_lockstep.specs.graded_steps.Behind.{RisesWithin};
ghost use Rattle.own_gradings.specs.Numbers.{RisesOwn};
ghost use Rattle.copy_lockstep.specs.window_strobes.Passed.{HasPassed};
ghost use Rattle.copy_lockstep.specs.window_strobes.Strobes.{AreStrobesOf, passed_behind};
ghost use Rattle.copy_lockstep.specs.lockstep_block.Rooms.{IsLockstepRoom};
ghost use Rattle.copy_lockstep.specs.lockstep_slot.Beside.{BeginsSlotIf, ComesThroughSlot};
ghost use Rattle.copy_lockstep.specs.phase_faults.Beside.{HasSite, ticked_of};
ghost use Rattle.copy_lockstep.specs.slot_laws.Slots.{AreOfOneWindow};
ghost use Rattle.copy_lockstep.specs.copy_window.ShardFaults.{IsShardFault};
ghost use Rattle.copy_lockstep.specs.window_faults.Steps.{StaysFault, steps_of_faults};
ghost use Rattle.copy_lockstep.specs.window_faults.Within.{AreWithin, ComesThrough};
ghost use Rattle.shard_slots.specs.Slots.{goes_beside};

use crate::enter::enter_each;
use crate::leave::leave_each;
use crate::room::SlotRoom;
use causal_monitor::SlotLog;
use copy_lockstep::{
    FaultAt, FaultBeside, LockstepRoom, LockstepWindow, Machine, NextTouches, ShardFault,
    WindowStrobes, all_through_slot, begin_each, end_of_lockstep, searches_begin,
};
use good_trace::Setup;
use run_trace::RunWindow;
use std::alloc::Global;
use std::sync::ledger::Ledger;
use v_design::World;
use vf_base::{NoMemory, Steps};

/// Whether some fault goes in the slot in lockstep.
fn some_goes(besides: &[FaultBeside]) -> bool
    ensures { result ≡ list_any goes_beside besides.now }
{
    besides.iter().any(|beside| beside.goes)
}

/// Takes the faults that entered a slot in lockstep through it, side by side.
pub(crate) fn go_beside<N: World, L: Ledger>(
    alloc: Global,
    setup: &Setup<'_, N>,
    view: &LockstepWindow<'_, N>,
    lockstep: &mut LockstepRoom<'_, N>,
    touches: &mut NextTouches<N>,
    besides: &mut Vec<FaultBeside>,
    slot: u32,
    steps: &mut Steps<L>,
) -> Result<(), NoMemory>
    requires window { AreOfOneWindow view.now.window.now view.now.blocks.now view.now.wakes.now }
    requires slot { view.now.window.now.before + slot < view.now.window.now.through }
    requires lockstep { IsLockstepRoom N.design lockstep.old.runner lockstep.old.before lockstep.old.behind lockstep.old.counts }
    requires sites { AllHold (HasSite N.design) besides.old.items }
    requires begins { AllHold (BeginsSlotIf N.design N.plan view.now.window.now.before view.now.window.now.through slot) besides.old.items }
    ensures besides { OnOk result (AllZip (ComesThroughSlot N.design N.plan (view.now.window.now.before + slot)) besides.old.items besides.new.items) }
    ensures lockstep { OnOk result (IsLockstepRoom N.design lockstep.new.runner lockstep.new.before lockstep.new.behind lockstep.new.counts) }
    ensures ticks { OnOk result (RisesWithin (sum_by ticked_of besides.old.items) (sum_by ticked_of besides.new.items) steps.old steps.new) }
{
    if !some_goes(besides) {
        return Ok(());
    }
    all_through_slot(alloc, setup, view, lockstep, touches, besides, slot, steps)?;
    Ok(())
}

/// Takes the faults of a shard through a slot of a window, those before it in lockstep or whole; the others have passed it.
fn go_slot<N: World, L: Ledger>(
    alloc: Global,
    setup: &Setup<'_, N>,
    view: &LockstepWindow<'_, N>,
    strobes: &WindowStrobes,
    machine: &mut Machine<'_>,
    lockstep: &mut LockstepRoom<'_, N>,
    touches: &mut NextTouches<N>,
    log: &mut SlotLog,
    faults: &mut Vec<ShardFault>,
    ats: &mut Vec<FaultAt>,
    slot: u32,
    last: u32,
    steps: &mut Steps<L>,
) -> Result<(), NoMemory>
    requires window { AreOfOneWindow view.now.window.now view.now.blocks.now view.now.wakes.now }
    requires some { 0 < view.now.window.now.before }
    requires slot { view.now.window.now.before + slot < view.now.window.now.through }
    requires last { view.now.window.now.before + last ≤ view.now.window.now.through }
    requires fine { NoStopThrough N.design N.plan (view.now.window.now.before + last) }
    requires room { IsRoom N.design machine.old }
    requires lockstep { IsLockstepRoom N.design lockstep.old.runner lockstep.old.before lockstep.old.behind lockstep.old.counts }
    requires strobes { AreStrobesOf N.design N.plan view.now.window.now.before view.now.window.now.through strobes.now }
    requires behind { HasPassed N.design N.plan view.now.window.now.through (passed_behind strobes.now) }
    requires within { AreWithin N.design N.plan view.now.window.now.before view.now.window.now.through slot faults.old.items ats.old.items }
    ensures within { OnOk result (AreWithin N.design N.plan view.now.window.now.before view.now.window.now.through (slot + 1) faults.new.items ats.new.items) }
    ensures faults { OnOk result (AllZip StaysFault faults.old.items faults.new.items) }
    ensures room { OnOk result (IsRoom N.design machine.new) }
    ensures lockstep { OnOk result (IsLockstepRoom N.design lockstep.new.runner lockstep.new.before lockstep.new.behind lockstep.new.counts) }
    ensures ticks { OnOk result (RisesOwn N.design N.plan (λ tally. steps_of_faults tally (view.now.window.now.before + slot) faults.old.items)
        (λ tally. steps_of_faults tally (view.now.window.now.before + (slot + 1)) faults.new.items) steps.old steps.new) }
{
    searches_begin();
    own_gradings::own_steps_rise();
    let plan = setup.plan();
    let entrants = enter_each(alloc, setup, view, faults, ats, slot, last)?;
    let entered = entrants.entered;
    let mut besides = entrants.besides;
    go_beside(
        alloc,
        setup,
        view,
        lockstep,
        touches,
        &mut besides,
        slot,
        steps,
    )?;
    leave_each(
        alloc,
        setup,
        view.window,
        strobes,
        machine,
        log,
        faults,
        ats,
        entered,
        besides,
        slot,
        steps,
    )?;
    Ok(())
}

/// Takes the faults of a shard through a window that isn't the first one; `now` is the time, in steps, of the last slot before it.
fn go_through<N: World, L: Ledger>(
    alloc: Global,
    setup: &Setup<'_, N>,
    view: &LockstepWindow<'_, N>,
    strobes: &WindowStrobes,
    now: u64,
    machine: &mut Machine<'_>,
    lockstep: &mut LockstepRoom<'_, N>,
    touches: &mut NextTouches<N>,
    log: &mut SlotLog,
    faults: &mut Vec<ShardFault>,
    steps: &mut Steps<L>,
) -> Result<(), NoMemory>
    requires window { AreOfOneWindow view.now.window.now view.now.blocks.now view.now.wakes.now }
    requires some { 0 < view.now.window.now.before }
    requires room { IsRoom N.design machine.old }
    requires lockstep { IsLockstepRoom N.design lockstep.old.runner lockstep.old.before lockstep.old.behind lockstep.old.counts }
    requires strobes { AreStrobesOf N.design N.plan view.now.window.now.before view.now.window.now.through strobes.now }
    requires behind { HasPassed N.design N.plan view.now.window.now.through (passed_behind strobes.now) }
    requires now { view.now.window.now.before < length (good_slots N.design N.plan) → time_at N.design N.plan view.now.window.now.before ≡ Some now }
    requires faults { AllHold (IsShardFault N.design N.plan view.now.window.now.before strobes.now.passed) faults.old.items }
    ensures faults { OnOk result (AllZip (ComesThrough N.design N.plan view.now.window.now.through (passed_behind strobes.now)) faults.old.items faults.new.items) }
    ensures room { OnOk result (IsRoom N.design machine.new) }
    ensures lockstep { OnOk result (IsLockstepRoom N.design lockstep.new.runner lockstep.new.before lockstep.new.behind lockstep.new.counts) }
    ensures ticks { OnOk result (RisesOwn N.design N.plan (λ tally. steps_of_faults tally view.now.window.now.before faults.old.items)
        (λ tally. steps_of_faults tally view.now.window.now.through faults.new.items) steps.old steps.new) }
{
    beside_laws::faults_go_on();
    let design = setup.design();
    let mut ats = begin_each(alloc, setup, view.window, strobes, now, faults)?;
    let last = end_of_lockstep(setup, view.window, strobes);
    let slots = view.window.slots();
    'slots: for slot in 0..slots {
        go_slot(
            alloc, setup, view, strobes, machine, lockstep, touches, log, faults, &mut ats, slot,
            last, steps,
        )?;
    }
    Ok(())
}

/// A window of the good first run as faults in lockstep look at it.
pub(crate) fn view_of<'w, N: World>(run: &'w RunWindow<N>) -> LockstepWindow<'w, N>
    ensures window { result.window.now ≡ run.now }
    ensures one { AreOfOneWindow result.window.now result.blocks.now result.wakes.now }
{
    LockstepWindow {
        window: run.window(),
        blocks: run.blocks(),
        wakes: run.wakes(),
    }
}

/// Takes the faults of a shard through a window that isn't the first one; `now` is the time, in steps, of the last slot before it. The strobes are the window's, and `log` is room
/// for the log of a slot. `steps` ticks at most once for each own step of the faulty machines. The answer is the room, which may be used again.
///
/// # Errors
///
/// Want of memory.
pub fn go_through_window<'d, N: World, L: Ledger>(
    alloc: Global,
    setup: &Setup<'d, N>,
    run: &RunWindow<N>,
    strobes: &WindowStrobes,
    now: u64,
    room: SlotRoom<'d, N>,
    log: &mut SlotLog,
    faults: &mut Vec<ShardFault>,
    steps: &mut Steps<L>,
) -> Result<SlotRoom<'d, N>, NoMemory>
    requires some { 0 < run.now.before }
    requires strobes { AreStrobesOf N.design N.plan run.now.before run.now.through strobes.now }
    requires behind { HasPassed N.design N.plan run.now.through (passed_behind strobes.now) }
    requires now { run.now.before < length (good_slots N.design N.plan) → time_at N.design N.plan run.now.before ≡ Some now }
    requires faults { AllHold (IsShardFault N.design N.plan run.now.before strobes.now.passed) faults.old.items }
    ensures faults { OnOk result (AllZip (ComesThrough N.design N.plan run.now.through (passed_behind strobes.now)) faults.old.items faults.new.items) }
    ensures ticks { OnOk result (RisesOwn N.design N.plan (λ tally. steps_of_faults tally run.now.before faults.old.items) (λ tally. steps_of_faults tally run.now.through faults.new.items)
        steps.old steps.new) }
{
    let mut machine = room.machine;
    let mut lockstep = room.lockstep;
    let mut touches = room.touches;
    let start = room.start;
    let view = view_of(run);
    go_through(
        alloc,
        setup,
        &view,
        strobes,
        now,
        &mut machine,
        &mut lockstep,
        &mut touches,
        log,
        faults,
        steps,
    )?;
    Ok(SlotRoom {
        machine,
        lockstep,
        touches,
        start,
    })
}
