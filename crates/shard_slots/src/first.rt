// The faults of a shard through the first slot.

ghost use Rattle.std.specs.Prelude.{◌≡◌, ◌<◌, length, replicate, IfOk, None, OnOk};
ghost use Rattle.std.specs.List.{AllZip};
ghost use Rattle.vf_base.specs.Lists.{AllHold};
ghost use Rattle.v_design.specs.Designs.{good_machine};
ghost use Rattle.v_design.specs.States.{start};
ghost use Rattle.copy_laws.specs.Windows.{good_slots};
ghost use Rattle.own_gradings.specs.Numbers.{RisesOwn};
ghost use Rattle.start_copy.specs.Rooms.{IsRoomFor};
ghost use Rattle.copy_lockstep.specs.copy_room.Rooms.{IsRoom};
ghost use Rattle.copy_lockstep.specs.lockstep_block.Rooms.{IsLockstepRoom};
ghost use Rattle.copy_lockstep.specs.slot_laws.Slots.{AreOfOneWindow};
ghost use Rattle.copy_lockstep.specs.window_strobes.Passed.{HasPassed};
ghost use Rattle.copy_lockstep.specs.window_strobes.Strobes.{AreStrobesOf, passed_behind};
ghost use Rattle.copy_lockstep.specs.copy_window.ShardFaults.{IsShardFault};
ghost use Rattle.copy_lockstep.specs.window_faults.Steps.{steps_of_faults};
ghost use Rattle.copy_lockstep.specs.window_faults.Within.{ComesThrough};
ghost use Rattle.shard_slots.specs.Slots.{EntersFirst, HaveEnteredFirst};

use crate::entrants::all_entered;
use crate::leave::leave_each;
use crate::room::SlotRoom;
use crate::slots::{go_beside, view_of};
use causal_monitor::SlotLog;
use copy_lockstep::{
    FaultAt, FaultBeside, LockstepRoom, LockstepWindow, Machine, NextTouches, ShardFault,
    WindowStrobes, enter_slot, listed_fault, rests, searches_begin,
};
use copy_state::FaultCopy;
use four_value::Vec4;
use good_trace::Setup;
use run_trace::RunWindow;
use start_copy::{StartRoom, start_copy};
use std::alloc::Global;
use std::sync::ledger::Ledger;
use v_design::World;
use vf_base::{NoMemory, Steps};

/// A fault before the first slot enters it with what its faulty machine has otherwise than the good one at the start, whose values are given.
fn enter_first<N: World>(
    alloc: Global,
    setup: &Setup<'_, N>,
    view: &LockstepWindow<'_, N>,
    good: &[Vec4],
    room: &mut StartRoom<'_>,
    own: &ShardFault,
) -> Result<FaultBeside, NoMemory>
    requires first { view.now.window.now.before ≡ 0 }
    requires slot { 0 < view.now.window.now.through }
    requires more { 1 < length (good_slots N.design N.plan) }
    requires good { good.now ≡ (start (good_machine N.design)).values }
    requires room { IsRoomFor N.design room.old }
    requires fault { own.now.copy.fault < length N.plan.faults }
    ensures enters { IfOk result (EntersFirst N.design N.plan view.now.window.now.through own.now) }
    ensures room { OnOk result (IsRoomFor N.design room.new) }
{
    beside_laws::good_run_goes_on();
    searches_begin();
    start_copy::starts_in_lockstep();
    let design = setup.design();
    let plan = setup.plan();
    let fault = listed_fault(setup, &own.copy);
    let number = own.copy.fault();
    let mut copy = FaultCopy::new(alloc, number);
    start_copy(fault, good, room, &mut copy)?;
    let found = enter_slot(alloc, view, fault, &copy, 0)?;
    match found {
        None => Ok(rests(alloc, fault, number)),
        Some(one) => Ok(FaultBeside {
            fault,
            one,
            until: 0,
            goes: true,
        }),
    }
}

/// The same of each fault of a shard.
fn enter_first_each<N: World>(
    alloc: Global,
    setup: &Setup<'_, N>,
    view: &LockstepWindow<'_, N>,
    good: &[Vec4],
    room: &mut StartRoom<'_>,
    faults: &[ShardFault],
) -> Result<Vec<FaultBeside>, NoMemory>
    requires first { view.now.window.now.before ≡ 0 }
    requires slot { 0 < view.now.window.now.through }
    requires more { 1 < length (good_slots N.design N.plan) }
    requires good { good.now ≡ (start (good_machine N.design)).values }
    requires room { IsRoomFor N.design room.old }
    requires faults { AllHold (λ (own : ShardFault). own.copy.fault < length N.plan.faults) faults.now }
    ensures entered { IfOk result (λ besides. HaveEnteredFirst N.design N.plan view.now.window.now.through faults.now besides.items) }
    ensures room { OnOk result (IsRoomFor N.design room.new) }
{
    let mut besides = Vec::with_capacity(alloc, faults.len())?;
    'faults: for own in faults {
        let beside = enter_first(alloc, setup, view, good, room, own)?;
        besides.push(beside)?;
    }
    Ok(besides)
}

/// The same beside the good machine, which the room comes to at its start.
fn enter_at_start<N: World>(
    alloc: Global,
    setup: &Setup<'_, N>,
    view: &LockstepWindow<'_, N>,
    lockstep: &mut LockstepRoom<'_, N>,
    room: &mut StartRoom<'_>,
    faults: &[ShardFault],
) -> Result<Vec<FaultBeside>, NoMemory>
    requires first { view.now.window.now.before ≡ 0 }
    requires slot { 0 < view.now.window.now.through }
    requires more { 1 < length (good_slots N.design N.plan) }
    requires lockstep { IsLockstepRoom N.design lockstep.old.runner lockstep.old.before lockstep.old.behind lockstep.old.counts }
    requires room { IsRoomFor N.design room.old }
    requires faults { AllHold (λ (own : ShardFault). own.copy.fault < length N.plan.faults) faults.now }
    ensures entered { IfOk result (λ besides. HaveEnteredFirst N.design N.plan view.now.window.now.through faults.now besides.items) }
    ensures lockstep { OnOk result (IsLockstepRoom N.design lockstep.new.runner lockstep.new.before lockstep.new.behind lockstep.new.counts) }
    ensures room { OnOk result (IsRoomFor N.design room.new) }
{
    order_laws::first_run_goes_on();
    phase_order::phases_follow();
    let design = setup.design();
    lockstep.before.go_to(setup, view.window, 0)?;
    let besides = enter_first_each(alloc, setup, view, lockstep.before.values(), room, faults)?;
    Ok(besides)
}

/// So many faults before the first slot.
fn at_start(alloc: Global, count: usize) -> Result<Vec<FaultAt>, NoMemory>
    ensures { IfOk result (λ ats. ats.items ≡ replicate count (record { slot = 0; passed = 0; seen = 0; possible = None })) }
{
    let first = FaultAt {
        slot: 0,
        passed: 0,
        seen: 0,
        possible: None,
    };
    let ats = vec![in alloc; first; count]?;
    Ok(ats)
}

/// Takes the faults of a shard through the first slot, which is the window's only one, and behind which the good machine goes on.
fn through_first<N: World, L: Ledger>(
    alloc: Global,
    setup: &Setup<'_, N>,
    view: &LockstepWindow<'_, N>,
    strobes: &WindowStrobes,
    machine: &mut Machine<'_>,
    lockstep: &mut LockstepRoom<'_, N>,
    touches: &mut NextTouches<N>,
    room: &mut StartRoom<'_>,
    log: &mut SlotLog,
    faults: &mut Vec<ShardFault>,
    steps: &mut Steps<L>,
) -> Result<(), NoMemory>
    requires window { AreOfOneWindow view.now.window.now view.now.blocks.now view.now.wakes.now }
    requires first { view.now.window.now.before ≡ 0 }
    requires one { view.now.window.now.through ≡ 1 }
    requires more { 1 < length (good_slots N.design N.plan) }
    requires machine { IsRoom N.design machine.old }
    requires lockstep { IsLockstepRoom N.design lockstep.old.runner lockstep.old.before lockstep.old.behind lockstep.old.counts }
    requires room { IsRoomFor N.design room.old }
    requires strobes { AreStrobesOf N.design N.plan view.now.window.now.before view.now.window.now.through strobes.now }
    requires behind { HasPassed N.design N.plan view.now.window.now.through (passed_behind strobes.now) }
    requires faults { AllHold (IsShardFault N.design N.plan view.now.window.now.before strobes.now.passed) faults.old.items }
    ensures faults { OnOk result (AllZip (ComesThrough N.design N.plan view.now.window.now.through (passed_behind strobes.now)) faults.old.items faults.new.items) }
    ensures machine { OnOk result (IsRoom N.design machine.new) }
    ensures lockstep { OnOk result (IsLockstepRoom N.design lockstep.new.runner lockstep.new.before lockstep.new.behind lockstep.new.counts) }
    ensures room { OnOk result (IsRoomFor N.design room.new) }
    ensures ticks { OnOk result (RisesOwn N.design N.plan (λ tally. steps_of_faults tally view.now.window.now.before faults.old.items)
        (λ tally. steps_of_faults tally view.now.window.now.through faults.new.items) steps.old steps.new) }
{
    beside_laws::faults_go_on();
    searches_begin();
    let design = setup.design();
    let plan = setup.plan();
    let count = faults.len();
    let mut ats = at_start(alloc, count)?;
    let entered = all_entered(alloc, count)?;
    let mut besides = enter_at_start(alloc, setup, view, lockstep, room, faults)?;
    go_beside(
        alloc,
        setup,
        view,
        lockstep,
        touches,
        &mut besides,
        0,
        steps,
    )?;
    leave_each(
        alloc,
        setup,
        view.window,
        strobes,
        machine,
        log,
        faults,
        &mut ats,
        entered,
        besides,
        0,
        steps,
    )?;
    Ok(())
}

/// Takes the faults of a shard through the first window, which has the first slot alone, and behind which the good machine goes on. The strobes are the window's, and `log` is room
/// for the log of a slot. `steps` ticks at most once for each own step of the faulty machines. The answer is the room, which may be used again.
///
/// # Errors
///
/// Want of memory.
pub fn go_through_first<'d, N: World, L: Ledger>(
    alloc: Global,
    setup: &Setup<'d, N>,
    run: &RunWindow<N>,
    strobes: &WindowStrobes,
    room: SlotRoom<'d, N>,
    log: &mut SlotLog,
    faults: &mut Vec<ShardFault>,
    steps: &mut Steps<L>,
) -> Result<SlotRoom<'d, N>, NoMemory>
    requires first { run.now.before ≡ 0 }
    requires one { run.now.through ≡ 1 }
    requires more { 1 < length (good_slots N.design N.plan) }
    requires strobes { AreStrobesOf N.design N.plan run.now.before run.now.through strobes.now }
    requires behind { HasPassed N.design N.plan run.now.through (passed_behind strobes.now) }
    requires faults { AllHold (IsShardFault N.design N.plan run.now.before strobes.now.passed) faults.old.items }
    ensures faults { OnOk result (AllZip (ComesThrough N.design N.plan run.now.through (passed_behind strobes.now)) faults.old.items faults.new.items) }
    ensures ticks { OnOk result (RisesOwn N.design N.plan (λ tally. steps_of_faults tally run.now.before faults.old.items) (λ tally. steps_of_faults tally run.now.through faults.new.items)
        steps.old steps.new) }
{
    let mut machine = room.machine;
    let mut lockstep = room.lockstep;
    let mut touches = room.touches;
    let mut start = room.start;
    let view = view_of(run);
    through_first(
        alloc,
        setup,
        &view,
        strobes,
        &mut machine,
        &mut lockstep,
        &mut touches,
        &mut start,
        log,
        faults,
        steps,
    )?;
    Ok(SlotRoom {
        machine,
        lockstep,
        touches,
        start,
    })
}
