// A block of the faulty machine's own.

ghost use Rattle.std.specs.Prelude.{◌≡◌, true, length, IfOk, OnOk};
ghost use Rattle.v_design.specs.Plain.{fault_of};
ghost use Rattle.slot_steps.specs.Rises.{RisesWithin};
ghost use Rattle.faulty_block.specs.block_events.Runners.{state_of};
ghost use Rattle.lockstep_steps.specs.lockstep_slots.Places.{behind_events};
ghost use Rattle.lockstep_block.specs.Blocks.{FaultGoes, TriedInSlot};
ghost use Rattle.lockstep_block.specs.Own.{MayRunOwn, RoomStays, RoomTakes, TookOwn};

use crate::beside::{ShownProcesses, compare_beside, put_back_to, run_beside, show};
use crate::ended::{good_ended, note_ended};
use crate::goods::good_phase;
use crate::room::{FaultInSlot, LockstepRoom};
use good_trace::{Setup, TraceWindow};
use lockstep_steps::note_block;
use std::alloc::Global;
use std::sync::ledger::Ledger;
use v_design::{Fault, World};
use vf_base::{NoMemory, Steps};

/// The runner becomes the faulty machine and takes its block, which is compared with the good machine's and noted. The answer is whether lockstep goes on; else nothing is known of what
/// is kept. Each process step that it takes itself is ticked, and put to `tried`, whatever the answer.
fn take_own_block<N: World, L: Ledger>(
    alloc: Global,
    setup: &Setup<'_, N>,
    window: &TraceWindow<N>,
    room: &mut LockstepRoom<'_, N>,
    fault: Fault,
    one: &mut FaultInSlot,
    steps: &mut Steps<L>,
) -> Result<bool, NoMemory>
    requires run { MayRunOwn N.design N.plan (fault_of fault) window.now.before window.now.through room.old.runner room.old.before room.old.behind room.old.counts one.old.notes one.old.own one.old.spare one.old.tried.items one.old.apart.items }
    ensures took { IfOk result (λ goes. goes ≡ true →
        (of : MayRunOwn N.design N.plan (fault_of fault) window.now.before window.now.through room.old.runner room.old.before room.old.behind room.old.counts one.old.notes one.old.own
        one.old.spare one.old.tried.items one.old.apart.items) →
        TookOwn N.design N.plan (fault_of fault) window.now.before window.now.through room.old.runner room.old.before room.old.behind room.old.counts one.old.notes one.old.own one.old.spare
        one.old.tried.items one.old.apart.items of room.new.runner room.new.before room.new.behind room.new.told one.new.notes one.new.own one.new.spare one.new.tried.items one.new.apart.items) }
    ensures fault { IfOk result (λ goes. goes ≡ true → one.new.own.copy.fault ≡ one.old.own.copy.fault) }
    ensures states { IfOk result (λ goes. goes ≡ true → one.new.own.copy.states ≡ one.old.own.copy.states) }
    ensures room { OnOk result (RoomTakes (fault_of fault) room.old.before room.old.behind room.old.counts room.old.runner room.new.before room.new.behind room.new.counts room.new.runner) }
    ensures ticks { OnOk result (RisesWithin (length one.old.tried.items) (length one.new.tried.items) steps.old steps.new) }
    ensures most { OnOk result (
        (of : MayRunOwn N.design N.plan (fault_of fault) window.now.before window.now.through room.old.runner room.old.before room.old.behind room.old.counts one.old.notes one.old.own
        one.old.spare one.old.tried.items one.old.apart.items) → TriedInSlot N.design (fault_of fault) of.slot of.begins one.new.tried.items) }
{
    copy_laws::own_runs();
    race_laws::writes_stay();
    lockstep_laws::phases_fit();
    lockstep_laws::lockstep_is_beside();
    lockstep_laws::lockstep_blocks();
    faulty_block::comparisons_tell();
    own_told::causes_agree();
    lockstep_steps::steps_go_on();
    own_blocks::run_blocks_are_whole();
    slot_steps::slot_steps_go_on();
    machine_laws::stretches_go_on();
    own_slots::tried_steps_go_on();
    own_counts::own_steps_of_slots();
    own_counts::run_numbers_go_on();
    phase_blocks::blocks_are_told();
    copy_laws::shared_runs();
    let first = room.before.moment();
    let end = room.behind.moment();
    let goods = good_phase(window, &room.before, &one.apart);
    let ran = run_beside(
        &mut room.runner,
        &mut room.told,
        &room.behind,
        &one.own,
        fault,
        one.spare,
        &goods,
        &mut room.beside,
        &mut one.tried,
        steps,
    )?;
    let Some(taken) = ran else {
        return Ok(false);
    };
    if !compare_beside(
        alloc,
        setup,
        &room.runner,
        &room.behind,
        &room.told,
        room.counts,
        &mut one.own,
    )? {
        return Ok(false);
    }
    let good = show(setup, &room.behind);
    let behind = ShownProcesses { good };
    note_block(
        setup,
        window,
        &behind,
        &mut one.notes,
        &room.told,
        first,
        end,
        room.behind.changed(),
    )?;
    let ended = good_ended(window, &room.before, &room.behind);
    note_ended(&mut one.apart, room.beside.ended.as_slice(), ended)?;
    one.spare -= taken;
    Ok(true)
}

/// A fault takes a block of its own, beside the good machine's between two moments of a window, of which the later one tells the block. The answer is whether lockstep goes on; else
/// nothing is known of what is kept. The runner is back in the good machine's state before the block, if lockstep goes on; else it is the good machine in some state. `steps` ticks once
/// for each process step that the fault takes itself, and `tried` has these of the slot, whatever the answer: a step of a run that goes as the good machine's of its phase and number is none.
///
/// # Errors
///
/// Want of memory. Room and fault aren't to be used again then.
pub fn run_own_block<N: World, L: Ledger>(
    alloc: Global,
    setup: &Setup<'_, N>,
    window: &TraceWindow<N>,
    room: &mut LockstepRoom<'_, N>,
    fault: Fault,
    one: &mut FaultInSlot,
    steps: &mut Steps<L>,
) -> Result<bool, NoMemory>
    requires run { MayRunOwn N.design N.plan (fault_of fault) window.now.before window.now.through room.old.runner room.old.before room.old.behind room.old.counts one.old.notes one.old.own one.old.spare one.old.tried.items one.old.apart.items }
    ensures goes { IfOk result (λ goes. goes ≡ true →
        (of : MayRunOwn N.design N.plan (fault_of fault) window.now.before window.now.through room.old.runner room.old.before room.old.behind room.old.counts one.old.notes one.old.own
        one.old.spare one.old.tried.items one.old.apart.items) →
        FaultGoes N.design N.plan (fault_of fault) of.slot of.begins window.now.before window.now.through room.old.behind.moment (behind_events of.block of.rest of.place)
        one.new.notes one.new.own one.new.spare one.new.tried.items one.new.apart.items) }
    ensures fault { IfOk result (λ goes. goes ≡ true → one.new.own.copy.fault ≡ one.old.own.copy.fault) }
    ensures states { IfOk result (λ goes. goes ≡ true → one.new.own.copy.states ≡ one.old.own.copy.states) }
    ensures state { IfOk result (λ goes. goes ≡ true → state_of room.new.runner ≡ state_of room.old.runner) }
    ensures room { OnOk result (RoomStays room.old.before room.old.behind room.old.counts room.old.runner room.new.before room.new.behind room.new.counts room.new.runner) }
    ensures ticks { OnOk result (RisesWithin (length one.old.tried.items) (length one.new.tried.items) steps.old steps.new) }
    ensures most { OnOk result (
        (of : MayRunOwn N.design N.plan (fault_of fault) window.now.before window.now.through room.old.runner room.old.before room.old.behind room.old.counts one.old.notes one.old.own
        one.old.spare one.old.tried.items one.old.apart.items) → TriedInSlot N.design (fault_of fault) of.slot of.begins one.new.tried.items) }
{
    if !take_own_block(alloc, setup, window, room, fault, one, steps)? {
        room.runner.set_fault(None);
        return Ok(false);
    }
    put_back_to(
        setup,
        &mut room.runner,
        &room.before,
        &room.behind,
        &room.told,
        room.counts,
        &one.own,
    )?;
    Ok(true)
}
