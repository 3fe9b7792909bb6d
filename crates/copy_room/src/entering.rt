// The state for which a copy stands is put into a room.

ghost use Rattle.std.specs.Prelude.{◌≡◌, ◌+◌, ◌<◌, ◌≤◌, List, length, IfOk, OnOk};
ghost use Rattle.vf_base.specs.Base.{process_number};
ghost use Rattle.v_design.specs.Designs.{faulty_machine};
ghost use Rattle.v_design.specs.Plain.{fault_of};
ghost use Rattle.v_design.specs.States.{State, process_at};
ghost use Rattle.process_code.specs.declared.code.Code.{Code};
ghost use Rattle.run_ends.specs.RunEnds.{AreCodesOf};
ghost use Rattle.between_slots.specs.Between.{state_through};
ghost use Rattle.copy_between.specs.Beside.{IsCopyOf};
ghost use Rattle.good_trace.specs.RunsKept.{Stands};
ghost use Rattle.copy_room.specs.Rooms.{IsRoom, CanEnter, HasEntered};
ghost use Rattle.copy_room.specs.Putting.{IsPlaced, CanPut};

use crate::counts::counts_of;
use causal_monitor::SlotLog;
use copy_state::FaultCopy;
use good_trace::{Setup, TraceWindow};
use machine::Machine;
use process_code::{ProcState, codes_are_one};
use std::alloc::Global;
use v_design::{Fault, World};
use vf_base::{NoMemory, ObjectId, ProcId};

/// Each of so many objects comes to hold what it holds in the state.
fn put_values<N: World>(
    room: &mut Machine<'_>,
    window: &TraceWindow<N>,
    slot: u32,
    copy: &FaultCopy,
    objects: u32,
)
    requires slot { window.now.before + slot ≤ window.now.through }
    requires count { objects ≡ length N.design.objects }
    requires put { CanPut N.design N.plan (window.now.before + slot) copy.now 0 0 room.old }
    ensures { (of : CanPut N.design N.plan (window.now.before + slot) copy.now 0 0 room.old) → IsPlaced (faulty_machine N.design of.fault) of.faulty objects 0 room.new }
{
    let moment = window.first_moment(slot);
    'objects: for number in 0..objects {
        let object = ObjectId(number);
        let good = window.value_at(object, moment);
        room.put_value(object, copy.value(object, good));
    }
}

/// Where a process stands in the state.
fn state_in<N: World>(
    alloc: Global,
    window: &TraceWindow<N>,
    slot: u32,
    copy: &FaultCopy,
    process: ProcId,
) -> Result<ProcState, NoMemory>
    requires slot { window.now.before + slot ≤ window.now.through }
    requires process { process_number process < length N.design.processes }
    ensures { IfOk result (λ state. (codes : List Code) (faulty : State) → AreCodesOf N.design codes →
        IsCopyOf codes (state_through N.design N.plan (window.now.before + slot)) faulty copy.now →
        Stands N.design (process_number process) (process_at faulty (process_number process)).activity state) }
{
    codes_are_one();
    if let Some(own) = copy.process(process) {
        let state = own.copy(alloc)?;
        return Ok(state);
    }
    let state = window.state_before(process, slot).copy(alloc)?;
    Ok(state)
}

/// A process comes to stand where it stands in the state.
fn put_process<N: World>(
    alloc: Global,
    room: &mut Machine<'_>,
    window: &TraceWindow<N>,
    slot: u32,
    copy: &FaultCopy,
    process: ProcId,
) -> Result<(), NoMemory>
    requires slot { window.now.before + slot ≤ window.now.through }
    requires process { process_number process < length N.design.processes }
    requires put { CanPut N.design N.plan (window.now.before + slot) copy.now (length N.design.objects) (process_number process) room.old }
    ensures { OnOk result ((of : CanPut N.design N.plan (window.now.before + slot) copy.now (length N.design.objects) (process_number process) room.old) →
        IsPlaced (faulty_machine N.design of.fault) of.faulty (length N.design.objects) (process_number process + 1) room.new) }
{
    let state = state_in(alloc, window, slot, copy, process)?;
    if let Some(own) = copy.updates(process) {
        room.put_process(process, state, own)?;
        return Ok(());
    }
    let good = window.updates_before(alloc, process, slot)?;
    room.put_process(process, state, good.as_slice())?;
    Ok(())
}

/// Each of so many processes comes to stand where it stands in the state.
fn put_processes<N: World>(
    alloc: Global,
    room: &mut Machine<'_>,
    window: &TraceWindow<N>,
    slot: u32,
    copy: &FaultCopy,
    processes: u32,
) -> Result<(), NoMemory>
    requires slot { window.now.before + slot ≤ window.now.through }
    requires count { processes ≡ length N.design.processes }
    requires put { CanPut N.design N.plan (window.now.before + slot) copy.now (length N.design.objects) 0 room.old }
    ensures { OnOk result ((of : CanPut N.design N.plan (window.now.before + slot) copy.now (length N.design.objects) 0 room.old) →
        IsPlaced (faulty_machine N.design of.fault) of.faulty (length N.design.objects) processes room.new) }
{
    'processes: for number in 0..processes {
        put_process(alloc, room, window, slot, copy, ProcId(number))?;
    }
    Ok(())
}

/// A room becomes the faulty machine of a fault, and stands between two slots in the state, at a time in steps, for which a copy stands beside the good machine's state
/// before the slot of a number of a window, and behind its last slot beside that at the window's end. `log` is left without phases.
///
/// # Errors
///
/// Want of memory. The room isn't to be used again then.
pub fn enter<N: World>(
    alloc: Global,
    room: &mut Machine<'_>,
    log: &mut SlotLog,
    setup: &Setup<'_, N>,
    window: &TraceWindow<N>,
    slot: u32,
    copy: &FaultCopy,
    fault: Fault,
    time: u64,
) -> Result<(), NoMemory>
    requires room { IsRoom N.design room.old }
    requires slot { window.now.before + slot ≤ window.now.through }
    requires copy { CanEnter setup.now.codes N.design N.plan (window.now.before + slot) (fault_of fault) time copy.now }
    ensures { OnOk result ((of : CanEnter setup.now.codes N.design N.plan (window.now.before + slot) (fault_of fault) time copy.now) →
        HasEntered N.design (fault_of fault) of.faulty room.new) }
{
    let counts = counts_of(setup);
    room.clear(Some(fault), time, log)?;
    put_values(room, window, slot, copy, counts.objects);
    put_processes(alloc, room, window, slot, copy, counts.processes)?;
    room.stand_between();
    Ok(())
}
