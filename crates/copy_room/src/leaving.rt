// What of a room's state a copy keeps.

ghost use Rattle.std.specs.Prelude.{◌≡◌, ◌+◌, ◌<◌, ◌≤◌, length, OnOk};
ghost use Rattle.vf_base.specs.Base.{process_number};
ghost use Rattle.v_design.specs.Assignments.{value_at};
ghost use Rattle.v_design.specs.Designs.{StuckAt, faulty_machine};
ghost use Rattle.v_design.specs.States.{process_at};
ghost use Rattle.v_design.specs.WellFormed.{KeepsRules};
ghost use Rattle.between_slots.specs.Between.{state_through};
ghost use Rattle.copy_between.specs.Differing.{IsDifference, IsKeptAt, AreKeptBelow};
ghost use Rattle.copy_between.specs.Beside.{IsCopyOf, KeepsWithin, TellsOwn};
ghost use Rattle.machine.specs.declared.parts.Stage.{Stage};
ghost use Rattle.machine.specs.Standing.{IsStanding, StandsBetween, machine_kept, state_kept};
ghost use Rattle.copy_room.specs.Rooms.{CanEnter};

use crate::counts::counts_of;
use copy_between::{differences_stand, keep_state, keep_updates};
use copy_state::FaultCopy;
use good_trace::{Setup, TraceWindow};
use machine::Machine;
use std::alloc::Global;
use v_design::{Values, World};
use vf_base::{NoMemory, ObjectId, ProcId};

/// Of each of so many objects the room's value is kept where it isn't the good machine's.
fn keep_values<N: World>(
    copy: &mut FaultCopy,
    room: &Machine<'_>,
    window: &TraceWindow<N>,
    slot: u32,
    objects: u32,
) -> Result<(), NoMemory>
    requires slot { window.now.before + slot ≤ window.now.through }
    requires count { objects ≡ length N.design.objects }
    requires design { (machine_kept room.now).design ≡ N.design }
    requires between { StandsBetween (machine_kept room.now) (state_kept room.now) }
    ensures rest { OnOk result (copy.new ≡ record copy.old { values = copy.new.values }) }
    ensures kept { OnOk result (AreKeptBelow (λ object. IsDifference (value_at (state_through N.design N.plan (window.now.before + slot)).values object)
        (value_at (state_kept room.now).values object)) objects copy.old.values copy.new.values) }
{
    window.rests_before(slot);
    let moment = window.first_moment(slot);
    'objects: for number in 0..objects {
        let object = ObjectId(number);
        let good = window.value_at(object, moment);
        copy.set(object, good, room.value(object))?;
    }
    Ok(())
}

/// Of a process the room's state and updates are kept where they aren't the good machine's.
fn keep_process<N: World>(
    alloc: Global,
    copy: &mut FaultCopy,
    room: &Machine<'_>,
    window: &TraceWindow<N>,
    slot: u32,
    process: ProcId,
) -> Result<(), NoMemory>
    requires rules { KeepsRules N.design }
    requires slot { window.now.before + slot ≤ window.now.through }
    requires process { process_number process < length N.design.processes }
    requires standing { IsStanding room.now }
    requires design { (machine_kept room.now).design ≡ N.design }
    ensures rest { OnOk result (copy.new ≡ record copy.old { states = copy.new.states; updates = copy.new.updates }) }
    ensures states { OnOk result (IsKeptAt (TellsOwn N.design (process_number process) (process_at (state_through N.design N.plan (window.now.before + slot)) (process_number process)).activity
        (process_at (state_kept room.now) (process_number process)).activity) (process_number process) copy.old.states copy.new.states) }
    ensures updates { OnOk result (IsKeptAt (IsDifference (process_at (state_through N.design N.plan (window.now.before + slot)) (process_number process)).later
        (process_at (state_kept room.now) (process_number process)).later) (process_number process) copy.old.updates copy.new.updates) }
{
    keep_state(
        alloc,
        copy,
        process,
        window.state_before(process, slot),
        room.state_of(process),
    )?;
    let good = window.updates_before(alloc, process, slot)?;
    keep_updates(
        alloc,
        copy,
        process,
        good.as_slice(),
        room.updates_of(process),
    )?;
    Ok(())
}

/// The same of each of so many processes.
fn keep_processes<N: World>(
    alloc: Global,
    copy: &mut FaultCopy,
    room: &Machine<'_>,
    window: &TraceWindow<N>,
    slot: u32,
    processes: u32,
) -> Result<(), NoMemory>
    requires rules { KeepsRules N.design }
    requires slot { window.now.before + slot ≤ window.now.through }
    requires count { processes ≡ length N.design.processes }
    requires standing { IsStanding room.now }
    requires design { (machine_kept room.now).design ≡ N.design }
    ensures rest { OnOk result (copy.new ≡ record copy.old { states = copy.new.states; updates = copy.new.updates }) }
    ensures states { OnOk result (AreKeptBelow (λ process. TellsOwn N.design process (process_at (state_through N.design N.plan (window.now.before + slot)) process).activity
        (process_at (state_kept room.now) process).activity) processes copy.old.states copy.new.states) }
    ensures updates { OnOk result (AreKeptBelow (λ process. IsDifference (process_at (state_through N.design N.plan (window.now.before + slot)) process).later
        (process_at (state_kept room.now) process).later) processes copy.old.updates copy.new.updates) }
{
    'processes: for number in 0..processes {
        keep_process(alloc, copy, room, window, slot, ProcId(number))?;
    }
    Ok(())
}

/// A copy keeps just what of a room's state, which stands between two slots, isn't the good machine's before the slot of a number of a window, and behind its last slot at
/// the window's end; what it kept before is forgotten. So it may be entered again there, at the time of the room's state.
///
/// # Errors
///
/// Want of memory. The copy isn't to be used again then.
pub fn leave<N: World>(
    alloc: Global,
    copy: &mut FaultCopy,
    room: &Machine<'_>,
    setup: &Setup<'_, N>,
    window: &TraceWindow<N>,
    slot: u32,
) -> Result<(), NoMemory>
    requires standing { IsStanding room.now }
    requires between { room.now.stage ≡ Stage.Between }
    requires design { (machine_kept room.now).design ≡ N.design }
    requires slot { window.now.before + slot ≤ window.now.through }
    requires within { KeepsWithin (length N.design.objects) (length N.design.processes) copy.old }
    ensures fault { OnOk result (copy.new.fault ≡ copy.old.fault) }
    ensures copy { OnOk result (IsCopyOf setup.now.codes (state_through N.design N.plan (window.now.before + slot)) (state_kept room.now) copy.new) }
    ensures within { OnOk result (KeepsWithin (length N.design.objects) (length N.design.processes) copy.new) }
    ensures again { OnOk result ((fault : StuckAt) → machine_kept room.now ≡ faulty_machine N.design fault →
        CanEnter setup.now.codes N.design N.plan (window.now.before + slot) fault (state_kept room.now).time copy.new) }
{
    differences_stand();
    window.rests_before(slot);
    room.stands_between();
    let counts = counts_of(setup);
    keep_values(copy, room, window, slot, counts.objects)?;
    keep_processes(alloc, copy, room, window, slot, counts.processes)?;
    copy.ascending();
    Ok(())
}
