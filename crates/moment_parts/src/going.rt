// What a window tells of the state before a slot.

ghost use Rattle.std.specs.Prelude.{◌≡◌, ◌+◌, ◌<◌, ◌≤◌, ◌^◌, ℕ, [], Some, get_or, length, slice_get, OnOk};
ghost use Rattle.v_design.specs.Assignments.{value_at};
ghost use Rattle.trace_window.specs.Moments.{window_values};
ghost use Rattle.between_slots.specs.Between.{activity_through};
ghost use Rattle.between_slots.specs.Updates.{updates_through};
ghost use Rattle.process_code.specs.declared.state.ProcState.{ProcState as StateKept};
ghost use Rattle.good_trace.specs.RunsKept.{Stands};
ghost use Rattle.moment_parts.specs.Lanes.{lanes_left, later_lists};
ghost use Rattle.moment_parts.specs.StatesKept.{AreStatesOf};

use crate::lane::Lane;
use four_value::Vec4;
use good_trace::TraceWindow;
use process_code::ProcState;
use std::alloc::Global;
use v_design::{Due, World};
use vf_base::{NoMemory, ObjectId, ProcId};

/// Puts what the objects hold before the event of a moment of a window in place of as many values.
pub fn put_values<N: World>(window: &TraceWindow<N>, moment: u32, values: &mut Vec<Vec4>)
    requires count { length values.old.items ≡ length N.design.objects }
    requires few { length N.design.objects < 2 ^ 32 }
    ensures count { length values.new.items ≡ length N.design.objects }
    ensures values { (object : ℕ) → object < length N.design.objects →
        get_or values.new.items object [] ≡ value_at (window_values N.design N.plan window.now.before window.now.through moment) object }
{
    'objects: for number in 0..values.len() {
        values[number] = window.value_at(ObjectId(number as u32), moment);
    }
}

/// Puts where the processes stand before a slot of a window in place of as many states.
///
/// # Errors
///
/// Want of memory.
pub fn put_states<N: World>(
    window: &TraceWindow<N>,
    slot: u32,
    states: &mut Vec<ProcState>,
) -> Result<(), NoMemory>
    requires slot { window.now.before + slot ≤ window.now.through }
    requires count { length states.old.items ≡ length N.design.processes }
    requires few { length N.design.processes < 2 ^ 32 }
    requires states { AreStatesOf N.design states.old.items }
    ensures count { OnOk result (length states.new.items ≡ length N.design.processes) }
    ensures stand { OnOk result ((process : ℕ) (own : StateKept) → slice_get states.new.items process ≡ Some own →
        Stands N.design process (activity_through N.design N.plan (window.now.before + slot) process) own) }
{
    'processes: for number in 0..states.len() {
        states[number].copy_from(window.state_before(ProcId(number as u32), slot))?;
    }
    Ok(())
}

/// Puts what the processes have pending before a slot of a window in place of as many lists.
///
/// # Errors
///
/// Want of memory.
pub fn put_later<N: World>(
    alloc: Global,
    window: &TraceWindow<N>,
    slot: u32,
    later: &mut Vec<Vec<Due>>,
) -> Result<(), NoMemory>
    requires slot { window.now.before + slot ≤ window.now.through }
    requires count { length later.old.items ≡ length N.design.processes }
    requires few { length N.design.processes < 2 ^ 32 }
    ensures count { OnOk result (length later.new.items ≡ length N.design.processes) }
    ensures later { OnOk result ((process : ℕ) → process < length N.design.processes →
        get_or (later_lists later.new.items) process [] ≡ updates_through N.design N.plan (window.now.before + slot) process) }
{
    'processes: for number in 0..later.len() {
        later[number] = window.updates_before(alloc, ProcId(number as u32), slot)?;
    }
    Ok(())
}

/// No lane has an update.
pub fn clear_lanes(lanes: &mut Vec<Lane>)
    ensures count { length lanes.new.items ≡ length lanes.old.items }
    ensures none { (process : ℕ) → get_or (lanes_left lanes.new.items) process [] ≡ [] }
{
    'lanes: for place in 0..lanes.len() {
        lanes[place].clear();
    }
}
