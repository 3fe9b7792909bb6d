// Whether own updates are due at the times of the good machine's.

ghost use Rattle.std.specs.Prelude.{◌≡◌, ◌+◌, ◌<◌, ◌≤◌, [], true, length, map, IfOk};
ghost use Rattle.vf_base.specs.Base.{process_number};
ghost use Rattle.v_design.specs.Plain.{due_of};
ghost use Rattle.lockstep_laws.specs.Lockstep.{due_times};
ghost use Rattle.block_skip.specs.Blocks.{AreProcesses};
ghost use Rattle.lockstep_due.specs.Due.{IsDueAlike};
ghost use Rattle.window_faults.specs.lockstep_shards.Shards.{AreDueAlike};

use copy_state::FaultCopy;
use good_trace::{Setup, TraceWindow};
use std::alloc::Global;
use v_design::{Due, World};
use vf_base::{NoMemory, ProcId};

/// Whether pending updates are due at the same times, one after the other.
fn have_same_times(one: &[Due], other: &[Due]) -> bool
    ensures { result ≡ true → due_times (map due_of one.now) ≡ due_times (map due_of other.now) }
{
    if one.len() != other.len() {
        return false;
    }
    'updates: for place in 0..one.len() {
        if one[place].time != other[place].time {
            return false;
        }
    }
    true
}

/// Whether the updates that a copy keeps of a process, if it keeps some, are due at the times of those that the good machine has pending before a slot of a window.
fn is_due_alike<N: World>(
    alloc: Global,
    window: &TraceWindow<N>,
    slot: u32,
    copy: &FaultCopy,
    process: ProcId,
) -> Result<bool, NoMemory>
    requires slot { window.now.before + slot ≤ window.now.through }
    requires process { process_number process < length N.design.processes }
    ensures { IfOk result (λ alike. alike ≡ true → IsDueAlike N.design N.plan (window.now.before + slot) copy.now.updates (process_number process)) }
{
    let Some(own) = copy.updates(process) else {
        return Ok(true);
    };
    let good = window.updates_before(alloc, process, slot)?;
    Ok(have_same_times(own, good.as_slice()))
}

/// The same of each process of which a copy keeps updates.
fn are_due_alike<N: World>(
    alloc: Global,
    setup: &Setup<'_, N>,
    window: &TraceWindow<N>,
    slot: u32,
    copy: &FaultCopy,
) -> Result<bool, NoMemory>
    requires slot { window.now.before + slot ≤ window.now.through }
    requires there { AreProcesses N.design copy.now.updates }
    ensures { IfOk result (λ alike. alike ≡ true → AreDueAlike N.design N.plan (window.now.before + slot) copy.now.updates) }
{
    copy.ascending();
    let design = setup.design();
    let mut next = copy.next_updates(ProcId(0));
    'processes: while let Some(process) = next {
        let alike = is_due_alike(alloc, window, slot, copy, process)?;
        if !alike {
            return Ok(false);
        }
        next = copy.next_updates(ProcId(process.0 + 1));
    }
    Ok(true)
}

/// Of so many objects at least a copy keeps values where a slot is run whole for that.
const MANY_KEPT: usize = 32;

/// Whether a slot costs less where it is run whole, by how many of these objects a copy keeps values of: at each block of a fault's own all of them are gone over, and the blocks
/// that touch them are about as many.
fn is_far_apart(kept: usize, objects: usize) -> bool
    ensures { result ≡ true → 32 ≤ kept }
{
    if kept < MANY_KEPT {
        return false;
    }
    objects / kept < kept / 12
}

/// Whether a copy keeps no process's state, and updates that are due at the times of those that the good machine has pending before a slot of a window: so that the slot may
/// be tried in lockstep. A copy that keeps values of too many objects isn't let through, since the slot is run whole for less.
///
/// # Errors
///
/// Want of memory.
pub fn may_go<N: World>(
    alloc: Global,
    setup: &Setup<'_, N>,
    window: &TraceWindow<N>,
    slot: u32,
    copy: &FaultCopy,
) -> Result<bool, NoMemory>
    requires slot { window.now.before + slot ≤ window.now.through }
    requires there { AreProcesses N.design copy.now.updates }
    ensures states { IfOk result (λ may. may ≡ true → copy.now.states ≡ []) }
    ensures due { IfOk result (λ may. may ≡ true → AreDueAlike N.design N.plan (window.now.before + slot) copy.now.updates) }
{
    if copy.next_state(ProcId(0)).is_some() {
        return Ok(false);
    }
    let objects = setup.design().objects.as_slice().len();
    if is_far_apart(copy.size(), objects) {
        return Ok(false);
    }
    let alike = are_due_alike(alloc, setup, window, slot, copy)?;
    Ok(alike)
}
