// What is kept of an object or a process, by comparing.

ghost use Rattle.std.specs.Prelude.{◌≡◌, false, true, length, map, IfOk, OnOk};
ghost use Rattle.vf_base.specs.Base.{object_number, process_number};
ghost use Rattle.v_design.specs.Plain.{due_of, update_of};
ghost use Rattle.copy_between.specs.Differing.{IsDifference, IsKeptAt};
ghost use Rattle.lockstep_copy.specs.Kept.{WritesAreKept, writes_told, with_writes_kept, without_writes_kept};

use crate::own::LockstepCopy;
use crate::same::{same_times, same_writes};
use four_value::Vec4;
use std::alloc::Global;
use v_design::{Due, Update};
use vf_base::{NoMemory, ObjectId, ProcId, Seq};

/// An object holds a value of its own, which is kept where it isn't the good machine's.
///
/// # Errors
///
/// Want of memory.
pub fn keep_value(
    own: &mut LockstepCopy,
    object: ObjectId,
    good: Vec4,
    value: Vec4,
) -> Result<(), NoMemory>
    requires { length good ≡ length value }
    ensures rest { OnOk result (own.new ≡ record own.old { copy = record own.old.copy { values = own.new.copy.values } }) }
    ensures kept { OnOk result (IsKeptAt (IsDifference good value) (object_number object) own.old.copy.values own.new.copy.values) }
{
    own.copy.set(object, good, value)?;
    Ok(())
}

/// A process has these updates pending and these in its lane.
fn hold_writes(
    own: &mut LockstepCopy,
    process: ProcId,
    later: Vec<Due>,
    lane: Vec<Update>,
) -> Result<(), NoMemory>
    ensures { OnOk result (own.new ≡ with_writes_kept (process_number process) (map due_of later.items) lane.items own.old) }
{
    own.copy.hold_updates(process, later)?;
    own.lanes.put(process, Seq::from_vec(lane))?;
    Ok(())
}

/// A process has the good machine's updates.
fn drop_writes(own: &mut LockstepCopy, process: ProcId)
    ensures { own.new ≡ without_writes_kept (process_number process) own.old }
{
    own.copy.drop_updates(process);
    own.lanes.take_out(process);
}

/// The same updates in memory of their own.
fn copied_later(alloc: Global, updates: &[Due]) -> Result<Vec<Due>, NoMemory>
    ensures { IfOk result (λ copy. copy.items ≡ updates.now) }
{
    let mut copy = Vec::with_capacity(alloc, updates.len())?;
    copy.extend_from_slice(updates)?;
    Ok(copy)
}

/// The same of a lane.
fn copied_lane(alloc: Global, updates: &[Update]) -> Result<Vec<Update>, NoMemory>
    ensures { IfOk result (λ copy. copy.items ≡ updates.now) }
{
    let mut copy = Vec::with_capacity(alloc, updates.len())?;
    copy.extend_from_slice(updates)?;
    Ok(copy)
}

/// A process has updates of its own pending and in its lane, which are kept where they aren't the good machine's. It answers whether they go on in lockstep: those that
/// are pending are due at the good ones' times, and as many are in the lane. Else nothing is changed.
///
/// # Errors
///
/// Want of memory.
pub fn keep_writes(
    alloc: Global,
    own: &mut LockstepCopy,
    process: ProcId,
    good_later: &[Due],
    good_lane: &[Update],
    later: &[Due],
    lane: &[Update],
) -> Result<bool, NoMemory>
    ensures kept { IfOk result (λ goes. goes ≡ true →
        WritesAreKept (process_number process) (writes_told good_later.now good_lane.now) (writes_told later.now lane.now) own.old own.new) }
    ensures stays { IfOk result (λ goes. goes ≡ false → own.new ≡ own.old) }
{
    if !same_times(good_later, later) || good_lane.len() != lane.len() {
        return Ok(false);
    }
    if same_writes(good_later, good_lane, later, lane) {
        drop_writes(own, process);
        return Ok(true);
    }
    let kept_later = copied_later(alloc, later)?;
    let kept_lane = copied_lane(alloc, lane)?;
    hold_writes(own, process, kept_later, kept_lane)?;
    Ok(true)
}
