// What a turn does to the updates that are kept.

ghost use Rattle.std.specs.Prelude.{◌≡◌, [], ◌∷◌, IfOk, OnOk};
ghost use Rattle.vf_base.specs.Base.{process_number};
ghost use Rattle.v_design.specs.States.{found_or};
ghost use Rattle.copy_laws.specs.Differences.{own_of};
ghost use Rattle.lockstep_copy.specs.Kept.{TurnsWrites, ArePartedBy};

use crate::own::LockstepCopy;
use std::alloc::Global;
use v_design::{Due, Update};
use vf_base::{NoMemory, ProcId, Seq};

/// An update that is due at a time, in steps, goes behind others in a lane, another one behind others in a list.
fn put_by_time(
    update: Due,
    now: u64,
    rest: &mut Vec<Due>,
    lane: &mut Vec<Update>,
) -> Result<(), NoMemory>
    ensures { OnOk result (ArePartedBy now (update ∷ []) rest.old.items rest.new.items lane.old.items lane.new.items) }
{
    if update.time <= now {
        lane.push(update.update)?;
        return Ok(());
    }
    rest.push(update)?;
    Ok(())
}

/// Of some pending updates those that are due at a time, in steps, go behind others in a lane, and the rest behind others in a list, in their order.
fn part_due(
    updates: &[Due],
    now: u64,
    rest: &mut Vec<Due>,
    lane: &mut Vec<Update>,
) -> Result<(), NoMemory>
    ensures { OnOk result (ArePartedBy now updates.now rest.old.items rest.new.items lane.old.items lane.new.items) }
{
    'updates: for update in updates {
        put_by_time(*update, now, rest, lane)?;
    }
    Ok(())
}

/// The updates that are kept in the lane of a process.
fn kept_lane(alloc: Global, own: &LockstepCopy, process: ProcId) -> Result<Vec<Update>, NoMemory>
    ensures { IfOk result (λ lane. lane.items ≡ found_or [] (own_of own.now.lanes (process_number process))) }
{
    let mut lane = Vec::new(alloc);
    match own.lanes.get(process) {
        None => Ok(lane),
        Some(earlier) => {
            lane.extend_from_slice(earlier.as_slice())?;
            Ok(lane)
        }
    }
}

/// The updates that are kept of a process, if there are some, after the turn at a time, in steps, by which updates that are due go into lanes.
///
/// # Errors
///
/// Want of memory. What is kept isn't to be used again then.
pub fn turn_writes(
    alloc: Global,
    own: &mut LockstepCopy,
    process: ProcId,
    now: u64,
) -> Result<(), NoMemory>
    ensures { OnOk result (TurnsWrites now (process_number process) own.old own.new) }
{
    let mut rest = Vec::new(alloc);
    let mut lane = kept_lane(alloc, own, process)?;
    let Some(later) = own.copy.updates(process) else {
        return Ok(());
    };
    part_due(later, now, &mut rest, &mut lane)?;
    own.copy.hold_updates(process, rest)?;
    own.lanes.put(process, Seq::from_vec(lane))?;
    Ok(())
}
