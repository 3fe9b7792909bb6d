// Whether pending updates are the same, and those that a copy keeps.

ghost use Rattle.std.specs.Prelude.{◌≡◌, ◌↔◌, IsTrue, IfOk, OnOk, map};
ghost use Rattle.vf_base.specs.Base.{process_number};
ghost use Rattle.v_design.specs.Plain.{due_of};
ghost use Rattle.copy_between.specs.Differing.{IsDifference, IsKeptAt};

use copy_state::FaultCopy;
use four_value::Vec4;
use std::alloc::Global;
use v_design::Due;
use vf_base::{NoMemory, ProcId};

/// Whether two values are equal.
fn same_value(one: Vec4, other: Vec4) -> bool
    ensures { IsTrue result ↔ (one ≡ other) }
{
    one.width() == other.width() && one.same(other)
}

/// Whether two pending updates are equal.
fn same_due(one: Due, other: Due) -> bool
    ensures { IsTrue result ↔ (due_of one ≡ due_of other) }
{
    one.time == other.time
        && one.update.object == other.update.object
        && one.update.low == other.update.low
        && one.update.line == other.update.line
        && same_value(one.update.value, other.update.value)
}

/// Whether two lists of pending updates are equal.
fn same_updates(one: &[Due], other: &[Due]) -> bool
    ensures { IsTrue result ↔ (map due_of one.now ≡ map due_of other.now) }
{
    if one.len() != other.len() {
        return false;
    }
    'updates: for place in 0..one.len() {
        if !same_due(one[place], other[place]) {
            return false;
        }
    }
    true
}

/// The same updates.
fn copied(alloc: Global, updates: &[Due]) -> Result<Vec<Due>, NoMemory>
    ensures { IfOk result (λ copy. copy.items ≡ updates.now) }
{
    let mut copy = Vec::with_capacity(alloc, updates.len())?;
    copy.extend_from_slice(updates)?;
    Ok(copy)
}

/// A process has these updates pending, which are kept where they aren't the good machine's.
///
/// # Errors
///
/// Want of memory. The copy isn't to be used again then.
pub fn keep_updates(
    alloc: Global,
    copy: &mut FaultCopy,
    process: ProcId,
    good: &[Due],
    own: &[Due],
) -> Result<(), NoMemory>
    ensures rest { OnOk result (copy.new ≡ record copy.old { updates = copy.new.updates }) }
    ensures kept { OnOk result (IsKeptAt (IsDifference (map due_of good.now) (map due_of own.now)) (process_number process) copy.old.updates copy.new.updates) }
{
    if same_updates(good, own) {
        copy.drop_updates(process);
        return Ok(());
    }
    let kept = copied(alloc, own)?;
    copy.hold_updates(process, kept)?;
    Ok(())
}
