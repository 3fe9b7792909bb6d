// The changes of a window from one moment to before another.

ghost use Rattle.std.specs.Prelude.{◌≡◌, ◌++◌, ◌<◌, ◌≤◌, [], ◌∷◌, ℕ, Some, map, filter, length, slice_get, OnOk};
ghost use Rattle.vf_base.specs.Base.{object_number, process_number};
ghost use Rattle.trace_window.specs.declared.change.Change.{Change};
ghost use Rattle.trace_window.specs.Writes.{written_of};
ghost use Rattle.moment_parts.specs.Within.{put_all, AreWoken};

use four_value::Vec4;
use process_code::ProcState;
use trace_window::Change;
use vf_base::{NoMemory, ObjectId, ProcId};

/// Puts the values of some changes, in their order, into those of all objects, and lists the objects.
///
/// # Errors
///
/// Want of memory.
pub fn put_changes(
    changes: &[Change],
    values: &mut Vec<Vec4>,
    changed: &mut Vec<ObjectId>,
) -> Result<(), NoMemory>
    ensures values { OnOk result (values.new.items ≡ put_all (map written_of changes.now) values.old.items) }
    ensures changed { OnOk result (map object_number changed.new.items ≡ map object_number changed.old.items ++ map (λ (change : Change). object_number change.object) changes.now) }
{
    'changes: for change in changes {
        changed.push(change.object)?;
        let object = change.object.0 as usize;
        if object < values.len() {
            values[object] = change.value;
        }
    }
    Ok(())
}

/// Makes a process ready, if it is one of these.
pub fn wake_one(states: &mut Vec<ProcState>, process: ProcId)
    ensures { AreWoken (process_number process ∷ []) states.old.items states.new.items }
{
    let place = process.0 as usize;
    if place < states.len() {
        states[place].wake();
    }
}
