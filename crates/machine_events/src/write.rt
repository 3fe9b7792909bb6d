// A write of an update.

ghost use Rattle.std.specs.Prelude.{◌≡◌, ◌<◌, ◌++◌, ℕ, length, map, OnOk};
ghost use Rattle.std.specs.List.{All};
ghost use Rattle.vf_base.specs.Base.{object_number, process_number};
ghost use Rattle.four_value.specs.Values.{same_value};
ghost use Rattle.v_design.specs.Plain.{update_of};
ghost use Rattle.causal_monitor.specs.Notes.{IsNoted, noted_access};
ghost use Rattle.value_change.specs.Changes.{change_seen};
ghost use Rattle.value_change.specs.ChangeLaws.{write_of_change};
ghost use Rattle.net_state.specs.States.{values_in, machine_in};
ghost use Rattle.process_table.specs.Arranged.{IsKept, table_of};
ghost use Rattle.machine_laws.specs.WriteTells.{object_if};
ghost use Rattle.machine_events.specs.Parts.{WritesUpdate};

use crate::told::Told;
use causal_monitor::Noted;
use four_value::Vec4;
use net_state::NetState;
use process_table::ProcessTable;
use v_design::Update;
use value_change::Change;
use vf_base::{Access, AccessKind, NoMemory, ObjectId, ProcId};

/// The write of a change, by a process and the line of its statement.
fn write_of(change: &Change, process: ProcId, line: u32) -> Noted
    requires { length change.now.old ≡ length change.now.new }
    ensures access { noted_access result ≡ write_of_change (process_number process) line (change_seen change.now) }
    ensures object { result.access.object ≡ change.now.object }
    ensures noted { IsNoted result }
{
    let access = Access {
        kind: AccessKind::Write,
        object: change.object,
        process,
        line,
    };
    Noted {
        access,
        old: Some(change.old),
        new: Some(change.new),
        entry: None,
    }
}

/// Puts the object of a change behind those that are listed, where its value is another.
fn note_changed(changed: &mut Vec<ObjectId>, change: &Change) -> Result<(), NoMemory>
    requires { length change.now.old ≡ length change.now.new }
    ensures changed { OnOk result (map object_number changed.new.items ≡ map object_number changed.old.items ++ object_if
        (same_value change.now.old change.now.new) (object_number change.now.object)) }
    ensures there { OnOk result ((count : ℕ) → object_number change.now.object < count → All (λ object. object_number object < count) changed.old.items →
        All (λ object. object_number object < count) changed.new.items) }
{
    if !change.old.same(change.new) {
        changed.push(change.object)?;
    }
    Ok(())
}

/// An update is written by a process in the line of its statement, and `told` tells what that does.
///
/// # Errors
///
/// Want of memory.
pub(crate) fn write_update(
    nets: &mut NetState,
    table: &mut ProcessTable,
    told: &mut Told,
    update: &Update,
    process: ProcId,
    line: u32,
) -> Result<(), NoMemory>
    requires kept { IsKept table.old }
    requires design { (table_of table.old).design ≡ (machine_in nets.old).design }
    requires values { length (values_in nets.old) ≡ length (machine_in nets.old).design.objects }
    requires object { object_number update.now.object < length (values_in nets.old) }
    ensures { OnOk result (WritesUpdate (update_of update.now) (process_number process) line nets.old nets.new table.old table.new told.new) }
{
    told.clear();
    let change = nets.write(update);
    told.accesses.push(write_of(&change, process, line))?;
    note_changed(&mut told.changed, &change)?;
    table.wake(&[change], &mut told.accesses, &mut told.ended)?;
    Ok(())
}
