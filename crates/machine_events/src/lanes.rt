// A step of a process's lane.

ghost use Rattle.std.specs.Prelude.{◌≡◌, true, IfOk, OnOk};
ghost use Rattle.vf_base.specs.Base.{process_number};
ghost use Rattle.v_design.specs.States.{LaneStep, is_any};
ghost use Rattle.process_table.specs.Arranged.{table_of};
ghost use Rattle.process_table.specs.Tables.{process_in};
ghost use Rattle.slot_record.specs.SlotRecords.{one_more};
ghost use Rattle.machine_events.specs.Alone.{AreOfOne, HappensTo};
ghost use Rattle.machine_events.specs.Parts.{IsInSlot, Leads};
ghost use Rattle.machine_events.specs.There.{LaneIsThere};

use crate::notes::note_lane;
use crate::told::Told;
use crate::write::write_update;
use net_state::NetState;
use process_table::ProcessTable;
use slot_record::SlotRecord;
use v_design::Update;
use vf_base::{NoMemory, ProcId};

/// The first update of a process's lane is written, of which no record is kept: `told` tells it. It answers the update.
///
/// # Errors
///
/// Want of memory.
pub fn lane_alone(
    nets: &mut NetState,
    table: &mut ProcessTable,
    told: &mut Told,
    process: ProcId,
) -> Result<Update, NoMemory>
    requires one { AreOfOne nets.old table.old }
    requires lane { is_any (process_in (table_of table.old) (process_number process)).lane ≡ true }
    requires there { LaneIsThere (process_number process) nets.old table.old }
    ensures { IfOk result (λ update. HappensTo (LaneStep (process_number process)) update.line nets.old nets.new table.old table.new told.new) }
{
    let Some(update) = table.lane_step(process) else {
        unreachable!();
    };
    write_update(nets, table, told, &update, process, update.line)?;
    Ok(update)
}

/// The first update of a process's lane is written.
///
/// # Errors
///
/// Want of memory.
pub fn step_lane(
    nets: &mut NetState,
    table: &mut ProcessTable,
    record: &mut SlotRecord,
    told: &mut Told,
    process: ProcId,
) -> Result<(), NoMemory>
    requires stands { IsInSlot nets.old table.old record.old }
    requires lane { is_any (process_in (table_of table.old) (process_number process)).lane ≡ true }
    requires there { LaneIsThere (process_number process) nets.old table.old }
    ensures { OnOk result (Leads (one_more (LaneStep (process_number process))) nets.old nets.new table.old table.new record.old record.new) }
{
    let update = lane_alone(nets, table, told, process)?;
    note_lane(record, told, process, update.line)?;
    Ok(())
}
