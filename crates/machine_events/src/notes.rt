// The record of an event that is told.

ghost use Rattle.std.specs.Prelude.{◌≡◌, ◌<◌, length, map, OnOk};
ghost use Rattle.std.specs.List.{All};
ghost use Rattle.vf_base.specs.Base.{object_number, process_number, node_number};
ghost use Rattle.v_design.specs.States.{Step, LaneStep};
ghost use Rattle.causal_monitor.specs.Notes.{noted_access};
ghost use Rattle.slot_record.specs.Records.{IsRecord, IsNodeRecord, process_count, object_count};
ghost use Rattle.slot_record.specs.SlotRecords.{AddsStep, AddsNode};
ghost use Rattle.machine_events.specs.Parts.{FitsRecord};

use crate::told::Told;
use slot_record::SlotRecord;
use v_design::Node;
use vf_base::{NoMemory, NodeId, ProcId};

/// Records a step of a process.
///
/// # Errors
///
/// Want of memory.
pub(crate) fn note_step(
    record: &mut SlotRecord,
    told: &Told,
    process: ProcId,
    line: u32,
) -> Result<(), NoMemory>
    requires stands { IsRecord record.old.phase }
    requires process { process_number process < process_count record.old.phase }
    requires fits { FitsRecord record.old.phase told.now }
    ensures { OnOk result (AddsStep (Step (process_number process)) line (map noted_access told.now.accesses.items) (map object_number told.now.changed.items)
        (map process_number told.now.ended.items) record.old record.new) }
{
    record.note_step(process, line, &told.accesses, &told.changed, &told.ended)?;
    Ok(())
}

/// Records a step of a process's lane.
///
/// # Errors
///
/// Want of memory.
pub(crate) fn note_lane(
    record: &mut SlotRecord,
    told: &Told,
    process: ProcId,
    line: u32,
) -> Result<(), NoMemory>
    requires stands { IsRecord record.old.phase }
    requires process { process_number process < process_count record.old.phase }
    requires fits { FitsRecord record.old.phase told.now }
    ensures { OnOk result (AddsStep (LaneStep (process_number process)) line (map noted_access told.now.accesses.items)
        (map object_number told.now.changed.items) (map process_number told.now.ended.items) record.old record.new) }
{
    record.note_lane(process, line, &told.accesses, &told.changed, &told.ended)?;
    Ok(())
}

/// Records an evaluation of a node and the update of its nets, with the changes of these that are told.
///
/// # Errors
///
/// Want of memory.
pub(crate) fn note_node(
    record: &mut SlotRecord,
    told: &Told,
    number: NodeId,
    node: &Node,
) -> Result<(), NoMemory>
    requires stands { IsNodeRecord (node_number number) (map object_number node.now.inputs) record.old.phase }
    requires inputs { All (λ object. object_number object < object_count record.old.phase) node.now.inputs }
    requires changed { All (λ change. object_number change.object < object_count record.old.phase) told.now.net_changes.items }
    requires widths { All (λ change. length change.old ≡ length change.new) told.now.net_changes.items }
    requires fits { FitsRecord record.old.phase told.now }
    ensures { OnOk result (AddsNode (node_number number) (map object_number node.now.inputs) told.now.net_changes.items (map noted_access told.now.accesses.items)
        (map process_number told.now.ended.items) record.old record.new) }
{
    record.note_node(
        number,
        node.inputs.as_slice(),
        &told.net_changes,
        &told.accesses,
        &told.ended,
    )?;
    Ok(())
}
