// The work on a node.

ghost use Rattle.std.specs.Prelude.{◌≡◌, ◌<◌, length, OnOk};
ghost use Rattle.vf_base.specs.Base.{node_number};
ghost use Rattle.v_design.specs.PlainDesigns.{design_of};
ghost use Rattle.net_state.specs.States.{machine_in, nodes_in};
ghost use Rattle.slot_record.specs.SlotRecords.{node_more};
ghost use Rattle.machine_events.specs.Alone.{AreOfOne, NodeHappens};
ghost use Rattle.machine_events.specs.Parts.{IsInSlot, Leads};

use crate::notes::note_node;
use crate::told::Told;
use net_state::NetState;
use process_table::ProcessTable;
use slot_record::SlotRecord;
use v_design::Design;
use vf_base::{NoMemory, NodeId};

/// A node is evaluated, and its nets get the values, of which no record is kept: `told` tells it.
///
/// # Errors
///
/// Want of memory.
pub fn node_alone(
    nets: &mut NetState,
    table: &mut ProcessTable,
    told: &mut Told,
    node: NodeId,
) -> Result<(), NoMemory>
    requires one { AreOfOne nets.old table.old }
    requires node { node_number node < length (nodes_in nets.old) }
    ensures { OnOk result (NodeHappens (node_number node) nets.old nets.new table.old table.new told.new) }
{
    told.clear();
    nets.work(node, &mut told.net_changes)?;
    table.wake(&told.net_changes, &mut told.accesses, &mut told.ended)?;
    Ok(())
}

/// A node is evaluated, and its nets get the values.
///
/// # Errors
///
/// Want of memory.
pub fn work_node(
    design: &Design,
    nets: &mut NetState,
    table: &mut ProcessTable,
    record: &mut SlotRecord,
    told: &mut Told,
    node: NodeId,
) -> Result<(), NoMemory>
    requires design { design_of design.now ≡ (machine_in nets.old).design }
    requires stands { IsInSlot nets.old table.old record.old }
    requires node { node_number node < length (nodes_in nets.old) }
    ensures { OnOk result (Leads (node_more (node_number node)) nets.old nets.new table.old table.new record.old record.new) }
{
    node_alone(nets, table, told, node)?;
    let own = &design.nodes.as_slice()[node.0 as usize];
    note_node(record, told, node, own)?;
    Ok(())
}
